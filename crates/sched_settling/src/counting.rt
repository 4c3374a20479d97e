//! The lines of graphs: as they are in the schedule under the draft, and then with the touched runs counted anew.
ghost use Rattle.std.specs.Prelude.{◌≡◌, ◌<◌, [], ◌∷◌, None, length, IfOk, OnOk, Some, true, slice_get};
ghost use Rattle.std.specs.Option.{option_to_list};
ghost use Rattle.run_lists.specs.Overlays.{AreAllTouched};
ghost use Rattle.sched_state.specs.declared.runs.Run as states;
ghost use Rattle.sched_model.specs.Lists.{rises};
ghost use Rattle.sched_model.specs.Schedule.{Schedule, is_running, run_before};
ghost use Rattle.sched_model.specs.Settle.{move};
ghost use Rattle.sched_settling.specs.Marks.{AreLines, IsLine, are_within, id_before, ids_of};
ghost use Rattle.sched_settling.specs.Touched.{AreFresh, AreRecounted, EachLine, HaveLinesOfAll, HaveLinesOf, IsCountedIn, IsCountedOff, IsLineAdded, IsLineOffered, IsRunCounted, bases_at, over_runs, runs_at, with_key};

use crate::ending::count_down;
use crate::lines::{GraphRuns, place_of};
use graph_file::Name;
use run_lists::Runs;
use sched_draft::Draft;
use sched_state::{Run, RunPhase};
use std::alloc::{AllocError, Global};
use std::collections::VecDeque;

// The line of a graph, of these runs alone. Its running runs are counted, and the dates of its queued ones are left where they stand.
fn line_in<'a>(alloc: Global, runs: &'a Runs, id: &'a Name) -> GraphRuns<'a>
    requires { rises run_before runs.now.runs ≡ true }
    ensures id { result.id.now ≡ id.now }
    ensures line { (a : Schedule) → runs.now.runs ≡ a.runs → IsLine a id.now result }
    ensures fresh { result.touched.items ≡ [] }
{
    GraphRuns {
        id,
        active: runs.running_of(id).len(),
        runs,
        kept: runs.queued_of(id),
        from: 0,
        touched: VecDeque::new(alloc),
    }
}

// The line of a graph, of these runs alone, is put in at its place, where it is not there.
fn add_line<'a>(
    alloc: Global,
    lines: &mut Vec<GraphRuns<'a>>,
    runs: &'a Runs,
    id: &'a Name,
) -> Result<(), AllocError>
    requires runs { rises run_before runs.now.runs ≡ true }
    requires rising { rises id_before (ids_of lines.old.items) ≡ true }
    ensures { OnOk result (IsLineAdded runs.now.runs id.now lines.old.items lines.new.items) }
{
    if let Err(place) = place_of(lines, id) {
        lines.insert(place, line_in(alloc, runs, id))?;
    }
    Ok(())
}

// The same, of the graph with this id, where that is there: of the runs of the schedule under the draft.
fn add_line_of<'a>(
    alloc: Global,
    draft: &Draft<'a>,
    lines: &mut Vec<GraphRuns<'a>>,
    id: &Name,
) -> Result<(), AllocError>
    requires runs { rises run_before draft.now.base.runs ≡ true }
    requires rising { rises id_before (ids_of lines.old.items) ≡ true }
    ensures { OnOk result (IsLineOffered draft.now.content draft.now.base.runs id.now lines.old.items lines.new.items) }
{
    match draft.dag(id) {
        Some(dag) => add_line(alloc, lines, draft.runs_below(), &dag.spec().dag_id),
        None => Ok(()),
    }
}

// A line for each graph, of the runs of the schedule under the draft.
fn lines_below<'a>(alloc: Global, draft: &Draft<'a>) -> Result<Vec<GraphRuns<'a>>, AllocError>
    requires { rises run_before draft.now.base.runs ≡ true }
    ensures rising { IfOk result (λ lines. rises id_before (ids_of lines.items) ≡ true) }
    ensures fresh { IfOk result (λ lines. AreFresh (over_runs draft.now.content draft.now.base.runs) lines.items) }
    ensures all { IfOk result (λ lines. HaveLinesOfAll draft.now.content.graphs lines.items) }
{
    let runs = draft.runs_below();
    let mut lines = Vec::new(alloc);
    for graph in 0..draft.graph_count() {
        let spec = draft.dag_at(graph).spec();
        add_line(alloc, &mut lines, runs, &spec.dag_id)?;
    }
    Ok(lines)
}

// A line for the graph of each run at these positions, where it is there, of the runs of the schedule under the draft.
fn lines_at<'a>(
    alloc: Global,
    draft: &Draft<'a>,
    positions: &[usize],
) -> Result<Vec<GraphRuns<'a>>, AllocError>
    requires runs { rises run_before draft.now.base.runs ≡ true }
    requires within { are_within (length draft.now.content.runs) positions.now ≡ true }
    ensures rising { IfOk result (λ lines. rises id_before (ids_of lines.items) ≡ true) }
    ensures fresh { IfOk result (λ lines. AreFresh (over_runs draft.now.content draft.now.base.runs) lines.items) }
    ensures these { IfOk result (λ lines. HaveLinesOf draft.now.content (runs_at draft.now.content.runs positions.now) lines.items) }
{
    let mut lines = Vec::new(alloc);
    for position in positions {
        add_line_of(alloc, draft, &mut lines, &draft.run(*position).graph)?;
    }
    Ok(lines)
}

// The run is counted in the line of its graph: as one that is running, or by its date as a queued one.
fn count_run(line: &mut GraphRuns<'_>, run: &Run) -> Result<(), AllocError>
    ensures { OnOk result (IsRunCounted run.now line.old line.new) }
{
    match run.phase {
        RunPhase::Running => {
            let Some(active) = line.active.checked_add(1) else {
                return Err(AllocError);
            };
            line.active = active;
        }
        RunPhase::Queued => line.touched.push_back(run.logical)?,
        RunPhase::Success | RunPhase::Failed => {}
    }
    Ok(())
}

// The run is counted in, where there is a line of its graph.
fn count_in(lines: &mut Vec<GraphRuns<'_>>, run: &Run) -> Result<(), AllocError>
    requires { rises id_before (ids_of lines.old.items) ≡ true }
    ensures { OnOk result (EachLine (λ id. IsCountedIn id (run.now ∷ [])) lines.old.items lines.new.items) }
{
    match place_of(lines, &run.graph) {
        Ok(place) => count_run(&mut lines[place], run),
        Err(_) => Ok(()),
    }
}

// The touched runs are counted in.
fn count_all_in(
    draft: &Draft<'_>,
    lines: &mut Vec<GraphRuns<'_>>,
    touched: &[usize],
) -> Result<(), AllocError>
    requires within { are_within (length draft.now.content.runs) touched.now ≡ true }
    requires rising { rises id_before (ids_of lines.old.items) ≡ true }
    ensures { OnOk result (EachLine (λ id. IsCountedIn id (runs_at draft.now.content.runs touched.now))
        lines.old.items lines.new.items) }
{
    for position in touched {
        count_in(lines, draft.run(*position))?;
    }
    Ok(())
}

// Whether the run is running.
fn is_running(run: &Run) -> bool
    ensures { result ≡ is_running run.now.phase }
{
    matches!(run.phase, RunPhase::Running)
}

// The run that was there with the key of the one at a position is counted off, if it was running and there is a line of its graph.
fn count_off(draft: &Draft<'_>, lines: &mut Vec<GraphRuns<'_>>, position: usize)
    requires runs { rises run_before draft.now.content.runs ≡ true }
    requires within { position < length draft.now.content.runs }
    requires rising { rises id_before (ids_of lines.old.items) ≡ true }
    ensures { (r : states.Run) → slice_get draft.now.content.runs position ≡ Some r
        → EachLine (λ id. IsCountedOff id (option_to_list (with_key draft.now.base.runs r)))
        lines.old.items lines.new.items }
{
    if let Some(base) = draft.before(position) {
        if is_running(base) {
            count_down(lines, &base.graph);
        }
    }
}

// The runs that were there with the keys of the touched ones are counted off.
fn count_all_off(draft: &Draft<'_>, lines: &mut Vec<GraphRuns<'_>>, touched: &[usize])
    requires runs { rises run_before draft.now.content.runs ≡ true }
    requires within { are_within (length draft.now.content.runs) touched.now ≡ true }
    requires rising { rises id_before (ids_of lines.old.items) ≡ true }
    ensures { EachLine (λ id. IsCountedOff id (bases_at draft.now.base.runs draft.now.content.runs touched.now))
        lines.old.items lines.new.items }
{
    for position in touched {
        count_off(draft, lines, *position);
    }
}

// The touched runs are counted anew in lines of the runs under the draft: no other run is looked at.
fn recount(
    draft: &Draft<'_>,
    lines: &mut Vec<GraphRuns<'_>>,
    touched: &[usize],
) -> Result<(), AllocError>
    requires touched { AreAllTouched touched.now draft.now.base.runs draft.now.content.runs }
    requires runs { rises run_before draft.now.content.runs ≡ true }
    requires rising { rises id_before (ids_of lines.old.items) ≡ true }
    requires fresh { AreFresh (over_runs draft.now.content draft.now.base.runs) lines.old.items }
    ensures { OnOk result (AreRecounted draft.now.content lines.old.items lines.new.items) }
{
    count_all_in(draft, lines, touched)?;
    count_all_off(draft, lines, touched);
    Ok(())
}

// A line of each graph of the draft: that of the schedule under it, and of its runs the touched ones alone are looked at.
pub(crate) fn lines_of<'a>(
    alloc: Global,
    draft: &Draft<'a>,
) -> Result<Vec<GraphRuns<'a>>, AllocError>
    requires runs { rises run_before draft.now.content.runs ≡ true }
    ensures lines { IfOk result (λ lines. AreLines lines.items draft.now.content) }
    ensures all { IfOk result (λ lines. HaveLinesOfAll draft.now.content.graphs lines.items) }
{
    let touched = draft.touched(alloc)?;
    let mut lines = lines_below(alloc, draft)?;
    recount(draft, &mut lines, touched.as_slice())?;
    Ok(lines)
}

// The lines of a draft over a schedule in which no move is possible: those of the graphs of its touched runs, if its graphs are those of that
// schedule.
pub(crate) fn lines_of_touched<'a>(
    alloc: Global,
    draft: &Draft<'a>,
    touched: &[usize],
) -> Result<Vec<GraphRuns<'a>>, AllocError>
    requires touched { AreAllTouched touched.now draft.now.base.runs draft.now.content.runs }
    requires runs { rises run_before draft.now.content.runs ≡ true }
    requires still { move draft.now.base ≡ None }
    ensures { IfOk result (λ lines. AreLines lines.items draft.now.content) }
{
    if !draft.keeps_graphs() {
        return lines_of(alloc, draft);
    }
    let mut lines = lines_at(alloc, draft, touched)?;
    recount(draft, &mut lines, touched)?;
    Ok(lines)
}

//! Ends of runs.
ghost use Rattle.std.specs.Prelude.{◌≡◌, ◌<◌, ◌&&◌, true, length, MatchOption, OnOk, Some, None};
ghost use Rattle.std.specs.List.{list_all, list_any};
ghost use Rattle.trigger_rules.specs.States.{is_finished, is_bad};
ghost use Rattle.sched_model.specs.Lists.{map_places, rises};
ghost use Rattle.sched_model.specs.Schedule.{run_before};
ghost use Rattle.sched_model.specs.Settle.{is_leaf, finish_run};
ghost use Rattle.sched_laws.specs.Stages.{finish_every, in_phase, CoversEnds};
ghost use Rattle.dag_check.specs.Orders.{is_in};
ghost use Rattle.sched_settling.specs.Marks.{IsKeyed, IsEndedAt, AreLines, HasLineOf, are_within, id_before, ids_of, one_fewer, IsCountedDown};
ghost use Rattle.sched_settling.specs.States.{states_in};

use crate::counting::lines_of;
use crate::lines::{GraphRuns, place_of};
use crate::states::{dag_of, state_in};
use dag_check::Graph;
use graph_file::Name;
use sched_draft::Draft;
use sched_state::{Run, RunPhase};
use std::alloc::{AllocError, Global};
use trigger_rules::State;

// Whether all instances of the run are finished.
fn all_finished(dag: &Graph, run: &Run) -> bool
    ensures { result ≡ list_all is_finished (states_in dag.now run.now) }
{
    for place in 0..dag.len().min(run.instances.len()) {
        if !state_in(dag, run, place).is_finished() {
            return false;
        }
    }
    true
}

// Whether the state is failed or upstream_failed.
fn is_bad(state: State) -> bool
    ensures { result ≡ is_bad state }
{
    matches!(state, State::Failed | State::UpstreamFailed)
}

// Whether a leaf of the run is failed or upstream_failed.
fn has_bad_leaf(dag: &Graph, run: &Run) -> bool
    ensures { result ≡ list_any (λ b. b)
        (map_places (λ p s. is_bad s && is_leaf dag.now p) 0 (states_in dag.now run.now)) }
{
    for place in 0..dag.len().min(run.instances.len()) {
        if is_bad(state_in(dag, run, place)) && dag.is_leaf(place) {
            return true;
        }
    }
    false
}

// The phase in which the run ends, where it can.
fn end_of(draft: &Draft<'_>, run: &Run) -> Option<RunPhase>
    ensures { MatchOption result (finish_run draft.now.content run.now ≡ None)
        (λ phase. finish_run draft.now.content run.now ≡ Some (in_phase phase run.now)) }
{
    if !matches!(run.phase, RunPhase::Running) {
        return None;
    }
    match dag_of(draft, run) {
        None => Some(RunPhase::Success),
        Some(dag) => {
            if !all_finished(dag, run) {
                None
            } else if has_bad_leaf(dag, run) {
                Some(RunPhase::Failed)
            } else {
                Some(RunPhase::Success)
            }
        }
    }
}

// One running run fewer.
fn count_one(line: &mut GraphRuns<'_>)
    ensures { line.new ≡ one_fewer line.old }
{
    line.active = line.active.saturating_sub(1);
}

// One running run of the graph fewer, where there is a line of it.
pub(crate) fn count_down(lines: &mut Vec<GraphRuns<'_>>, id: &Name)
    requires { rises id_before (ids_of lines.old.items) ≡ true }
    ensures { IsCountedDown id.now lines.old.items lines.new.items }
{
    if let Ok(place) = place_of(lines, id) {
        count_one(&mut lines[place]);
    }
}

// There is a line of the graph with this id, if the graph is there. Where it was missing, a line of each graph is made.
fn provide_line<'a>(
    alloc: Global,
    draft: &Draft<'a>,
    lines: &mut Vec<GraphRuns<'a>>,
    id: &Name,
) -> Result<(), AllocError>
    requires runs { rises run_before draft.now.content.runs ≡ true }
    requires lines { AreLines lines.old.items draft.now.content }
    ensures lines { OnOk result (AreLines lines.new.items draft.now.content) }
    ensures there { OnOk result (HasLineOf draft.now.content id.now lines.new.items) }
{
    match place_of(lines, id) {
        Ok(_) => {}
        Err(_) => *lines = lines_of(alloc, draft)?,
    }
    Ok(())
}

// The run at a position ends, if it can.
fn end_at<'a>(
    alloc: Global,
    draft: &mut Draft<'a>,
    lines: &mut Vec<GraphRuns<'a>>,
    position: usize,
) -> Result<(), AllocError>
    requires keyed { IsKeyed draft.old.content }
    requires within { position < length draft.old.content.runs }
    requires lines { AreLines lines.old.items draft.old.content }
    ensures base { OnOk result (draft.new.base ≡ draft.old.base) }
    ensures ended { OnOk result (IsEndedAt position draft.old.content draft.new.content) }
    ensures lines { OnOk result (AreLines lines.new.items draft.new.content) }
{
    if let Some(phase) = end_of(draft, draft.run(position)) {
        draft.own(alloc, position)?;
        provide_line(alloc, draft, lines, &draft.run(position).graph)?;
        count_down(lines, &draft.run(position).graph);
        draft.set_phase(position, phase);
    }
    Ok(())
}

// Each run ends that can, where those are among the positions.
pub(crate) fn end_marked<'a>(
    alloc: Global,
    draft: &mut Draft<'a>,
    lines: &mut Vec<GraphRuns<'a>>,
    marks: &[usize],
) -> Result<(), AllocError>
    requires keyed { IsKeyed draft.old.content }
    requires within { are_within (length draft.old.content.runs) marks.now ≡ true }
    requires endings { CoversEnds (is_in marks.now) draft.old.content }
    requires lines { AreLines lines.old.items draft.old.content }
    ensures base { OnOk result (draft.new.base ≡ draft.old.base) }
    ensures ended { OnOk result (draft.new.content ≡ finish_every draft.old.content) }
    ensures lines { OnOk result (AreLines lines.new.items draft.new.content) }
{
    for position in marks {
        end_at(alloc, draft, lines, *position)?;
    }
    Ok(())
}

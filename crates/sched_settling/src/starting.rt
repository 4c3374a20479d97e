//! Starts of runs.
ghost use Rattle.std.specs.Prelude.{◌≡◌, true, IfOk, IfSome, MatchOption, OnOk, is_some};
ghost use Rattle.sched_model.specs.Lists.{rises};
ghost use Rattle.sched_model.specs.Schedule.{is_queued, run_before};
ghost use Rattle.sched_settling.specs.Marks.{AreLines, DatesRise, IsKeyed, IsLine, IsQueue, IsFirstQueued, IsQueuedOn, NoneQueued, NoneQueuedOn, IsStartIn, NoStartIn, IsStartAt};
ghost use Rattle.sched_settling.specs.States.{IsFirstStart};

use crate::lines::{GraphRuns, take_date};
use graph_file::Name;
use moment_core::Moment;
use sched_draft::Draft;
use sched_state::{Run, RunPhase};
use std::alloc::{AllocError, Global};

// Whether the run is queued.
fn is_queued(run: &Run) -> bool
    ensures { result ≡ is_queued run.now.phase }
{
    matches!(run.phase, RunPhase::Queued)
}

// The position of the graph's run with this date, where it is a queued one.
fn queued_on(draft: &Draft<'_>, id: &Name, date: Moment) -> Option<usize>
    requires { rises run_before draft.now.content.runs ≡ true }
    ensures { MatchOption result (NoneQueuedOn draft.now.content id.now date) (IsQueuedOn draft.now.content id.now date) }
{
    let Some(position) = draft.find(id, date) else {
        return None;
    };
    if is_queued(draft.run(position)) {
        Some(position)
    } else {
        None
    }
}

// The first queued run of the graph, whose date is taken out of the line.
fn take_queued(draft: &Draft<'_>, line: &mut GraphRuns<'_>) -> Option<usize>
    requires ordered { rises run_before draft.now.content.runs ≡ true }
    requires queue { IsQueue draft.now.content line.old.id.now line.old }
    ensures id { line.new.id.now ≡ line.old.id.now }
    ensures active { line.new.active ≡ line.old.active }
    ensures rise { DatesRise line.new }
    ensures found { MatchOption result (NoneQueued draft.now.content line.old.id.now) (IsFirstQueued draft.now.content line.old.id.now line.new) }
{
    let id = line.id;
    while let Some(date) = take_date(line) {
        if let Some(position) = queued_on(draft, id, date) {
            return Some(position);
        }
    }
    None
}

// The first queued run of a line's graph starts, if one can, and where it stands.
fn start_in(
    alloc: Global,
    draft: &mut Draft<'_>,
    line: &mut GraphRuns<'_>,
) -> Result<Option<usize>, AllocError>
    requires keyed { IsKeyed draft.old.content }
    requires line { IsLine draft.old.content line.old.id.now line.old }
    ensures id { line.new.id.now ≡ line.old.id.now }
    ensures base { OnOk result (draft.new.base ≡ draft.old.base) }
    ensures started { IfOk result (λ started. MatchOption started
        (NoStartIn line.old.id.now line.new draft.old.content draft.new.content)
        (IsStartIn line.old.id.now line.new draft.old.content draft.new.content)) }
{
    let Some(graph) = draft.position_of(line.id) else {
        return Ok(None);
    };
    let most = draft.dag_at(graph).spec().max_active_runs.get() as usize;
    if draft.is_paused_at(graph) || most <= line.active {
        return Ok(None);
    }
    let Some(position) = take_queued(draft, line) else {
        return Ok(None);
    };
    draft.own(alloc, position)?;
    line.active += 1;
    draft.set_phase(position, RunPhase::Running);
    Ok(Some(position))
}

// The first run that can start does, and where it stands.
pub(crate) fn start_first(
    alloc: Global,
    draft: &mut Draft<'_>,
    lines: &mut Vec<GraphRuns<'_>>,
) -> Result<Option<usize>, AllocError>
    requires keyed { IsKeyed draft.old.content }
    requires lines { AreLines lines.old.items draft.old.content }
    ensures base { OnOk result (draft.new.base ≡ draft.old.base) }
    ensures first { IfOk result (λ started. IsFirstStart draft.old.content draft.new.content (is_some started)) }
    ensures started { IfOk result (λ started. IfSome started (IsStartAt draft.old.content draft.new.content)) }
    ensures lines { OnOk result (AreLines lines.new.items draft.new.content) }
{
    for place in 0..lines.len() {
        if let Some(position) = start_in(alloc, draft, &mut lines[place])? {
            return Ok(Some(position));
        }
    }
    Ok(None)
}

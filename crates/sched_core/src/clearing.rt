//! Planning a clear: task instances that are set back.
ghost use Rattle.std.specs.Prelude.{◌≡◌, ◌≤◌, length, Some, IfOk, IfErr, OnOk};
ghost use Rattle.sched_clearing.specs.Selections.{selection_of};
ghost use Rattle.sched_events.specs.Outcomes.{IsRefusal};
ghost use Rattle.sched_events.specs.declared.events.Event.TheVariants.{Clear};
ghost use Rattle.sched_model.specs.Sound.{IsSound};
ghost use Rattle.sched_state.specs.Limits.{ceilings};
ghost use Rattle.sched_core.specs.Plans.{IsPlanned};
ghost use Rattle.sched_core.specs.Repairs.{IsSetBack, clear_refusal};

use crate::changes::{Change, GraphChange};
use crate::planning::quiet_answer;
use crate::schedules::Schedule;
use sched_clearing::{ClearFault, Selection, clear, least_in_flight, named_by_clear};
use sched_draft::Draft;
use sched_events::{Answer, Refusal};
use sched_state::Clearing;
use std::alloc::Global;

impl Schedule {
    // What a clear would do, or why it is refused.
    pub(crate) fn plan_clear(&self, alloc: Global, clearing: &Clearing) -> Result<Change, Refusal>
        ensures accepted { IfOk result (IsPlanned self.now.content (Clear clearing.now)) }
        ensures refused { IfErr result (IsRefusal self.now.content (Clear clearing.now)) }
    {
        let mut draft = self.draft(alloc, None, false);
        let selection = match named_by_clear(alloc, &draft, clearing) {
            Ok(selection) => selection,
            Err(fault) => return Err(refusal_of(fault)),
        };
        if clearing.to < clearing.from {
            return Err(Refusal::BadSpan);
        }
        let _limit = self.limits.runs();
        let cleared = set_back(alloc, &mut draft, &selection)?;
        let answer = Answer {
            cleared,
            ..quiet_answer(alloc)
        };
        Ok(self.finish(alloc, draft, GraphChange::Same, answer)?)
    }
}

// The named instances are set back, unless one of them has a try without an end: how many of them were not none.
pub(crate) fn set_back(
    alloc: Global,
    draft: &mut Draft<'_>,
    selection: &Selection<'_>,
) -> Result<u32, Refusal>
    requires sound { IsSound draft.old.content }
    requires few { length draft.old.content.runs ≤ ceilings.runs }
    ensures base { OnOk result (draft.new.base ≡ draft.old.base) }
    ensures back { IsSetBack (Some (selection_of selection.now)) draft.old.content draft.new.content result }
{
    match least_in_flight(draft, selection) {
        Some(serial) => Err(Refusal::InFlight(serial)),
        None => Ok(clear(alloc, draft, selection)?),
    }
}

// Why a clear is refused that names nothing.
fn refusal_of(fault: ClearFault) -> Refusal
    ensures { result ≡ clear_refusal fault }
{
    match fault {
        ClearFault::UnknownGraph => Refusal::UnknownGraph,
        ClearFault::UnknownTask => Refusal::UnknownTask,
        ClearFault::Memory => Refusal::Memory,
    }
}

//! Planning a backfill: the runs of a span that are missing, and the others set back where it resets.
ghost use Rattle.std.specs.Prelude.{◌≡◌, ◌≤◌, length, IfOk, IfErr, OnOk};
ghost use Rattle.sched_events.specs.Outcomes.{IsRefusal};
ghost use Rattle.sched_events.specs.declared.events.Event.TheVariants.{Backfill};
ghost use Rattle.sched_model.specs.Sound.{IsSound};
ghost use Rattle.sched_state.specs.Limits.{ceilings};
ghost use Rattle.sched_core.specs.Plans.{IsPlanned};
ghost use Rattle.sched_core.specs.Repairs.{IsSetBack, reset_of};

use crate::changes::{Change, GraphChange};
use crate::clearing::set_back;
use crate::planning::{ids_of, quiet_answer};
use crate::schedules::Schedule;
use graph_file::Name;
use moment_core::Moment;
use sched_clearing::named_by_reset;
use sched_creation::{add, named_by_backfill};
use sched_draft::Draft;
use sched_events::{Answer, Refusal};
use std::alloc::Global;

impl Schedule {
    // What a backfill of the graph's intervals that start in a span would do, or why it is refused.
    pub(crate) fn plan_backfill(
        &self,
        alloc: Global,
        graph: &Name,
        from: Moment,
        to: Moment,
        reset: bool,
    ) -> Result<Change, Refusal>
        ensures accepted { IfOk result (IsPlanned self.now.content
            (Backfill graph.now from to reset)) }
        ensures refused { IfErr result (IsRefusal self.now.content
            (Backfill graph.now from to reset)) }
    {
        let mut draft = self.draft(alloc, None, false);
        let room = (self.limits.runs() as usize).saturating_sub(self.runs.len());
        let dates = self.dates.as_slice();
        let Some(named) = named_by_backfill(alloc, &draft, dates, graph, from, to, room)? else {
            return Err(Refusal::UnknownGraph);
        };
        if to < from {
            return Err(Refusal::BadSpan);
        }
        let cleared = reset_if(alloc, &mut draft, reset, graph, &named.present)?;
        if named.more {
            return Err(Refusal::RecordFull);
        }
        let made = ids_of(alloc, &named.runs)?;
        add(&mut draft, named.runs)?;
        let answer = Answer {
            made,
            cleared,
            ..quiet_answer(alloc)
        };
        Ok(self.finish(alloc, draft, GraphChange::Same, answer)?)
    }
}

// All instances of the graph's runs with these logical dates are set back, if they are to be reset: how many of them were not none.
fn reset_if(
    alloc: Global,
    draft: &mut Draft<'_>,
    wanted: bool,
    graph: &Name,
    dates: &[Moment],
) -> Result<u32, Refusal>
    requires sound { IsSound draft.old.content }
    requires few { length draft.old.content.runs ≤ ceilings.runs }
    ensures base { OnOk result (draft.new.base ≡ draft.old.base) }
    ensures back { IsSetBack (reset_of wanted graph.now dates.now) draft.old.content draft.new.content result }
{
    if !wanted {
        return Ok(0);
    }
    let selection = named_by_reset(graph, dates);
    set_back(alloc, draft, &selection)
}

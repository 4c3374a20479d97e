//! Planning a mark: a task of one run that is passed over.
ghost use Rattle.std.specs.Prelude.{◌≡◌, IfErr, IfOk, OnOk};
ghost use Rattle.sched_events.specs.Outcomes.{IsRefusal};
ghost use Rattle.sched_events.specs.declared.events.Event.TheVariants.{Mark};
ghost use Rattle.sched_model.specs.Sound.{IsSound};
ghost use Rattle.sched_core.specs.Plans.{IsPlanned};
ghost use Rattle.sched_core.specs.Repairs.{IsMark, mark_refusal};

use crate::changes::{Change, GraphChange};
use crate::planning::quiet_answer;
use crate::schedules::Schedule;
use graph_file::Name;
use moment_core::Moment;
use sched_clearing::{MarkFault, mark};
use sched_draft::Draft;
use sched_events::Refusal;
use std::alloc::Global;

impl Schedule {
    // What a mark of the task in the run of this date would do, or why it is refused.
    pub(crate) fn plan_mark(
        &self,
        alloc: Global,
        graph: &Name,
        logical: Moment,
        task: &Name,
    ) -> Result<Change, Refusal>
        ensures accepted { IfOk result (IsPlanned self.now.content
            (Mark graph.now logical task.now)) }
        ensures refused { IfErr result (IsRefusal self.now.content
            (Mark graph.now logical task.now)) }
    {
        let mut draft = self.draft(alloc, None, false);
        let _limit = self.limits.runs();
        pass_over(alloc, &mut draft, graph, logical, task)?;
        Ok(self.finish(alloc, draft, GraphChange::Same, quiet_answer(alloc))?)
    }
}

// The task is passed over, or the mark is refused.
fn pass_over(
    alloc: Global,
    draft: &mut Draft<'_>,
    graph: &Name,
    logical: Moment,
    task: &Name,
) -> Result<(), Refusal>
    requires sound { IsSound draft.old.content }
    ensures base { OnOk result (draft.new.base ≡ draft.old.base) }
    ensures marked { IsMark draft.old.content graph.now logical task.now draft.new.content result }
{
    match mark(alloc, draft, graph, logical, task) {
        Ok(()) => Ok(()),
        Err(fault) => Err(refusal_of(fault)),
    }
}

// Why a mark is refused.
fn refusal_of(fault: MarkFault) -> Refusal
    ensures { result ≡ mark_refusal fault }
{
    match fault {
        MarkFault::UnknownGraph => Refusal::UnknownGraph,
        MarkFault::UnknownTask => Refusal::UnknownTask,
        MarkFault::InFlight(serial) => Refusal::InFlight(serial),
        MarkFault::UnknownRun => Refusal::UnknownRun,
        MarkFault::Memory => Refusal::Memory,
    }
}

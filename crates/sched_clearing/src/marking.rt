//! Passing a task of one run over.
ghost use Rattle.std.specs.Prelude.{◌≡◌, IfErr, IfOk, OnOk};
ghost use Rattle.sched_model.specs.Clearing as clears;
ghost use Rattle.sched_model.specs.Clearing.{cleared_by};
ghost use Rattle.sched_model.specs.Marking as model;
ghost use Rattle.sched_model.specs.Sound.{IsSound};
ghost use Rattle.sched_clearing.specs.Marking.{IsMarkedAs, IsPassedOver, fault_of};
ghost use Rattle.sched_clearing.specs.declared.marking.MarkFault.TheVariants.{Memory};

use crate::clearing::{clear, set};
use crate::in_flight::least_in_flight;
use crate::selections::{ClearFault, named_by_clear};
use graph_file::Name;
use moment_core::Moment;
use sched_draft::Draft;
use sched_state::Clearing;
use std::alloc::{AllocError, Global};
use trigger_rules::Verdict;

/// Why a task of a run is not passed over. Where several hold the first is answered.
#[derive(Clone, Copy, Debug, PartialEq, Eq)]
pub enum MarkFault {
    /// There is no graph with this id.
    UnknownGraph,
    /// The graph has no task with this id.
    UnknownTask,
    /// The task has a try without an end in the run; this is its serial.
    InFlight(u64),
    /// The graph has no run with this logical date.
    UnknownRun,
    /// Memory ran out. This comes at any point before.
    Memory,
}

impl From<AllocError> for MarkFault {
    ghost use Rattle.std.specs.Prelude.{◌≡◌};
    ghost use Rattle.sched_clearing.specs.declared.marking.MarkFault.TheVariants.{Memory};

    ghost from_gives = { λ _ fault. fault ≡ Memory };

    fn from(_error: AllocError) -> MarkFault {
        MarkFault::Memory
    }
}

// The same fault, of a mark.
fn fault_of(fault: ClearFault) -> MarkFault
    ensures { result ≡ fault_of fault }
{
    match fault {
        ClearFault::UnknownGraph => MarkFault::UnknownGraph,
        ClearFault::UnknownTask => MarkFault::UnknownTask,
        ClearFault::Memory => MarkFault::Memory,
    }
}

// A clear that names the instance of the task in the run of this date.
fn one_of(alloc: Global, graph: &Name, logical: Moment, task: &Name) -> Result<Clearing, AllocError>
    ensures { IfOk result (λ clearing. clearing ≡ model.one_of graph.now logical task.now) }
{
    Ok(Clearing {
        graph: graph.copy(alloc)?,
        from: logical,
        to: logical,
        task: Some(task.copy(alloc)?),
        upstream: false,
        downstream: false,
        only_failed: false,
    })
}

// What the clear of one date names is skipped, where nothing stands against it.
fn pass_over(alloc: Global, draft: &mut Draft<'_>, one: &Clearing) -> Result<(), MarkFault>
    requires { IsSound draft.old.content }
    ensures base { OnOk result (draft.new.base ≡ draft.old.base) }
    ensures passed { IsPassedOver draft.old.content one.now draft.new.content result }
{
    let selection = match named_by_clear(alloc, draft, one) {
        Ok(selection) => selection,
        Err(fault) => return Err(fault_of(fault)),
    };
    if let Some(serial) = least_in_flight(draft, &selection) {
        return Err(MarkFault::InFlight(serial));
    }
    let Some(_position) = draft.find(&one.graph, one.from) else {
        return Err(MarkFault::UnknownRun);
    };
    let _count = set(alloc, draft, &selection, Some(Verdict::Skip))?;
    Ok(())
}

// What the clear names is set back. Its graph and its task are there, so it names something or memory runs out.
fn with_set_back(alloc: Global, draft: &mut Draft<'_>, after: &Clearing) -> Result<(), MarkFault>
    requires { IsSound draft.old.content }
    ensures base { OnOk result (draft.new.base ≡ draft.old.base) }
    ensures back { OnOk result (draft.new.content
        ≡ clears.clear (cleared_by draft.old.content after.now) draft.old.content) }
    ensures memory { IfErr result (λ fault. fault ≡ Memory) }
{
    let Ok(selection) = named_by_clear(alloc, draft, after) else {
        return Err(MarkFault::Memory);
    };
    let _count = clear(alloc, draft, &selection)?;
    Ok(())
}

/// The task of the run of this date is passed over: its instance is skipped, and none of its tries counts. What failed of it and after it
/// is set back to none, and a finished run is queued again (Airflow 2, where a task instance's state is set to skipped).
pub fn mark(
    alloc: Global,
    draft: &mut Draft<'_>,
    graph: &Name,
    logical: Moment,
    task: &Name,
) -> Result<(), MarkFault>
    requires { IsSound draft.old.content }
    ensures base { OnOk result (draft.new.base ≡ draft.old.base) }
    ensures marked { IsMarkedAs draft.old.content graph.now logical task.now draft.new.content
        result }
{
    let one = one_of(alloc, graph, logical, task)?;
    pass_over(alloc, draft, &one)?;
    let after = Clearing {
        downstream: true,
        only_failed: true,
        ..one
    };
    with_set_back(alloc, draft, &after)
}

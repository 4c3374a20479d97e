//! Why an event is refused.
use dag_check::DagFault;
use graph_file::{GraphFault, Name};
use moment_core::Moment;
use pool_book::PoolFault;
use run_planner::PlanFault;
use std::alloc::AllocError;

/// Why an event is refused. Where several causes stand, the first in this order is answered, and nothing changes.
#[derive(Debug, Drop)]
pub enum Refusal {
    /// The text is no graph file, or has more tasks or upstream names than the schedule's limits (`TooMany`).
    GraphFault(GraphFault),
    /// The file is no graph without cycles (Airflow 2, "DAGs").
    DagFault(DagFault),
    /// There is no pool of this name; it is that of the first such task in the file.
    UnknownPool(Name),
    /// The graph is new, and there are as many graphs as the limit.
    TooManyGraphs,
    /// The graph has another text, and has runs.
    GraphDiffers,
    /// There is no graph with this id.
    UnknownGraph,
    /// The graph has no task with this id.
    UnknownTask,
    /// The moment lies before this one, which the schedule has seen.
    ClockBack(Moment),
    /// The span ends before it begins.
    BadSpan,
    /// A run of the graph has the logical date already.
    RunExists,
    /// No interval of the graph's timetable has ended.
    NoInterval,
    /// A task instance that would be set back, or whose task would take slots of another pool, has a try without an end; this is the least
    /// serial of such tries.
    InFlight(u64),
    /// No try without an end has this serial.
    NotInFlight(u64),
    /// The try with this serial has begun already, or not yet, or is reported lost.
    OutOfTurn(u64),
    /// The pool is not there, and there are as many pools as the limit (`TooManyPools`).
    PoolFault(PoolFault),
    /// There would be more lanes than the limit.
    LanesTooMany,
    /// There would be more runs than the limit.
    RecordFull,
    /// The graph has runs, and this task, which the text lacks.
    OtherTasks(Name),
    /// The task has tries, and would take another number of slots.
    OtherSlots(Name),
    /// The runs of the graph reach up to this moment, and by the text a tick would make one before it that it would not make by the text
    /// that the graph has.
    Redoes(Moment),
    /// The graph has no run with this logical date.
    UnknownRun,
    /// Memory ran out. This comes at any point before.
    Memory,
}

impl From<AllocError> for Refusal {
    ghost use Rattle.std.specs.Prelude.{◌≡◌};
    ghost use Rattle.sched_events.specs.declared.refusals.Refusal.TheVariants.{Memory};

    ghost from_gives = { λ _ e. e ≡ Memory };

    fn from(_error: AllocError) -> Refusal {
        Refusal::Memory
    }
}

impl From<DagFault> for Refusal {
    ghost use Rattle.std.specs.Prelude.{◌≡◌};
    ghost use Rattle.sched_events.specs.Outcomes.{refusal_of};

    ghost from_gives = { λ fault refusal. refusal ≡ refusal_of fault };

    fn from(fault: DagFault) -> Refusal {
        match fault {
            DagFault::Memory => Refusal::Memory,
            fault => Refusal::DagFault(fault),
        }
    }
}

impl From<PoolFault> for Refusal {
    ghost use Rattle.std.specs.Prelude.{◌≡◌};
    ghost use Rattle.sched_events.specs.Outcomes.{refusal_of_pool};

    ghost from_gives = { λ fault refusal. refusal ≡ refusal_of_pool fault };

    fn from(fault: PoolFault) -> Refusal {
        match fault {
            PoolFault::TooManyPools => Refusal::PoolFault(PoolFault::TooManyPools),
            PoolFault::Memory => Refusal::Memory,
        }
    }
}

impl From<PlanFault> for Refusal {
    ghost use Rattle.std.specs.Prelude.{◌≡◌};
    ghost use Rattle.sched_events.specs.Outcomes.{refusal_of_plan};

    ghost from_gives = { λ fault refusal. refusal ≡ refusal_of_plan fault };

    fn from(fault: PlanFault) -> Refusal {
        match fault {
            PlanFault::RunExists => Refusal::RunExists,
            PlanFault::NoInterval => Refusal::NoInterval,
        }
    }
}

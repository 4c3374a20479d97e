//! Task instances and pools as rows.
use graph_file::Name;
use moment_core::Moment;
use sched_state::RunKind;
use std::marker::Model;
use trigger_rules::State;

/// A task instance, as it is shown.
#[derive(Drop)]
pub struct InstanceRow<'a> {
    /// The graph's id.
    pub graph: &'a Name,
    /// The logical date of its run.
    pub logical: Moment,
    /// How its run came to be.
    pub kind: RunKind,
    /// The task's id.
    pub task: &'a Name,
    pub state: State,
    /// How many tries were handed out to it.
    pub tries: usize,
}

impl<'a> Model for InstanceRow<'a> {
    ghost use Rattle.sched_events.specs.Rows.{Row};

    ghost Value = { Row };

    ghost view = { λ w. record { graph = w.graph.now; logical = w.logical; kind = w.kind; task = w.task.now; state = w.state; tries = w.tries } };
}

/// A pool, as it is shown.
#[derive(Drop)]
pub struct PoolRow<'a> {
    pub name: &'a Name,
    /// How many slots it has.
    pub size: u32,
    /// How many slots the tries without an end take of it.
    pub occupied: u64,
    /// Its size less what is taken: fewer than none where the pool was made smaller than that (Airflow 2, "Pools").
    pub open_slots: i64,
}

impl<'a> Model for PoolRow<'a> {
    ghost use Rattle.sched_events.specs.Rows.{PoolLine};

    ghost Value = { PoolLine };

    ghost view = { λ w. record { name = w.name.now; size = w.size; occupied = w.occupied; open_slots = w.open_slots } };
}

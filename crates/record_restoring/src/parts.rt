//! What a schedule in memory is made of.
use moment_core::Moment;
use pool_book::Pools;
use sched_state::{Limits, LoadedGraph, Run};

/// The parts of a schedule.
#[derive(Drop)]
pub struct ScheduleParts {
    pub limits: Limits,
    /// By id.
    pub graphs: Vec<LoadedGraph>,
    /// By name, with what tries without an end take of each.
    pub pools: Pools,
    /// The last moment that the schedule has seen.
    pub clock: Moment,
    /// The most tries that may be without an end.
    pub lanes: u32,
    /// The serial of the next try.
    pub next: u64,
    /// By graph and logical date.
    pub runs: Vec<Run>,
}

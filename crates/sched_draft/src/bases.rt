//! A schedule that is there.
use moment_core::Moment;
use pool_book::Pools;
use run_lists::Runs;
use sched_state::{Limits, LoadedGraph};
use std::marker::Model;

/// A schedule that is there, by its parts. Its graphs stand in the order of their ids. Its pools are those of a book; what that has of taken
/// slots is not looked at.
///
/// Contracts see the schedule.
#[derive(Drop)]
pub struct Base<'a> {
    pub limits: Limits,
    pub graphs: &'a [LoadedGraph],
    pub pools: &'a Pools,
    pub clock: Moment,
    pub lanes: u32,
    pub next: u64,
    pub runs: &'a Runs,
}

impl<'a> Model for Base<'a> {
    ghost use Rattle.std.specs.Prelude.{◌≡◌, true};
    ghost use Rattle.run_lists.specs.sched_model.Lists.{rises};
    ghost use Rattle.run_lists.specs.sched_model.Schedule.{Schedule, graph_before};
    ghost use Rattle.sched_draft.specs.Books.{pools_in};

    ghost Value = { Schedule };

    ghost view = { λ b. record {
      limits = b.limits;
      graphs = b.graphs.now;
      pools = pools_in b.pools.now.pools;
      now = b.clock;
      lanes = b.lanes;
      next = b.next;
      runs = b.runs.now.runs;
    } };

    ghost invariant = { λ b. rises graph_before b.graphs.now ≡ true };
}

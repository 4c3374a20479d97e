//! Settling a draft: decisions, ends and starts are made until none is possible.
//!
//! Moves are made by stages: one sweep of decisions over the marked runs and those that follow a run in which something was decided,
//! then the ends of the runs that were looked at, then the first start, and again from the run that started. That this leads where the
//! first possible move at each turn leads is a law of `sched_laws`.
//!
//! In comes a draft in which something has changed; after `settle_touched(alloc, &mut draft)?` it is the settled one. Where a move was
//! possible before the change too, `settle` looks at all runs.
#![tactic(auto)]

mod counting;
mod deciding;
mod ending;
mod lines;
mod marking;
mod settling;
mod starting;
mod states;

pub use deciding::upstream_counts;
pub use marking::{settle, settle_touched};
pub use states::state_in;

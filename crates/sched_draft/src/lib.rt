//! The schedule that an event is making, over the schedule that is there: of its runs it holds those alone that are changed or added.
//!
//! A `Draft` is the abstract schedule of `sched_model` with small changes, each exactly one of its definitions: what decides which of
//! them are made, and in which order, stands in the crates above. Contracts see the schedule that is there (`base`), the one that is made
//! of it (`content`), and the positions of the runs that may be changed (`touched`).
//!
//! In comes a schedule by its parts (`Base`, `Draft::over`), out go the edits of its runs (`Draft::into_edits`), the clock, the lanes
//! and the next serial. A change of a run has two steps: `draft.own(alloc, position)?` copies the run, where it isn't the draft's own yet,
//! and `draft.decide(position, place, Verdict::Run)` decides one instance, which cannot fail.
#![tactic(auto)]

mod bases;
mod drafts;
mod finding;
mod graphs;
mod laws;

pub use bases::Base;
pub use drafts::Draft;
pub use finding::{graph_named, position_named};
pub use laws::tries_are_changed_at_one_place;

//! The runs of a schedule, and what an event makes of them without a copy of those that it leaves as they are.
//!
//! [`Runs`] are the runs that a schedule holds, and [`RunRows`] shows them one after another. While an event is planned they stay as they
//! are: an [`Overlay`] shows them with changes, and holds only the runs that are touched, that is changed or added. Its [`Edits`] are
//! written into the runs later, which takes no memory where room was made before. What follows for the runs that were not touched is said
//! in `laws.rt`.
//!
//! In comes a position among all runs: `overlay.own(alloc, position)?`, and then `overlay.set_phase(position, RunPhase::Running)`; or a new
//! run: `overlay.add(run)?`. Out go the positions of the touched runs (`Overlay::touched`) and the edits (`Overlay::into_edits`);
//! `runs.reserve(&edits)?` makes room, and `runs.write(edits)` cannot fail. Easy to get wrong: a run that is added moves those behind it,
//! so a position that was found before may be that of another run; and edits fit the runs that they were made of, and no others.
#![tactic(auto)]

mod edits;
mod laws;
mod ordering;
mod overlays;
mod positions;
mod rows;
mod runs;
mod searches;

pub use edits::{Edit, Edits};
pub use laws::{
    keys_go_by_added_runs, lists_go_by_touched_runs, no_run_is_lost, one_position_more_is_touched,
    other_runs_were_there, sums_go_by_touched_runs, the_order_was_kept,
    the_past_goes_by_touched_runs, the_past_stands_before, touched_runs_stand_at_their_positions,
};
pub use overlays::Overlay;
pub use positions::has_open;
pub use rows::RunRows;
pub use runs::Runs;

//! What comes to a schedule, and what it makes of it: events, why they are refused, what they answer, and the step of each; and how
//! task instances and pools are shown.
//!
//! In comes an event, as `Event::Tick(moment)`; out comes an `Answer`, or a `Refusal` that says why nothing has changed. `refused a e` is the
//! first cause against an event at a schedule, `step e a` the schedule after it, `answer_to e a` its answer.
//!
//! The definitions stand in `specs/`: the causes against an event, its step and its answer. The laws are about them alone. What plans
//! and does events is `sched_core`.
#![tactic(auto)]

mod answers;
mod events;
mod laws;
mod refusals;
mod rows;

pub use answers::{Answer, RunId};
pub use events::Event;
pub use laws::{
    a_marked_task_is_skipped, accepted_events_keep_the_promises,
    another_text_leaves_what_has_finished, backfills_fill_their_span,
    each_serial_is_handed_out_once, lists_of_steps_add_their_runs, lists_of_steps_go_in_parts,
    lists_of_steps_keep_the_schedule, pauses_change_one_graph, repairs_of_nothing_change_nothing,
    resizes_change_one_pool, steps_add_the_named_runs, steps_end_in_hand_outs,
    steps_keep_the_schedule, the_same_text_changes_nothing, tries_go_on,
};
pub use refusals::Refusal;
pub use rows::{InstanceRow, PoolRow};
pub use trigger_rules::State;

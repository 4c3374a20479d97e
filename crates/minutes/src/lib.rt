//! What the minutes of a run say: the events that a director accepted while workers ran its tries, in their order.
//!
//! There are definitions and laws alone, and no code. Of the minutes and of the schedule before them the definitions give the tries that
//! were handed out (`handed_along` of `sched_events`), the answers to the events that lines name (`answered`), what workers reported
//! (`reports_in`), and what one worker did (`of_worker`). Events that lines name are all but reports of workers and restarts.
//!
//! Easy to get wrong: a report in the minutes does not say who told it. That it can be said from the serial alone is a law
//! ([`each_report_is_its_workers_own`]).
#![tactic(auto)]

mod laws;

pub use laws::{
    answered_events_are_those_of_lines, each_report_is_its_workers_own, minutes_grow_by_an_event,
    serials_of_the_minutes_are_handed_out_once,
};

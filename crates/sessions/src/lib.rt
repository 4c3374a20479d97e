//! A director at work: it steps what lines say and what workers report, and hands the jobs of its answers to the workers.
//!
//! A [`Session`] holds the director, the events that it accepted (its minutes), and the one pass that sends jobs and hears reports. Lines
//! come from a [`Lines`], each answered before the next is read, and the moments of `tick now` from a [`Clock`]. Threads are not its
//! business: who calls it starts the workers before and stops them after.
//!
//! ```text
//! session.serve(rt, alloc, 4, &mut lines, &mut clock)   // a restart with 4 lanes, each line, until no try is in flight
//! ```
//!
//! What it did is one list of steps, its history, in contracts alone. What ties it to what was done are the lists and counts of the executor, the count of
//! tries, the minutes, and what the lines and the clock were asked. Jobs are sent, and events told as accepted, only for the token that the record has the event
//! (`Written` of [`director`]).
//!
//! Easy to get wrong: an event that was accepted stands in the minutes even where its answer could not be written, and counts as told to the
//! lines then; who implements them knows whether it was.
#![tactic(auto)]

mod clocks;
mod executors;
mod faults;
mod following;
mod hearing;
mod laws;
mod line_reading;
mod sending;
mod state;
mod steppers;
mod stepping;

pub use clocks::{Clock, ClockFault};
pub use director::{Director, Fault, Limits, Schedule, Store, StoreFault, Written};
pub use faults::ConductFault;
pub use laws::{a_right_history_is_of_its_events, counts_say_how_often};
pub use line_reading::{Line, LineFault, Lines};
pub use state::{Parted, Session};

//! A schedule and its record, stepped together.
//!
//! A [`Director`] holds a schedule in memory and the store of its record. Each event is planned, written in one transaction, and then done in
//! memory, so that the record is never behind an answer that was given. [`Director::write`] gives a [`Written`], which nothing else makes: who asks
//! for one acts only on what the record has. [`open_database`] opens a file over any first contents, for which a type stands that no code can
//! read ([`sqlite::Start`]), and the laws of crashes say what the next start finds. Easy to get wrong: an opening writes, also where it then
//! fails: a record of version 1 is one of version 2 from then on.
#![tactic(auto)]

mod crashes;
mod directors;
mod faults;
mod files;
mod keeping;
mod laws;
mod lists;
mod opening;
mod stepping;
mod written;

pub use crashes::{
    a_database_is_its_trees, the_next_start_finds_before_or_after,
    the_next_start_finds_what_is_there, the_next_start_finds_what_was_closed,
};
pub use directors::Director;
pub use faults::Fault;
pub use files::open_database;
pub use laws::{
    a_record_is_opened_as_it_was_left, an_opening_keeps_the_rows_or_restarts_them,
    answered_events_are_stepped, what_a_run_leaves_is_told_stretch_by_stretch,
};
pub use meta_store::{Cause, Limits, Schedule, Store, StoreFault};
pub use written::Written;

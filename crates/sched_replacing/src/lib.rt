//! What another text makes of a graph's runs, and what in them stands against it (Airflow 2, "DAGs": a file may change while it has runs).
//!
//! Each task instance goes on by the new task of its id, and what has finished stays finished. Easy to get wrong: an instance that failed,
//! and would have tries left by the new task, is set aside, so that no run wakes; and a text that lacks a task is refused before.
//!
//! In come a draft and the graph as it was and as it will be: where `least_moved`, `lost_task` and `resized_task` are none,
//! `refit(alloc, &mut draft, &old, &new)?` gives each run of the graph one instance for each new task, by place. [`reached`] is the moment
//! up to which the graph's runs reach.
#![tactic(auto)]

mod causes;
mod fitting;
mod keeping;

pub use causes::{least_moved, lost_task, reached, resized_task};
pub use fitting::refit;

//! One task instance: what its rule decided, its tries, and the state that follows from them (Airflow 2, "Tasks": task instances).
//!
//! A state is never kept: it is computed from the verdict of the trigger rule and the tries since the last clearing. Easy to get
//! wrong: the tries before a clearing are kept and count for nothing.
//!
//! ```text
//! instance.state(&task)                          // State::Queued
//! instance.report(serial, Stage::Started, now);   // State::Running from here on
//! ```
#![tactic(auto)]

mod dirty;
mod instances;
mod laws;
mod reports;
mod states;
mod tries;

pub use dirty::Dirty;
pub use instances::Instance;
pub use laws::failures_are_tried_again;
pub use reports::ReportFault;
pub use states::past_gate;
pub use tries::{End, Outcome, Stage, Try};

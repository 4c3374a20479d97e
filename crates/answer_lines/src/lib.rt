//! The lines that the program prints: answers, refusals, faults, rows and reasons, byte by byte.
//!
//! [`put`] writes what is [`Shown`] at once, and its contract says the bytes. [`put_listing`] and [`put_reasons`] write the rows
//! of lists with the `ok` at their end. No call allocates; a write that fails is answered as the writer's error, after which nothing is
//! known of what was written.
//!
//! ```text
//! made one scheduled__2024-02-28T00:00:00+00:00
//! cleared 2
//! try 1 one 2024-02-28T00:00:00+00:00 t 1
//! ok
//! one scheduled__2024-02-28T00:00:00+00:00 t queued 1
//! ok
//! default_pool 128 1 127
//! ok
//! refused 8 ClockBack 2024-03-01T00:00:00+00:00
//! usage 1 Words
//! ```
#![tactic(auto)]

mod answers;
mod command_faults;
mod dag_faults;
mod dags;
mod graph_faults;
mod jobs;
mod listing;
mod pools;
mod reasons;
mod record_faults;
mod refusals;
mod run_faults;
mod runs;
mod shown;
mod tasks;

pub use explain::{ExplainFault, explain};
pub use listing::put_listing;
pub use reasons::put_reasons;
pub use sessions::{
    ClockFault, ConductFault, Fault, Line, LineFault, Lines, Schedule, StoreFault, Written,
};
pub use shown::{Shown, put};

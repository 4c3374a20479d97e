//! Operators: what runs the tries. `noop`, `exit` and `command`, and a kit with one of each, which a worker has.
//!
//! An [`Operator`] takes a job up (`begin`), performs it, and gives it up (`finish`); it keeps, for each try that it performed, the serial
//! with the outcome, and contracts see the whole job beside it. In: `let kit = Kit::new(operators)?`, then `kit.begin(&job)?`, `let outcome = kit.perform(&job)` and
//! `kit.finish(job.action.operator())`. Out: the outcome, which is reported, and `kit.runs(kind)`.
//!
//! [`Program`], the operator of `command`, starts real programs with real folders. What it does to the system no contract can say: which
//! program it starts with which arguments is said of [`command_of`], where its log lies of [`log_path_of`], what a status means of
//! [`outcome_of_code`], and the rest is shown by the program `worked_workers`. Easy to get wrong: an operator that is dropped between `begin` and `finish` gives the job up.
#![tactic(auto)]

mod boxed;
mod commands;
mod exit;
mod folders;
mod kits;
mod laws;
mod logs;
mod noop;
mod operators;
mod programs;
mod progress;
mod tries;
mod variables;

pub use boxed::BoxedOperator;
pub use commands::{command_of, outcome_of_code};
pub use exit::Exit;
pub use graph_file::Operator as Kind;
pub use kits::Kit;
pub use laws::{each_try_has_a_log_of_its_own, each_try_of_exit_has_a_status};
pub use logs::log_path_of;
pub use noop::Noop;
pub use operators::{BeginFault, Operator};
pub use programs::Program;
pub use progress::Progress;

//! The command line of the program, as clap builds it: one command, with a command under it for each thing that can be asked.
//!
//! [`command`] builds it, and its contract says what it is as data: which words each command takes, which options, which ranges and
//! defaults. The texts of its help are no part of that, and no contract speaks of them.
//!
//! ```text
//! let command = word_app::command(alloc, ["dags", "runs", "tasks", "pools"].as_slice())?;
//! let matches = command.try_get_matches_from(words)?;
//! ```
#![tactic(auto)]

mod adding;
mod commands;
mod program;
mod repairs;
mod rules;

pub use program::command;

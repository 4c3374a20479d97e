//! Commands that stand outside of scripts, each on a record of its own: an event, rows, or why a task instance stands where it does.
//!
//! ```text
//! let Answered { store, status, told } = run_command(alloc, store, &command, &mut output, &mut console);
//! ```
//!
//! Easy to get wrong: an event opens the record without lanes, as a restart of the scheduler does: tries without an end are lost, and none is handed
//! out; and a record of version 1 is one of version 2 from then on. Rows and reasons change nothing.
#![tactic(auto)]

mod commands;
mod doing;
mod telling;

pub use commands::{Answered, run_command};

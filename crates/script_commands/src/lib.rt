//! The commands of a script: what its lines ask for, in order, and the lines of a reader.
//!
//! A script is read line by line. [`next_command`] reads the next command of an input: a line of its own, whose words `command_words` reads, or a
//! graph's text that stands between `load inline` or `replace inline` and a line that is `.` alone. A line that is no command is answered by its fault, and reading goes
//! on after it. A [`LineReader`] reads lines in bounded memory; a line's words and the text of a graph want more.
//!
//! ```text
//! # the nightly load
//! load graphs/hourly.toml
//! load inline
//! dag_id = "nightly"
//! ..
//! .
//! tick 2024-01-02
//! trigger nightly
//! backfill nightly 2023-12-25 2023-12-31 --reset
//! clear nightly 2024-01-01 2024-01-01 --task load --downstream
//! pause nightly
//! list runs
//! explain nightly 2024-01-01 load
//! list tasks
//! resize bulk 4
//! list pools
//! tick now
//! drain
//! replace graphs/hourly.toml
//! ```
#![tactic(auto)]

mod bytes;
mod commands;
mod graph_texts;
mod laws;
mod lines;
mod meanings;
mod requests;

pub use commands::{CommandFault, ScriptCommand, SourceFault};
pub use laws::the_limit_is_that_of_the_definitions;
pub use lines::{Found, LINE_LIMIT, LineReader};
pub use requests::next_command;

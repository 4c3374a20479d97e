//! The words of a command, of the program's command line and of a script's lines, and what they ask for.
//!
//! clap reads the words, by the command that `word_app` builds; this crate makes a [`CommandLine`] of what clap found, or a [`UsageFault`].
//! `line_of` of `specs/Lines.antt` says what words ask for, as a function of the words alone, and reading gives exactly that.
//!
//! ```text
//! match read_command(alloc, words) {
//!     Ok(line) => perform(line.record_path, line.command),
//!     Err(fault) => refuse(fault, refusal_text(alloc, words)),
//! }
//! ```
//!
//! Easy to get wrong: the words stand without the program's name before them, and whether a command may stand where it does (`run` inside
//! of a script, `tick` outside of one) is for the caller to say.
#![tactic(auto)]

mod commands;
mod kinds;
mod laws;
mod lines;
mod paths;
mod readers;
mod readings;
mod takings;
mod values;

pub use commands::{
    Command, CommandLine, GraphSource, Listing, Question, ScriptOptions, TickTime, UsageFault,
};
pub use laws::{words_ask_for_no_report, words_come_from_clap};
pub use paths::FilePath;
pub use readers::{help_text, read_command, refusal_text};
pub use takings::Taking;

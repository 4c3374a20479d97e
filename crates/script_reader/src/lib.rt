//! A script as the lines of a session: commands are read one by one, and each is answered before the next is read.
//!
//! A [`ScriptReader`] is one that reads the commands of an input, and one that puts their answers. What asks for rows is answered when it is read, and what is no
//! command by its fault; an event, a tick at the moment that it is and a drain are left to whoever runs the schedule, by the calls of `Lines`. What
//! was written is flushed before the next command is read. The texts of `load PATH` and `replace PATH` come from [`Sources`]; what a person is told
//! beside the answers goes to a [`Console`].
//!
//! ```text
//! let script = Script { input, output, sources, console: NoConsole };
//! let Ok(mut reader) = ScriptReader::new(alloc, script) else { return };
//! conduct(rt, alloc, director, 4, crews, &mut reader, &mut clock)
//! ```
//!
//! `close` ends a script that was run, and says whether all that was put is written.
//!
//! Easy to get wrong: a drain is not answered when it is read, but by `drained`, once no try is in flight.
#![tactic(auto)]

mod answering;
mod answers;
mod commands;
mod console;
mod doing;
mod ending;
mod reader;
mod scripts;
mod sources;
mod statuses;

pub use answer_lines::{
    ClockFault, ConductFault, ExplainFault, Fault, Schedule, Shown, StoreFault, explain, put,
    put_listing, put_reasons,
};
pub use console::{Console, NoConsole, Spot};
pub use ending::Closed;
pub use reader::ScriptReader;
pub use scripts::Script;
pub use sources::Sources;
pub use statuses::{command_status, explain_status, failure_status};

//! Scripts that are run: commands change a schedule and its record, workers perform the tries, and each command is answered by its lines.
//!
//! [`run_on`] opens a record and runs a script on it. In: a record, lanes, crews, the script with where its answers go, and a clock. Out: the record, a status, the events that were accepted and what became of the crews. An accepted event is
//! stepped in the record and in memory, a refused one changes nothing, and what is no command is answered by its fault; the script goes on after each.
//!
//! ```text
//! let ran = run_on(rt, alloc, store, RunOptions { lanes: 4, keep: Keep::All }, crews, script, &mut clock)?;
//! ```
//!
//! Beside it stands what the program runs scripts with: the system's clock, files by their paths, and teams of operators ([`run_team`]). What the system's clock says and what stands in a file is the system's: nothing is proved of it but that a reading of the
//! clock becomes the second in which it lies, or is out of range, and that each answer is a moment, a text or a fault.
//!
//! ```text
//! let team = operators_for(*rt, alloc, 4, "dagsched-scratch", None)?;
//! let script = Script { input, output, sources: FileSources::new(*rt, alloc), console };
//! let ran = run_team(rt, alloc, store, RunOptions { lanes: 4, keep: Keep::Nothing }, team, script, &mut SystemClock::new(*rt))?;
//! ```
//!
//! Easy to get wrong: the minutes have the workers' reports too, so they are more than the script's own events.
#![tactic(auto)]

mod file_sources;
mod running;
mod system_clock;
mod task_operators;
mod teams;

pub use conduct::{Keep, Kept};
pub use file_sources::FileSources;
pub use running::{Ran, RunOptions, Unopened, run_on};
pub use system_clock::SystemClock;
pub use task_operators::{TaskOperator, operators_for};
pub use teams::run_team;

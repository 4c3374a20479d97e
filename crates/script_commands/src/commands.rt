//! What a script asks for, and why a line is no command.
use command_words::{FilePath, Listing, Question, Taking, UsageFault};
use sched_events::Event;

/// What a script asks for.
#[derive(Debug, Drop)]
pub enum ScriptCommand {
    /// An event for the schedule: `load inline` or `replace inline` with its text, `tick MOMENT`, `trigger`, `backfill`, `clear`, `mark`, `pause`,
    /// `unpause` or `resize`.
    Step(Event),
    /// `load PATH` or `replace PATH`: the graph file at this path is taken in.
    TakeFile(Taking, FilePath),
    /// `tick now`: a tick at the moment that it is.
    TickNow,
    /// `drain`: waits until no try is in flight.
    Drain,
    /// `list`: rows are shown.
    List(Listing),
    /// `explain`: it is said why a task instance stands where it does.
    Explain(Question),
}

/// Why there is no text of a graph.
#[derive(Clone, Copy, Debug, PartialEq, Eq)]
pub enum SourceFault {
    /// The file cannot be read: it is not there, may not be read, or is a folder.
    Unreadable,
    /// The file is not UTF-8.
    NotText,
    /// The file has more than 1,048,576 bytes.
    TooLong,
    /// There was no memory for the text.
    Memory,
    /// The script ends before the `.` that ends the text.
    NoEnd,
}

/// Why there is no command where a script has one.
#[derive(Clone, Copy, Debug, PartialEq, Eq)]
pub enum CommandFault {
    Usage(UsageFault),
    Source(SourceFault),
}

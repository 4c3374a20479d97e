//! Why a text is no graph.
use cron_timetable::CronFault;
use thiserror::Error;

/// Where a fault stands.
#[derive(Clone, Copy, Debug, PartialEq, Eq)]
pub enum Place {
    /// At the top of the file.
    Top,
    /// In the task of this number, from 0, in the order of the file.
    Task(u32),
}

/// Why a text is no graph. Where several hold, the first in this order is answered, at its first place: the top before
/// the tasks, and the tasks in the order of the file. A text that is too long is `TooMany` before all others.
#[derive(Clone, Copy, Debug, PartialEq, Eq, Error)]
pub enum GraphFault {
    /// The text is no TOML.
    #[error("the text is no TOML")]
    NotToml,
    /// A key that no graph or no task has.
    #[error("an unknown key, at {0:?}")]
    UnknownKey(Place),
    /// A value of another type than its key's. A TOML date is no string, and an array has the type of all its items.
    #[error("a value of the wrong type, at {0:?}")]
    WrongType(Place),
    /// A required key is absent.
    #[error("a required key is missing, at {0:?}")]
    MissingKey(Place),
    /// A text that should be a name and is none.
    #[error("a text is no name, at {0:?}")]
    BadName(Place),
    /// Any other value that its key does not take.
    #[error("a value is out of range, at {0:?}")]
    BadValue(Place),
    /// The schedule is neither `None` nor `@once`, and no cron text.
    #[error("the schedule is refused: {0:?}")]
    Cron(CronFault),
    /// The graph has no task.
    #[error("the graph has no task")]
    NoTask,
    /// The text is too long, or has too many tasks, or these have too many upstream names in all.
    #[error("the file is too large")]
    TooMany,
    /// Memory ran out.
    #[error("out of memory")]
    Memory,
}

//! Tries: the executions of a task instance by workers.
use graph_file::Bounded;
use moment_core::Moment;

/// How a try ended.
#[derive(Clone, Copy, Debug, PartialEq, Eq)]
pub enum Outcome {
    Success,
    /// The task asked to be skipped.
    Skipped,
    Failed,
    /// The scheduler was restarted while the try had no end, so nobody knows.
    Lost,
}

/// What a worker reports of a try.
#[derive(Clone, Copy, Debug, PartialEq, Eq)]
pub enum Stage {
    /// It has begun.
    Started,
    /// It has ended so.
    Ended(Outcome),
}

/// The end of a try.
#[derive(Clone, Copy, Debug, PartialEq, Eq)]
pub struct End {
    pub moment: Moment,
    pub outcome: Outcome,
}

/// One execution of a task instance by a worker. It is open as long as it has no end.
#[derive(Clone, Copy, Debug, PartialEq, Eq)]
pub struct Try {
    /// Its number among all tries that were handed out.
    pub serial: u64,
    /// How many slots of its task's pool it takes while it is open.
    pub slots: Bounded<1, 1_000>,
    /// When it began, if it has.
    pub started: Option<Moment>,
    /// Its end, if it has ended.
    pub ended: Option<End>,
}

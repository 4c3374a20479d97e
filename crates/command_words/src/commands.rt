//! What words ask for, and why words ask for nothing.
use crate::paths::FilePath;
use crate::takings::Taking;
use graph_file::{Bounded, Name};
use moment_core::{Moment, MomentFault};
use sched_events::Event;
use thiserror::Error;

/// Why words are no command. The variants stand in the order of their numbers, from 1.
#[derive(Clone, Copy, Debug, PartialEq, Eq, Error)]
pub enum UsageFault {
    /// There is no such command, or it has too few words, too many or others, an option that it has not, an option twice, or a number out of
    /// its range. A request for help is such words too.
    #[error("the words are no command")]
    Words,
    /// A word that should be the name of a graph, a task or a pool is no name.
    #[error("a word is no name")]
    BadName,
    /// A word that should be a moment is none.
    #[error("a word is no moment: {0}")]
    BadMoment(MomentFault),
    /// The command stands where it has no meaning: one of scripts outside of a script, or `run` or `--record` inside of one.
    #[error("the command has no meaning here")]
    NotHere,
    /// The line is longer than 65,536 bytes or is not UTF-8.
    #[error("the line is too long or no text")]
    BadLine,
    /// The word that should be the state of a mark is not `skipped`.
    #[error("a task instance cannot be marked so")]
    BadState,
    /// Memory ran out.
    #[error("out of memory")]
    Memory,
}

/// What `list` prints.
#[derive(Clone, Copy, Debug, PartialEq, Eq)]
pub enum Listing {
    /// The graphs, by id.
    Dags,
    /// The runs, by graph id and logical date.
    Runs,
    /// The task instances, by graph id, logical date and task id.
    Tasks,
    /// The pools, by name.
    Pools,
}

/// Where a graph's text is.
#[derive(Debug, Drop)]
pub enum GraphSource {
    /// In the file at this path.
    File(FilePath),
    /// In the lines of the script that follow, up to one that is `.` alone.
    Inline,
}

/// The moment of a tick.
#[derive(Clone, Copy, Debug, PartialEq, Eq)]
pub enum TickTime {
    /// The one that the word gives.
    At(Moment),
    /// The one that it is.
    Now,
}

/// How a script is run.
#[derive(Debug, Drop)]
pub struct ScriptOptions {
    /// The number of workers, 2 where no word says it.
    pub workers: Bounded<1, 16>,
    /// The most tries in flight, 4 where no word says it.
    pub lanes: Bounded<0, 64>,
    /// The folder under which each try of a program has its own, `dagsched-scratch` where no word says it.
    pub scratch: FilePath,
    /// The folder of the logs of the tries of programs; what they write is lost where no word says it.
    pub logs: Option<FilePath>,
}

/// A task instance, as the words `DAG LOGICAL TASK` name it.
#[derive(Debug, Drop)]
pub struct Question {
    /// The graph's id.
    pub graph: Name,
    /// The run's logical date.
    pub logical: Moment,
    /// The task's id.
    pub task: Name,
}

/// What words ask for.
#[derive(Debug, Drop)]
pub enum Command {
    /// `run`: a script is read from standard input.
    Run(ScriptOptions),
    /// `list`: rows are printed.
    List(Listing),
    /// `explain`: it is said why a task instance stands where it does.
    Explain(Question),
    /// An event for the schedule: `trigger`, `backfill`, `clear`, `mark`, `pause`, `unpause` or `resize`.
    Step(Event),
    /// `load` or `replace`, in a script: a graph file is taken in.
    Take(Taking, GraphSource),
    /// `tick`, in a script: the clock has reached a moment.
    Tick(TickTime),
    /// `drain`, in a script: waits until no try is in flight.
    Drain,
}

/// A command, and the options before it.
#[derive(Debug, Drop)]
pub struct CommandLine {
    /// The file of the record, where `--record` names one.
    pub record_path: Option<FilePath>,
    /// The command.
    pub command: Command,
}

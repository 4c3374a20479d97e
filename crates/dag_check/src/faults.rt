//! Why a file has no graph.
use graph_file::{Name, Sequence};

/// Why a file has no graph. Where several hold, the first in this order is answered, at the first task at which it shows.
/// Positions count from 0, in the order of the file.
#[derive(Debug, Drop)]
pub enum DagFault {
    /// The task at this position has the name of an earlier one.
    DoubleTask(u32),
    /// The task at this position has an upstream that is no task.
    UnknownUpstream(u32),
    /// The task at this position has an upstream twice.
    DoubleEdge(u32),
    /// These tasks are a cycle: each is an upstream of the next, and the last of the first. They are distinct, and the first
    /// of them in the file comes first. A task that is its own upstream is a cycle of one.
    Cycle(Sequence<Name>),
    /// Memory ran out.
    Memory,
}

//! A task as a graph file has it.
use crate::{Action, Bounded, Name, Rule, Sequence, WeightRule};

/// A task, in the words of Airflow 2's `BaseOperator`.
#[derive(Debug, Drop)]
pub struct TaskSpec {
    /// Its name in the graph.
    pub task_id: Name,
    /// What it does.
    pub action: Action,
    /// The names of the tasks that come right before it, in the order of the file. Nothing is said of whether there are such
    /// tasks, or whether a name comes twice.
    pub upstream: Sequence<Name>,
    /// When it runs, by the states of those.
    pub trigger_rule: Rule,
    /// How many tries it has beyond the first.
    pub retries: Bounded<0, 1_000>,
    /// How long a further try waits, in seconds.
    pub retry_delay: Bounded<0, 31_536_000>,
    /// The pool whose slots its tries take.
    pub pool: Name,
    /// How many slots of the pool one of its tries takes.
    pub pool_slots: Bounded<1, 1_000>,
    /// Its own weight.
    pub priority_weight: Bounded<0, 1_000_000>,
    /// Whose weights are summed into its own.
    pub weight_rule: WeightRule,
    /// Whether it waits for the same task in the run before.
    pub depends_on_past: bool,
}

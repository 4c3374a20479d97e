//! The order in which what is ready is handed out.
ghost use Rattle.std.specs.Prelude.{◌≡◌};
ghost use Rattle.pool_book.specs.Ranks.{rank_cmp};

use graph_file::Name;
use moment_core::Moment;
use std::cmp::Ordering;
use std::marker::Model;

/// What a task instance ranks by among those that could be handed out.
#[derive(Drop)]
pub struct Rank<'a> {
    /// Its effective weight.
    pub weight: u64,
    /// The logical date of its run.
    pub logical: Moment,
    /// The id of its graph.
    pub graph: &'a Name,
    /// The id of its task.
    pub task: &'a Name,
}

impl<'a> Model for Rank<'a> {
    ghost use Rattle.pool_book.specs.Ranks.{RankParts};

    ghost Value = { RankParts };

    ghost view = { λ r. record {
      weight = r.weight;
      logical = r.logical;
      graph = r.graph.now;
      task = r.task.now;
    } };
}

impl<'a> Rank<'a> {
    /// The greater weight is first, then the earlier logical date, then the lesser id of the graph, then that of the task, both by
    /// bytes (Airflow 2, "Priority Weights"; what comes after the weight is this project's own).
    pub fn compare(&self, other: &Rank<'_>) -> Ordering
        ensures { result ≡ rank_cmp self.now other.now }
    {
        other
            .weight
            .cmp(&self.weight)
            .then(self.logical.cmp(&other.logical))
            .then(self.graph.cmp(other.graph))
            .then(self.task.cmp(other.task))
    }
}

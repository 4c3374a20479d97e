//! The effective weights of a graph, as a hand-out needs them.
ghost use Rattle.std.specs.Prelude.{IfOk};
ghost use Rattle.sched_ready.specs.Held.{WeighTasks};

use dag_check::Graph;
use priority_weights::effective;
use std::alloc::{AllocError, Global};

/// The effective weights of a graph's tasks, by place.
pub fn weigh_tasks(alloc: Global, dag: &Graph) -> Result<Vec<u64>, AllocError>
    ensures { IfOk result (λ weights. WeighTasks dag.now weights.items) }
{
    let _count = dag.len();
    effective(alloc, dag)
}

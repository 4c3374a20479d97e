//! The sum of the weights over a task and what it reaches.
ghost use Rattle.std.specs.Prelude.{◌≡◌, ◌<◌, ◌≤◌, ◌+◌, ◌*◌, ℕ, true, IfOk, length, sum_by};
ghost use Rattle.graph_file.specs.TaskLists.{task_limit};
ghost use Rattle.dag_check.specs.Orders.{is_in};
ghost use Rattle.priority_weights.specs.Weights.{own_weight, IsWeight, AreWeights};

use dag_check::{Direction, Graph};
use graph_file::WeightRule;
use std::alloc::{AllocError, Global};

/// The effective weights of a graph's tasks, by place.
pub fn effective(alloc: Global, graph: &Graph) -> Result<Vec<u64>, AllocError>
    ensures { IfOk result (λ v. AreWeights graph.now v.items) }
{
    let count = graph.len();
    let mut weights = Vec::with_capacity(alloc, count)?;
    for place in 0..count {
        let weight = weight_of(alloc, graph, place)?;
        weights.push(weight)?;
    }
    Ok(weights)
}

// The effective weight of a place.
fn weight_of(alloc: Global, graph: &Graph, place: usize) -> Result<u64, AllocError>
    requires { place < length graph.now.tasks }
    ensures { IfOk result (IsWeight graph.now place) }
{
    let _count = graph.len();
    let direction = match graph.task(place).weight_rule {
        WeightRule::Absolute => return Ok(own(graph, place)),
        WeightRule::Downstream => Direction::Downstream,
        WeightRule::Upstream => Direction::Upstream,
    };
    let places = graph.reach(alloc, place, direction)?;
    Ok(total(graph, place, &places))
}

// The weight of a place with those of others.
fn total(graph: &Graph, place: usize, places: &[usize]) -> u64
    requires place_in { place < length graph.now.tasks }
    requires places_in { (y : ℕ) → is_in places.now y ≡ true → y < length graph.now.tasks }
    requires few { length places.now ≤ task_limit }
    ensures { result ≡ own_weight graph.now place + sum_by (own_weight graph.now) places.now }
{
    let mut total = own(graph, place);
    for other in places {
        let weight = own(graph, *other);
        total += weight;
    }
    total
}

// The own weight of a place.
fn own(graph: &Graph, place: usize) -> u64
    requires { place < length graph.now.tasks }
    ensures weight { result ≡ own_weight graph.now place }
    ensures light { result ≤ 1000000 }
{
    u64::from(graph.task(place).priority_weight.get())
}

//! The order of graphs.
ghost use Rattle.std.specs.Prelude.{◌≡◌};
ghost use Rattle.sched_model.specs.Schedule.{graph_before};
ghost use Rattle.sched_core.specs.Inside.{IsPlaceFor};

use sched_state::LoadedGraph;

// Graphs stand by id.
fn graph_before(graph: &LoadedGraph, other: &LoadedGraph) -> bool
    ensures { result ≡ graph_before graph.now other.now }
{
    graph.dag.spec().dag_id < other.dag.spec().dag_id
}

// The place of the first graph that this one stands before.
pub(crate) fn place_for_graph(graphs: &[LoadedGraph], graph: &LoadedGraph) -> usize
    ensures { IsPlaceFor graph_before graph.now graphs.now result }
{
    for (place, other) in graphs.iter().enumerate() {
        if graph_before(graph, other) {
            return place;
        }
    }
    graphs.len()
}

//! Pausing a graph, and letting it go on.
ghost use Rattle.std.specs.Prelude.{◌≡◌, map};
ghost use Rattle.sched_model.specs.Changes.{pause_graph};

use graph_file::Name;
use sched_state::LoadedGraph;

// The graph is paused, or no more, if it has this id.
fn set_paused_if(graph: &mut LoadedGraph, id: &Name, paused: bool)
    ensures { graph.new ≡ pause_graph id.now paused graph.old }
{
    if graph.dag.spec().dag_id == *id {
        graph.paused = paused;
    }
}

// The graph with this id is paused, or no more.
pub(crate) fn set_paused(graphs: &mut Vec<LoadedGraph>, id: &Name, paused: bool)
    ensures { graphs.new.items ≡ map (pause_graph id.now paused) graphs.old.items }
{
    for place in 0..graphs.len() {
        set_paused_if(&mut graphs[place], id, paused);
    }
}

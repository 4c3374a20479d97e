//! What a text makes of a graph, with the most of its tries that may be without an end.
ghost use Rattle.std.specs.Prelude.{◌≡◌, true};
ghost use Rattle.sched_model.specs.Schedule as schedule;
ghost use Rattle.sched_model.specs.Changes.{new_graph, taken_in, with_text};
ghost use Rattle.sched_model.specs.Lists.{rises};
ghost use Rattle.sched_model.specs.Schedule.{graph_among, graph_before};
ghost use Rattle.sched_core.specs.Inside.{taken_among};

use dag_check::Graph;
use graph_file::{Bounded, GraphSpec};
use record_restoring::USUAL_BOUND;
use sched_draft::graph_named;
use sched_state::{GraphText, LoadedGraph};

/// The bound that a file says, or the usual one (Airflow 2, the class DAG: max_active_tasks).
pub(crate) fn bound_said(spec: &GraphSpec) -> Bounded<1, 1_000_000>
    ensures { result ≡ schedule.bound_said spec.now }
{
    match spec.max_active_tasks {
        Some(bound) => bound,
        None => Bounded::new(USUAL_BOUND),
    }
}

/// The graph that a text says, which is not paused.
pub(crate) fn new_graph(text: GraphText, dag: Graph) -> LoadedGraph
    ensures { result ≡ new_graph text dag }
{
    let max_active_tasks = bound_said(dag.spec());
    LoadedGraph {
        text,
        dag,
        paused: false,
        max_active_tasks,
    }
}

/// A graph takes another text in, with what it says and its bound. Its pause stays.
pub(crate) fn take_text(graph: &mut LoadedGraph, text: GraphText, dag: Graph)
    ensures { graph.new ≡ taken_in text dag graph.old }
{
    graph.max_active_tasks = bound_said(dag.spec());
    graph.text = text;
    graph.dag = dag;
}

/// The bound of the graph that takes a text in, or of the new graph that it says: its own, where that is the text that it has already.
pub(crate) fn bound_after(graphs: &[LoadedGraph], text: &GraphText, dag: &Graph) -> u32
    requires { rises graph_before graphs.now ≡ true }
    ensures { result ≡ (taken_among text.now dag.now
        (graph_among graphs.now dag.now.spec.dag_id)).max_active_tasks }
{
    let id = &dag.spec().dag_id;
    match graph_named(graphs, id) {
        Some(graph) => bound_with(graph, text, dag),
        None => bound_said(dag.spec()).get(),
    }
}

// The bound of a graph after a text was taken in.
fn bound_with(graph: &LoadedGraph, text: &GraphText, dag: &Graph) -> u32
    ensures { result ≡ (with_text text.now dag.now graph.now).max_active_tasks }
{
    if graph.text.is_same(text) {
        graph.max_active_tasks.get()
    } else {
        bound_said(dag.spec()).get()
    }
}

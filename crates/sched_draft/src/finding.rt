//! Finding a graph by its id, among graphs in the order of their ids.
ghost use Rattle.std.specs.Prelude.{◌≡◌, ◌<◌, true, length, IfSome, option_and_then, slice_get};
ghost use Rattle.std.specs.Option.{option_copied};
ghost use Rattle.run_lists.specs.sched_model.Lists.{rises};
ghost use Rattle.run_lists.specs.sched_model.Schedule.{graph_before, graph_among};

use graph_file::Name;
use sched_state::LoadedGraph;

/// The position of the graph with this id, by a binary search.
pub fn position_named(graphs: &[LoadedGraph], id: &Name) -> Option<usize>
    requires { rises graph_before graphs.now ≡ true }
    ensures position { option_and_then (slice_get graphs.now) result
        ≡ graph_among graphs.now id.now }
    ensures within { IfSome result (λ position. position < length graphs.now) }
{
    match graphs.binary_search_by(|graph| graph.dag.spec().dag_id.cmp(id)) {
        Ok(position) => Some(position),
        Err(_) => None,
    }
}

/// The graph with this id, by a binary search.
pub fn graph_named<'a>(graphs: &'a [LoadedGraph], id: &Name) -> Option<&'a LoadedGraph>
    requires { rises graph_before graphs.now ≡ true }
    ensures { option_copied result ≡ graph_among graphs.now id.now }
{
    let position = position_named(graphs, id)?;
    Some(&graphs[position])
}

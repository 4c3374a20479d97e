//! Looking up graphs.
ghost use Rattle.std.specs.Prelude.{◌≡◌, true};
ghost use Rattle.sched_model.specs.Lists.{rises};
ghost use Rattle.sched_model.specs.Schedule.{graph_before};
ghost use Rattle.sched_core.specs.Inside.{IsPlaceOf};

use graph_file::Name;
use sched_draft::position_named;
use sched_state::LoadedGraph;

// The place of the graph with this id, by a binary search.
pub(crate) fn position_of(graphs: &[LoadedGraph], id: &Name) -> Option<usize>
    requires { rises graph_before graphs.now ≡ true }
    ensures { IsPlaceOf id.now graphs.now result }
{
    position_named(graphs, id)
}

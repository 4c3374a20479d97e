//! Where the first in rank of what stands on shelves may be. Nothing hangs on it but time.
ghost use Rattle.std.specs.Prelude.{◌≡◌, ◌<◌, length, IfSome};

use sched_draft::Draft;
use sched_ready::{First, Shelf};

// A graph, by its position, and what leads there.
#[derive(Clone, Copy, Debug, PartialEq, Eq)]
struct Likely {
    graph: usize,
    first: First,
}

// Whether what this bound leads may rank before what was found, by weight and date.
fn may_lead(first: &First, likely: &Option<Likely>) -> bool {
    match likely {
        None => true,
        Some(likely) => likely.first.is_behind(first.weight, first.logical),
    }
}

/// The graph that seems to have the first in rank, by the bounds of the shelves of graphs that are not paused.
pub(crate) fn likely_graph(draft: &Draft<'_>, shelves: &[Shelf]) -> Option<usize>
    requires { length shelves.now ≡ length draft.now.content.graphs }
    ensures { IfSome result (λ graph. graph < length shelves.now) }
{
    let mut likely = None;
    for graph in 0..shelves.len() {
        if let Some(first) = shelves[graph].least() {
            if may_lead(&first, &likely) && !draft.is_paused_at(graph) {
                likely = Some(Likely { graph, first });
            }
        }
    }
    match likely {
        None => None,
        Some(likely) => Some(likely.graph),
    }
}

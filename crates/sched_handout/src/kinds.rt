//! The best of what stands on shelves, one kind of task after another.
ghost use Rattle.std.specs.Prelude.{◌≡◌, ◌^◌, ◌<◌, ◌||◌, Bool, true, length, nat_lt, slice_get, IfSome, Some};
ghost use Rattle.dag_check.specs.Graphs.{Dag, task_of};
ghost use Rattle.sched_model.specs.Handout as model;
ghost use Rattle.sched_model.specs.Schedule.{bound_of};
ghost use Rattle.sched_model.specs.States.{active_tries};
ghost use Rattle.sched_model.specs.Sound.{IsSound};
ghost use Rattle.sched_state.specs.declared.graphs.LoadedGraph as states;
ghost use Rattle.sched_ready.specs.Held.{FitShelves, FitsShelf};
ghost use Rattle.sched_handout.specs.Occupied.{AreOccupied};
ghost use Rattle.sched_handout.specs.Shelving.{IsBestOf, IsLoaded, IsBoundAt, fits_with, is_ahead, is_first_behind, stands_at, stands_of, stands_on_first, stands_there};

use crate::fitting::{has_lane, has_slots};
use crate::guessing::likely_graph;
use crate::occupied::Occupied;
use crate::rooms::has_room;
use crate::shelving::{Best, choose_at_place};
use dag_check::Graph;
use sched_draft::Draft;
use sched_ready::{First, Shelf};

// Whether what was chosen ranks before all that the bound leads, of the graph at the position.
fn is_first_behind(first: &Option<First>, graph: usize, best: &Option<Best<'_>>) -> bool
    ensures { result ≡ is_first_behind first.now graph best.now }
{
    let Some(first) = first else {
        return true;
    };
    let Some(best) = best else {
        return false;
    };
    let offer = &best.offer;
    first.weight < offer.weight
        || (first.weight == offer.weight
            && (offer.logical < first.logical
                || (offer.logical == first.logical && best.graph < graph)))
}

// Whether no moment has come.
fn is_ahead(now: u64, soonest: Option<u64>) -> bool
    ensures { result ≡ is_ahead now soonest }
{
    match soonest {
        None => true,
        Some(moment) => now < moment,
    }
}

// Whether the graph, which stands at this position, may have one more try.
fn may_have_more(draft: &Draft<'_>, taken: &Occupied, graph: usize, dag: &Graph) -> bool
    requires taken { AreOccupied draft.now.content taken.now }
    requires few { taken.now.in_flight < 2 ^ 32 }
    requires graph { IsBoundAt draft.now.content graph dag.now }
    ensures { result ≡ nat_lt (active_tries draft.now.content dag.now.spec.dag_id) (bound_of draft.now.content dag.now.spec.dag_id) }
{
    has_room(draft, taken, graph)
}

// Whether offers of the task at a place fit, of the graph at a position.
fn fits_task(draft: &Draft<'_>, taken: &Occupied, graph: usize, dag: &Graph, place: usize) -> bool
    requires taken { AreOccupied draft.now.content taken.now }
    requires few { taken.now.in_flight < 2 ^ 32 }
    requires graph { IsBoundAt draft.now.content graph dag.now }
    requires place { place < length dag.now.tasks }
    ensures { result ≡ fits_with draft.now.content dag.now.spec.dag_id (task_of dag.now place).pool (task_of dag.now place).pool_slots }
{
    let task = dag.task(place);
    has_slots(taken, &task.pool, task.pool_slots)
        && has_lane(draft, taken)
        && may_have_more(draft, taken, graph, dag)
}

// The best of what stands on the shelf of a graph and is of a kind, and of what was chosen before it.
fn choose_in_kind<'d>(
    draft: &'d Draft<'_>,
    taken: &Occupied,
    graph: usize,
    dag: &'d Graph,
    shelf: &Shelf,
    kind: usize,
    best: Option<Best<'d>>,
) -> Option<Best<'d>>
    requires sound { IsSound draft.now.content }
    requires taken { AreOccupied draft.now.content taken.now }
    requires few { taken.now.in_flight < 2 ^ 32 }
    requires dag { IsLoaded draft.now.content graph dag.now shelf.now.weights }
    requires shelf { FitsShelf dag.now shelf.now }
    requires kind { kind < length shelf.now.samples }
    ensures { (P : model.Offer → Bool) → IsBestOf P draft.now.content best.entry
        → IsBestOf (λ x. P x || stands_of draft.now.content.now dag.now.spec.dag_id shelf.now kind x) draft.now.content result }
{
    if is_first_behind(&shelf.first(kind), graph, &best) {
        if is_ahead(draft.clock().secs(), shelf.soonest()) {
            return best;
        }
    }
    if !fits_task(draft, taken, graph, dag, shelf.sample(kind)) {
        return best;
    }
    let mut best = best;
    for place in 0..shelf.len() {
        if shelf.kind(place) == kind {
            best = choose_at_place(
                draft,
                graph,
                dag,
                shelf.weights(),
                place,
                shelf.queue(place),
                best,
            );
        }
    }
    best
}

// The best of what stands on the shelf of the graph at a position, and of what was chosen before it. The graph is looked at only where what
// was chosen does not rank before all of that.
fn choose_on_shelf<'d>(
    draft: &'d Draft<'_>,
    taken: &Occupied,
    graph: usize,
    shelf: &Shelf,
    best: Option<Best<'d>>,
) -> Option<Best<'d>>
    requires sound { IsSound draft.now.content }
    requires taken { AreOccupied draft.now.content taken.now }
    requires few { taken.now.in_flight < 2 ^ 32 }
    requires graph { graph < length draft.now.content.graphs }
    requires shelf { (g : states.LoadedGraph) → slice_get draft.now.content.graphs graph ≡ Some g → FitsShelf g.dag shelf.now }
    ensures { (P : model.Offer → Bool) → IsBestOf P draft.now.content best.entry
        → IsBestOf (λ x. P x || stands_at draft.now.content.now (slice_get draft.now.content.graphs graph) (Some shelf.now) x) draft.now.content result }
{
    if is_first_behind(&shelf.least(), graph, &best) {
        let now = draft.clock().secs();
        if is_ahead(now, shelf.soonest()) {
            return best;
        }
    }
    if draft.is_paused_at(graph) {
        return best;
    }
    let dag = draft.dag_at(graph);
    let mut best = best;
    for kind in 0..shelf.kind_count() {
        best = choose_in_kind(draft, taken, graph, dag, shelf, kind, best);
    }
    best
}

// The best of what stands on the shelf of a graph, where there is one.
fn best_of<'d>(
    draft: &'d Draft<'_>,
    taken: &Occupied,
    shelves: &[Shelf],
    graph: Option<usize>,
) -> Option<Best<'d>>
    requires sound { IsSound draft.now.content }
    requires taken { AreOccupied draft.now.content taken.now }
    requires few { taken.now.in_flight < 2 ^ 32 }
    requires shelves { FitShelves draft.now.content.graphs shelves.now }
    requires graph { IfSome graph (λ n. n < length shelves.now) }
    ensures { IsBestOf (stands_there draft.now.content.now draft.now.content.graphs shelves.now graph) draft.now.content result }
{
    let Some(at) = graph else {
        return None;
    };
    choose_on_shelf(draft, taken, at, &shelves[at], None)
}

// Whether the graph at a position is the one that was looked at.
fn is_seen(looked_at: Option<usize>, graph: usize) -> bool
    ensures { result ≡ true → looked_at ≡ Some graph }
{
    match looked_at {
        None => false,
        Some(seen) => seen == graph,
    }
}

// The best of what stands on shelves, where this is the best of what stands on the shelf of the graph that was looked at, if there is one.
fn best_with<'d>(
    draft: &'d Draft<'_>,
    taken: &Occupied,
    shelves: &[Shelf],
    looked_at: Option<usize>,
    best: Option<Best<'d>>,
) -> Option<Best<'d>>
    requires sound { IsSound draft.now.content }
    requires taken { AreOccupied draft.now.content taken.now }
    requires few { taken.now.in_flight < 2 ^ 32 }
    requires shelves { FitShelves draft.now.content.graphs shelves.now }
    requires best { IsBestOf (stands_there draft.now.content.now draft.now.content.graphs shelves.now looked_at) draft.now.content best }
    ensures { IsBestOf (stands_on_first draft.now.content.now draft.now.content.graphs shelves.now (length shelves.now)) draft.now.content result }
{
    let mut best = best;
    for graph in 0..shelves.len() {
        if !is_seen(looked_at, graph) {
            best = choose_on_shelf(draft, taken, graph, &shelves[graph], best);
        }
    }
    best
}

/// The best of what stands on shelves. The graph that seems to have it is looked at first, so that the tasks of others need not be.
pub(crate) fn best_shelved<'d>(
    draft: &'d Draft<'_>,
    taken: &Occupied,
    shelves: &[Shelf],
) -> Option<Best<'d>>
    requires sound { IsSound draft.now.content }
    requires taken { AreOccupied draft.now.content taken.now }
    requires few { taken.now.in_flight < 2 ^ 32 }
    requires shelves { FitShelves draft.now.content.graphs shelves.now }
    ensures { IsBestOf (stands_on_first draft.now.content.now draft.now.content.graphs shelves.now (length shelves.now)) draft.now.content result }
{
    let likely = likely_graph(draft, shelves);
    let best = best_of(draft, taken, shelves, likely);
    best_with(draft, taken, shelves, likely, best)
}

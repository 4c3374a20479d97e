//! The best of what stands on shelves.
ghost use Rattle.std.specs.Prelude.{◌≡◌, ◌<◌, ◌||◌, Bool, [], ◌∷◌, length};
ghost use Rattle.dag_check.specs.Graphs.{Dag};
ghost use Rattle.pool_book.specs.Ranks.{RankParts};
ghost use Rattle.sched_model.specs.Handout as model;
ghost use Rattle.sched_model.specs.Schedule.{is_running};
ghost use Rattle.sched_model.specs.Sound.{IsSound};
ghost use Rattle.sched_handout.specs.Shelving.{IsBestOf, IsFitting, IsLoaded, IsOfferOf, is_behind, stands_among, stands_found, stands_waiting};

use crate::offering::offer_at;
use crate::ranking::{Offer, compare};
use dag_check::Graph;
use moment_core::Moment;
use pool_book::Rank;
use sched_draft::Draft;
use sched_ready::Queue;
use sched_state::{Run, RunPhase};
use std::cmp::Ordering;

/// The best offer so far, with the position of its graph.
#[derive(Drop)]
pub(crate) struct Best<'a> {
    pub offer: Offer<'a>,
    pub graph: usize,
}

/// Whether the run is running.
pub(crate) fn is_running(run: &Run) -> bool
    ensures { result ≡ is_running run.now.phase }
{
    matches!(run.phase, RunPhase::Running)
}

// Whether what was chosen ranks before what has these parts.
fn is_behind(parts: &Rank<'_>, best: &Option<Best<'_>>) -> bool
    ensures { result ≡ is_behind parts.now best.now }
{
    match best {
        None => false,
        Some(best) => compare(&best.offer.parts(), parts) == Ordering::Less,
    }
}

// What the run of this date offers at the place, if it is ready.
fn offer_of<'d>(
    draft: &'d Draft<'_>,
    graph: usize,
    dag: &'d Graph,
    weights: &[u64],
    place: usize,
    date: Moment,
) -> Option<Offer<'d>>
    requires sound { IsSound draft.now.content }
    requires dag { IsLoaded draft.now.content graph dag.now weights.now }
    requires place { place < length dag.now.tasks }
    ensures { IsOfferOf draft.now.content dag.now.spec.dag_id place date result }
{
    let Some(position) = draft.find(&dag.spec().dag_id, date) else {
        return None;
    };
    let run = draft.run(position);
    if !is_running(run) {
        return None;
    }
    if run.instances.len() <= place {
        return None;
    }
    let bound = draft.bound_at(graph);
    offer_at(draft.clock(), position, run, dag, weights, bound, place)
}

// The best of what is ready at a place, and of what was chosen before it. Offers at the place fit. The first date that is ready ends it, and so
// does one that what was chosen ranks before.
fn choose_dates<'d>(
    draft: &'d Draft<'_>,
    graph: usize,
    dag: &'d Graph,
    weights: &[u64],
    place: usize,
    queue: &Queue,
    best: Option<Best<'d>>,
) -> Option<Best<'d>>
    requires sound { IsSound draft.now.content }
    requires dag { IsLoaded draft.now.content graph dag.now weights.now }
    requires place { IsFitting draft.now.content dag.now place }
    ensures { (P : model.Offer → Bool) → IsBestOf P draft.now.content best.entry
        → IsBestOf (λ x. P x || stands_among dag.now.spec.dag_id place queue.now.ready.keys x) draft.now.content result }
{
    let task = dag.task(place);
    for at in 0..queue.ready.len() {
        let Some(date) = queue.ready.get(at) else {
            return best;
        };
        let parts = Rank {
            weight: weights[place],
            logical: date,
            graph: &dag.spec().dag_id,
            task: &task.task_id,
        };
        if is_behind(&parts, &best) {
            return best;
        }
        if let Some(offer) = offer_of(draft, graph, dag, weights, place, date) {
            return Some(Best { offer, graph });
        }
    }
    best
}

// The best of what is ready at a place at a date, and of what was chosen before it. Offers at the place fit.
fn choose_date<'d>(
    draft: &'d Draft<'_>,
    graph: usize,
    dag: &'d Graph,
    weights: &[u64],
    place: usize,
    date: Moment,
    best: Option<Best<'d>>,
) -> Option<Best<'d>>
    requires sound { IsSound draft.now.content }
    requires dag { IsLoaded draft.now.content graph dag.now weights.now }
    requires place { IsFitting draft.now.content dag.now place }
    ensures { (P : model.Offer → Bool) → IsBestOf P draft.now.content best.entry
        → IsBestOf (λ x. P x || stands_among dag.now.spec.dag_id place (date ∷ []) x) draft.now.content result }
{
    let task = dag.task(place);
    let parts = Rank {
        weight: weights[place],
        logical: date,
        graph: &dag.spec().dag_id,
        task: &task.task_id,
    };
    if is_behind(&parts, &best) {
        return best;
    }
    match offer_of(draft, graph, dag, weights, place, date) {
        Some(offer) => Some(Best { offer, graph }),
        None => best,
    }
}

// The best of what waits at a place for a moment that has come, and of what was chosen before it. Offers at the place fit.
fn choose_waiting<'d>(
    draft: &'d Draft<'_>,
    graph: usize,
    dag: &'d Graph,
    weights: &[u64],
    place: usize,
    queue: &Queue,
    best: Option<Best<'d>>,
) -> Option<Best<'d>>
    requires sound { IsSound draft.now.content }
    requires dag { IsLoaded draft.now.content graph dag.now weights.now }
    requires place { IsFitting draft.now.content dag.now place }
    ensures { (P : model.Offer → Bool) → IsBestOf P draft.now.content best.entry
        → IsBestOf (λ x. P x || stands_waiting draft.now.content.now dag.now.spec.dag_id place queue.now.waiting.keys x) draft.now.content result }
{
    let mut best = best;
    let now = draft.clock().secs();
    for at in 0..queue.waiting.len() {
        let Some(waiting) = queue.waiting.get(at) else {
            return best;
        };
        if now < waiting.0 {
            return best;
        }
        best = choose_date(draft, graph, dag, weights, place, waiting.1, best);
    }
    best
}

/// The best of what is found at a place, and of what was chosen before it. Offers at the place fit.
pub(crate) fn choose_at_place<'d>(
    draft: &'d Draft<'_>,
    graph: usize,
    dag: &'d Graph,
    weights: &[u64],
    place: usize,
    queue: &Queue,
    best: Option<Best<'d>>,
) -> Option<Best<'d>>
    requires sound { IsSound draft.now.content }
    requires dag { IsLoaded draft.now.content graph dag.now weights.now }
    requires place { IsFitting draft.now.content dag.now place }
    ensures { (P : model.Offer → Bool) → IsBestOf P draft.now.content best.entry
        → IsBestOf (λ x. P x || stands_found draft.now.content.now dag.now.spec.dag_id place queue.now x) draft.now.content result }
{
    let best = choose_dates(draft, graph, dag, weights, place, queue, best);
    choose_waiting(draft, graph, dag, weights, place, queue, best)
}

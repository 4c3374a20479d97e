//! The patches of an event, made from the runs that it touches.
ghost use Rattle.std.specs.Prelude.{◌≡◌, ◌<◌, true, length, position, slice_get, IfOk, MatchOption, OnOk, Some};
ghost use Rattle.std.specs.Option.{option_copied};
ghost use Rattle.sched_model.specs.Sound.{IsSound};
ghost use Rattle.sched_state.specs.declared.runs.Run.{Run};
ghost use Rattle.sched_ready.specs.Held.{AreShelvesOf, IsLater};
ghost use Rattle.sched_ready.specs.Patched.{ArePatches};
ghost use Rattle.sched_ready.specs.Patching.{AreFirstPatches, AreOfOthers, IsDueAsBefore, IsOfGraph, IsPatchOf, TakesIn, is_of, is_of_if};

use crate::patches::Patch;
use crate::places::{is_due_as_before, moved_queues, no_queues, patch_places};
use crate::shelves::Shelf;
use dag_check::Graph;
use sched_draft::Draft;
use sched_state::Run;
use std::alloc::{AllocError, Global};

/// The patches that make the shelves of the schedule under a draft those of the draft. Only the touched runs are looked at, and the places at
/// which a moment has come.
pub fn patches_of(
    alloc: Global,
    shelves: &[Shelf],
    draft: &Draft<'_>,
) -> Result<Vec<Patch>, AllocError>
    requires sound { IsSound draft.now.content }
    requires shelves { AreShelvesOf draft.now.base.now draft.now.base.graphs draft.now.base.runs shelves.now }
    requires later { IsLater draft.now.base draft.now.content }
    ensures { IfOk result (λ patches. ArePatches draft.now.base draft.now.content patches.items) }
{
    let mut patches = moved_patches(alloc, shelves, draft.clock().secs())?;
    for position in draft.touched(alloc)? {
        let before = draft.before(position);
        patch_run(alloc, shelves, draft, position, before, &mut patches)?;
    }
    Ok(patches)
}

/// The patches take in what is due in the run at a position, which may have been there as it was before.
pub fn patch_run(
    alloc: Global,
    shelves: &[Shelf],
    draft: &Draft<'_>,
    position: usize,
    before: Option<&Run>,
    patches: &mut Vec<Patch>,
) -> Result<(), AllocError>
    requires sound { IsSound draft.now.content }
    requires position { position < length draft.now.content.runs }
    requires long { length shelves.now ≡ length draft.now.content.graphs }
    ensures { OnOk result ((r : Run) → slice_get draft.now.content.runs position ≡ Some r
        → TakesIn draft.now.content shelves.now position r (option_copied before.entry)
        patches.old.items patches.new.items) }
{
    let run = draft.run(position);
    let Some(graph) = draft.position_of(&run.graph) else {
        return Ok(());
    };
    let dag = draft.dag_at(graph);
    if is_left_alone(patches, graph, dag, run, before) {
        return Ok(());
    }
    let index = patch_of(alloc, graph, dag.len(), patches)?;
    let now = draft.clock().secs();
    let shelf = &shelves[graph];
    let queues = &mut patches[index].queues;
    patch_places(alloc, now, dag, shelf, run, before, queues)
}

// Whether the patch at an index, if there is one, is of the graph at a position.
fn is_patch_at(patches: &[Patch], index: usize, graph: usize) -> bool
    ensures { result ≡ is_of_if graph (slice_get patches.now index) }
{
    match patches.get(index) {
        None => false,
        Some(patch) => patch.graph == graph,
    }
}

// Where the first patch of the graph at a position stands.
fn find_first(patches: &[Patch], graph: usize) -> Option<usize>
    ensures { result ≡ position (is_of graph) patches.now }
{
    patches.iter().position(|patch| patch.graph == graph)
}

// Where a patch of the graph at a position stands. The last one is looked at first, since runs of one graph stand together.
fn find(patches: &[Patch], graph: usize) -> Option<usize>
    ensures { MatchOption result (AreOfOthers graph patches.now) (IsOfGraph graph patches.now) }
{
    let last = patches.len().saturating_sub(1);
    if is_patch_at(patches, last, graph) {
        return Some(last);
    }
    find_first(patches, graph)
}

// Whether the graph at a position has no patch and needs none for this run, which may have been there as it was before.
fn is_left_alone(
    patches: &[Patch],
    graph: usize,
    dag: &Graph,
    run: &Run,
    before: Option<&Run>,
) -> bool
    ensures { result ≡ true → AreOfOthers graph patches.now × IsDueAsBefore dag.now (option_copied before.entry) run.now }
{
    if let Some(_index) = find(patches, graph) {
        return false;
    }
    is_due_as_before(dag, run, before)
}

// Where the patch of a graph stands, of which one with no queue is put behind them if there is none.
fn patch_of(
    alloc: Global,
    graph: usize,
    places: usize,
    patches: &mut Vec<Patch>,
) -> Result<usize, AllocError>
    ensures { IfOk result (IsPatchOf graph places patches.old.items patches.new.items) }
{
    if let Some(index) = find(patches, graph) {
        return Ok(index);
    }
    let index = patches.len();
    let queues = no_queues(alloc, places)?;
    patches.push(Patch { graph, queues })?;
    Ok(index)
}

// The patches for the graphs in which a date waits for a moment that has come.
fn moved_patches(alloc: Global, shelves: &[Shelf], now: u64) -> Result<Vec<Patch>, AllocError>
    ensures { IfOk result (λ patches. AreFirstPatches now shelves.now patches.items) }
{
    let mut patches = Vec::new(alloc);
    for graph in 0..shelves.len() {
        let shelf = &shelves[graph];
        if shelf.has_come(now) {
            let queues = moved_queues(alloc, shelf, now)?;
            patches.push(Patch { graph, queues })?;
        }
    }
    Ok(patches)
}

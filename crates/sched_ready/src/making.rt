//! Shelves from nothing.
ghost use Rattle.std.specs.Prelude.{◌≡◌, ◌<◌, true, [], length, IfOk, IfSome};
ghost use Rattle.dag_check.specs.Graphs.{task_of};
ghost use Rattle.sched_model.specs.Schedule.{Schedule};
ghost use Rattle.sched_model.specs.Sound.{IsSound};
ghost use Rattle.sched_ready.specs.Held.{AreShelvesOf, FitShelves, FitsShelf};
ghost use Rattle.sched_ready.specs.Kinds.{AreKinds, AreSamples, HasJoined, IsKindOf};
ghost use Rattle.sched_ready.specs.Patched.{ArePatches};
ghost use Rattle.sched_ready.specs.Shelves.{AreAllEmpty, AreEmpty};

use crate::patches::{Patch, put_all};
use crate::patching::patch_run;
use crate::shelves::{Kinds, Shelf};
use crate::weighing::weigh_tasks;
use dag_check::Graph;
use graph_file::TaskSpec;
use sched_draft::Draft;
use std::alloc::{AllocError, Global};

/// The shelf of a graph of which nothing is due.
pub fn shelf_of(alloc: Global, dag: &Graph) -> Result<Shelf, AllocError>
    ensures fits { IfOk result (FitsShelf dag.now) }
    ensures empty { IfOk result (λ shelf. AreEmpty shelf.queues) }
{
    let weights = weigh_tasks(alloc, dag)?;
    let kinds = kinds_of(alloc, dag)?;
    let shelf = Shelf::empty(alloc, weights, kinds)?;
    Ok(shelf)
}

// The kinds of a graph's tasks.
fn kinds_of(alloc: Global, dag: &Graph) -> Result<Kinds, AllocError>
    ensures { IfOk result (λ kinds. AreKinds dag.now (length dag.now.tasks) kinds.kinds.items kinds.samples.items) }
{
    let mut kinds = Vec::with_capacity(alloc, dag.len())?;
    let mut samples = Vec::new(alloc);
    for place in 0..dag.len() {
        let kind = kind_of(dag, place, &mut samples)?;
        kinds.push(kind)?;
    }
    Ok(Kinds { kinds, samples })
}

// The kind of a place. Where there is none so far the place is the sample of a new one.
fn kind_of(dag: &Graph, place: usize, samples: &mut Vec<usize>) -> Result<usize, AllocError>
    requires place { place < length dag.now.tasks }
    requires samples { AreSamples dag.now samples.old.items }
    ensures { IfOk result (HasJoined dag.now place samples.old.items samples.new.items) }
{
    if let Some(kind) = find_kind(dag, place, samples) {
        return Ok(kind);
    }
    let kind = samples.len();
    samples.push(place)?;
    Ok(kind)
}

// The kind of a place among those that are there.
fn find_kind(dag: &Graph, place: usize, samples: &[usize]) -> Option<usize>
    requires place { place < length dag.now.tasks }
    requires samples { AreSamples dag.now samples.now }
    ensures { IfSome result (IsKindOf dag.now samples.now (task_of dag.now place)) }
{
    let task = dag.task(place);
    for kind in 0..samples.len() {
        if is_of_kind(dag, samples, kind, task) {
            return Some(kind);
        }
    }
    None
}

// Whether a task has the pool and the slots of the sample of a kind.
fn is_of_kind(dag: &Graph, samples: &[usize], kind: usize, task: &TaskSpec) -> bool
    requires kind { kind < length samples.now }
    requires samples { AreSamples dag.now samples.now }
    ensures { result ≡ true → IsKindOf dag.now samples.now task.now kind }
{
    let sample = samples[kind];
    let other = dag.task(sample);
    other.pool == task.pool && other.pool_slots == task.pool_slots
}

/// The shelves of a draft's graphs, from all runs that are running.
pub fn shelves_of(alloc: Global, draft: &Draft<'_>) -> Result<Vec<Shelf>, AllocError>
    requires { IsSound draft.now.content }
    ensures { IfOk result (λ shelves. AreShelvesOf draft.now.content.now draft.now.content.graphs
        draft.now.content.runs shelves.items) }
{
    let mut shelves = empty_shelves(alloc, draft)?;
    let patches = running_patches(alloc, &shelves, draft)?;
    put_all(&mut shelves, patches);
    Ok(shelves)
}

// The shelves of a draft's graphs, on which nothing stands.
fn empty_shelves(alloc: Global, draft: &Draft<'_>) -> Result<Vec<Shelf>, AllocError>
    ensures fit { IfOk result (λ shelves. FitShelves draft.now.content.graphs shelves.items) }
    ensures empty { IfOk result (λ shelves. AreAllEmpty shelves.items) }
{
    let mut shelves = Vec::with_capacity(alloc, draft.graph_count())?;
    for graph in 0..draft.graph_count() {
        let shelf = shelf_of(alloc, draft.dag_at(graph))?;
        shelves.push(shelf)?;
    }
    Ok(shelves)
}

// The patches that make these shelves, on which nothing stands, those of a draft.
fn running_patches(
    alloc: Global,
    shelves: &[Shelf],
    draft: &Draft<'_>,
) -> Result<Vec<Patch>, AllocError>
    requires sound { IsSound draft.now.content }
    requires fit { FitShelves draft.now.content.graphs shelves.now }
    requires empty { AreAllEmpty shelves.now }
    ensures { IfOk result (λ patches. let a : Schedule = draft.now.content in
        ArePatches (record a { runs = [] }) a patches.items) }
{
    let mut patches = Vec::new(alloc);
    for position in draft.running(alloc)? {
        patch_run(alloc, shelves, draft, position, None, &mut patches)?;
    }
    Ok(patches)
}

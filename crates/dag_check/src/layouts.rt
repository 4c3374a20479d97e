//! The places of a file's tasks, and their edges by place.
ghost use Rattle.std.specs.Prelude.{◌≡◌, ◌<◌, ◌≤◌, ◌++◌, ◌∷◌, [], if◌then◌else◌, ℕ, true, false, IfOk, IfErr, IsOk, length, map, take, slice_index, vec_len};
ghost use Rattle.graph_file.specs.TaskLists.{task_limit};
ghost use Rattle.dag_check.specs.Orders.{is_in, repeated, edges_of, AllBelow, IsPlacement, place_in};
ghost use Rattle.dag_check.specs.Names.{up_of, rows_of, IsPlain, NoneBelow};
ghost use Rattle.dag_check.specs.Layouts.{IsLayout};
ghost use Rattle.dag_check.specs.Graphs.{id_at, placed_rows, downs_in};
ghost use Rattle.dag_check.specs.Faults.{Stands};

use crate::faults::DagFault;
use crate::orders::{Stuck, order};
use crate::positions::{Unplaced, first_repeated, ids, rows};
use graph_file::{Name, Sequence, TaskSpec};
use std::alloc::{AllocError, Global};

// The order of places, and the edges by place.
#[derive(Debug, Drop)]
pub(crate) struct Layout {
    pub(crate) order: Vec<usize>,
    pub(crate) upstreams: Vec<Vec<usize>>,
    pub(crate) downstreams: Vec<Vec<usize>>,
}

// The names of the tasks at these positions.
fn names_at(alloc: Global, tasks: &[TaskSpec], walk: &[usize]) -> Result<Sequence<Name>, AllocError>
    requires { (k : ℕ) → k < length walk.now → slice_index walk.now k < length tasks.now }
    ensures { IfOk result (λ names. names ≡ map (id_at tasks.now) walk.now) }
{
    let mut names = Vec::with_capacity(alloc, walk.len())?;
    for position in walk {
        let id = tasks[*position].task_id.copy(alloc)?;
        names.push(id)?;
    }
    Ok(Sequence::new(names))
}

// The place of each position.
fn places(alloc: Global, order: &[usize]) -> Result<Vec<usize>, AllocError>
    requires within { (k : ℕ) → k < length order.now → slice_index order.now k < length order.now }
    requires once { (k : ℕ) → k < length order.now
        → is_in (take k order.now) (slice_index order.now k) ≡ false }
    ensures len { IfOk result (λ v. vec_len v ≡ length order.now) }
    ensures places { IfOk result (λ v. (y : ℕ) → is_in order.now y ≡ true → slice_index v.items y
        ≡ place_in order.now y) }
{
    let mut places = vec![in alloc; 0; order.len()]?;
    for (place, position) in order.iter().enumerate() {
        places[*position] = place;
    }
    Ok(places)
}

// What stands in a table at these positions.
fn looked_up(alloc: Global, table: &[usize], row: &[usize]) -> Result<Vec<usize>, AllocError>
    requires { (y : ℕ) → is_in row.now y ≡ true → y < length table.now }
    ensures { IfOk result (λ v. v.items ≡ map (slice_index table.now) row.now) }
{
    let mut found = Vec::with_capacity(alloc, row.len())?;
    for position in row {
        found.push(table[*position])?;
    }
    Ok(found)
}

// The upstreams' places, by place.
fn upstreams(
    alloc: Global,
    order: &[usize],
    rows: &[Vec<usize>],
) -> Result<Vec<Vec<usize>>, AllocError>
    requires placed { IsPlacement (edges_of rows.now) (length rows.now) order.now }
    requires below { AllBelow (edges_of rows.now) (length rows.now) }
    ensures { IfOk result (λ v. map (λ r. r.items) v.items ≡ placed_rows (edges_of rows.now)
        order.now) }
{
    let places = places(alloc, order)?;
    let mut placed = Vec::with_capacity(alloc, order.len())?;
    for position in order {
        let row = looked_up(alloc, &places, &rows[*position])?;
        placed.push(row)?;
    }
    Ok(placed)
}

// An empty list for each of so many places.
fn empty_rows(alloc: Global, count: usize) -> Result<Vec<Vec<usize>>, AllocError>
    ensures len { IfOk result (λ v. vec_len v ≡ count) }
    ensures rows { IfOk result (λ v. (j : ℕ) → edges_of v.items j ≡ []) }
{
    let mut rows = Vec::with_capacity(alloc, count)?;
    for _row in 0..count {
        rows.push(Vec::new(alloc))?;
    }
    Ok(rows)
}

// Adds a place to the lists of its upstreams.
fn add_place(
    found: &mut Vec<Vec<usize>>,
    upstreams: &[usize],
    place: usize,
) -> Result<(), AllocError>
    requires within { (y : ℕ) → is_in upstreams.now y ≡ true → y < vec_len found.old }
    requires once { repeated upstreams.now ≡ false }
    ensures len { IsOk result → vec_len found.new ≡ vec_len found.old }
    ensures rows { IsOk result → (j : ℕ) → edges_of found.new.items j
        ≡ edges_of found.old.items j ++ (if is_in upstreams.now j then place ∷ [] else []) }
{
    for upstream in upstreams {
        found[*upstream].push(place)?;
    }
    Ok(())
}

// The downstreams' places, by place, in time linear in the edges: each place goes to the lists of its upstreams.
fn downstreams(alloc: Global, rows: &[Vec<usize>]) -> Result<Vec<Vec<usize>>, AllocError>
    requires within { AllBelow (edges_of rows.now) (length rows.now) }
    requires once { (k : ℕ) → k < length rows.now → repeated (edges_of rows.now k) ≡ false }
    ensures len { IfOk result (λ v. vec_len v ≡ length rows.now) }
    ensures rows { IfOk result (λ v. (j : ℕ) → edges_of v.items j ≡ downs_in (edges_of rows.now)
        (length rows.now) j) }
{
    let mut found = empty_rows(alloc, rows.len())?;
    for (place, row) in rows.iter().enumerate() {
        add_place(&mut found, row, place)?;
    }
    Ok(found)
}

// The order and the edges by place.
fn placed(alloc: Global, order: Vec<usize>, rows: &[Vec<usize>]) -> Result<Layout, AllocError>
    requires placed { IsPlacement (edges_of rows.now) (length rows.now) order.items }
    requires below { AllBelow (edges_of rows.now) (length rows.now) }
    requires once { NoneBelow (λ i. repeated (edges_of rows.now i)) (length rows.now) }
    ensures { IfOk result (IsLayout (edges_of rows.now) (length rows.now)) }
{
    let ups = upstreams(alloc, &order, rows)?;
    let downs = downstreams(alloc, &ups)?;
    Ok(Layout {
        order,
        upstreams: ups,
        downstreams: downs,
    })
}

// The edges between positions, or the first fault that isn't a cycle.
fn edges(alloc: Global, tasks: &[TaskSpec]) -> Result<Vec<Vec<usize>>, DagFault>
    requires { length tasks.now ≤ task_limit }
    ensures ok { IfOk result (λ v. (map (λ r. r.items) v.items ≡ rows_of tasks.now) × IsPlain
        tasks.now) }
    ensures fault { IfErr result (Stands tasks.now) }
{
    let index = match ids(alloc, tasks) {
        Ok(index) => index,
        Err(Unplaced::At(i)) => return Err(DagFault::DoubleTask(i)),
        Err(Unplaced::Memory) => return Err(DagFault::Memory),
    };
    let rows = match rows(alloc, &index, tasks) {
        Ok(rows) => rows,
        Err(Unplaced::At(i)) => return Err(DagFault::UnknownUpstream(i)),
        Err(Unplaced::Memory) => return Err(DagFault::Memory),
    };
    match first_repeated(alloc, &rows) {
        Ok(None) => Ok(rows),
        Ok(Some(i)) => Err(DagFault::DoubleEdge(i as u32)),
        Err(_) => Err(DagFault::Memory),
    }
}

// The layout of a file's tasks, or the first fault.
pub(crate) fn lay_out(alloc: Global, tasks: &[TaskSpec]) -> Result<Layout, DagFault>
    requires { length tasks.now ≤ task_limit }
    ensures ok { IfOk result (λ l. IsPlain tasks.now × IsLayout (up_of tasks.now) (length tasks.now)
        l) }
    ensures fault { IfErr result (Stands tasks.now) }
{
    let rows = match edges(alloc, tasks) {
        Ok(rows) => rows,
        Err(fault) => return Err(fault),
    };
    match order(alloc, &rows) {
        Ok(order) => match placed(alloc, order, &rows) {
            Ok(layout) => Ok(layout),
            Err(_) => Err(DagFault::Memory),
        },
        Err(Stuck::Cycle(walk)) => match names_at(alloc, tasks, &walk) {
            Ok(names) => Err(DagFault::Cycle(names)),
            Err(_) => Err(DagFault::Memory),
        },
        Err(Stuck::Memory) => Err(DagFault::Memory),
    }
}

//! Names become positions in the file, and the faults that show in names.
ghost use Rattle.std.specs.Prelude.{◌≡◌, ◌<◌, ◌≤◌, ℕ, true, false, not, IfOk, IfErr, MatchOption, length, map};
ghost use Rattle.std.specs.List.{list_any};
ghost use Rattle.graph_file.specs.TaskLists.{task_limit};
ghost use Rattle.dag_check.specs.Orders.{is_in, repeated, edges_of, AllBelow};
ghost use Rattle.dag_check.specs.Names.{has, ids_of, is_double, is_unknown, NoneBelow, FirstBelow, position_of, rows_of};
ghost use Rattle.dag_check.specs.NameFaults.{IsDoubleAt, IsUnknownAt};

use graph_file::{Name, TaskSpec};
use indexmap::IndexSet;
use std::alloc::{AllocError, Global};

// Why names give no positions.
#[derive(Clone, Copy, Debug, PartialEq, Eq)]
pub(crate) enum Unplaced {
    At(u32),
    Memory,
}

// The names of the tasks, in the order of the file, or the first task whose name stands before.
pub(crate) fn ids(alloc: Global, tasks: &[TaskSpec]) -> Result<IndexSet<Name>, Unplaced>
    requires { length tasks.now ≤ task_limit }
    ensures ids { IfOk result (λ s. (s.keys ≡ ids_of tasks.now) × NoneBelow (is_double tasks.now)
        (length tasks.now)) }
    ensures fault { IfErr result (IsDoubleAt tasks.now) }
{
    let mut ids = IndexSet::new(alloc);
    for (i, task) in tasks.iter().enumerate() {
        let Ok(id) = task.task_id.copy(alloc) else {
            return Err(Unplaced::Memory);
        };
        match ids.insert_full(id) {
            Ok((_, true)) => {}
            Ok((_, false)) => return Err(Unplaced::At(i as u32)),
            Err(_) => return Err(Unplaced::Memory),
        }
    }
    Ok(ids)
}

// The positions of names, or none where one is unknown.
fn positions(
    alloc: Global,
    ids: &IndexSet<Name>,
    names: &[Name],
) -> Result<Option<Vec<usize>>, AllocError>
    ensures { IfOk result (λ o. MatchOption o
        (list_any (λ q. not (has ids.now.keys q)) names.now ≡ true)
        (λ v. (list_any (λ q. not (has ids.now.keys q)) names.now ≡ false) ×
        (v.items ≡ map (position_of ids.now.keys) names.now))) }
{
    let mut row = Vec::with_capacity(alloc, names.len())?;
    for name in names {
        match ids.get_index_of(name) {
            Some(position) => row.push(position)?,
            None => return Ok(None),
        }
    }
    Ok(Some(row))
}

// The positions of each task's upstreams, or the first task with an unknown one.
pub(crate) fn rows(
    alloc: Global,
    ids: &IndexSet<Name>,
    tasks: &[TaskSpec],
) -> Result<Vec<Vec<usize>>, Unplaced>
    requires few { length tasks.now ≤ task_limit }
    requires ids { ids.now.keys ≡ ids_of tasks.now }
    ensures rows { IfOk result (λ v. (map (λ r. r.items) v.items ≡ rows_of tasks.now) × NoneBelow
        (is_unknown tasks.now) (length tasks.now)) }
    ensures fault { IfErr result (IsUnknownAt tasks.now) }
{
    let Ok(mut rows) = Vec::with_capacity(alloc, tasks.len()) else {
        return Err(Unplaced::Memory);
    };
    for (i, task) in tasks.iter().enumerate() {
        match positions(alloc, ids, task.upstream.as_slice()) {
            Ok(Some(row)) => {
                if rows.push(row).is_err() {
                    return Err(Unplaced::Memory);
                }
            }
            Ok(None) => return Err(Unplaced::At(i as u32)),
            Err(_) => return Err(Unplaced::Memory),
        }
    }
    Ok(rows)
}

// Whether a row has a position twice.
fn is_repeated(alloc: Global, row: &[usize], count: usize) -> Result<bool, AllocError>
    requires { (y : ℕ) → is_in row.now y ≡ true → y < count }
    ensures { IfOk result (λ b. b ≡ repeated row.now) }
{
    let mut seen = vec![in alloc; false; count]?;
    for position in row {
        if seen[*position] {
            return Ok(true);
        }
        seen[*position] = true;
    }
    Ok(false)
}

// The first row that has a position twice.
pub(crate) fn first_repeated(
    alloc: Global,
    rows: &[Vec<usize>],
) -> Result<Option<usize>, AllocError>
    requires { AllBelow (edges_of rows.now) (length rows.now) }
    ensures { IfOk result (λ o. MatchOption o
        (NoneBelow (λ i. repeated (edges_of rows.now i)) (length rows.now))
        (FirstBelow (λ i. repeated (edges_of rows.now i)) (length rows.now))) }
{
    for (i, row) in rows.iter().enumerate() {
        if is_repeated(alloc, row, rows.len())? {
            return Ok(Some(i));
        }
    }
    Ok(None)
}

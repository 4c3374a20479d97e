//! Positions of runs, as runs are put in and written over.
ghost use Rattle.std.specs.Prelude.{◌≡◌, ◌+◌, ◌^◌, ◌<◌, ◌≤◌, true, length, nat_lt, slice_get, vec_capacity, IfOk, OnOk, ◌++◌, ◌∷◌, [], cond};
ghost use Rattle.std.specs.List.{list_all, list_any};
ghost use Rattle.sched_model.specs.Lists.{rises};
ghost use Rattle.sched_model.specs.States.{is_open};
ghost use Rattle.run_lists.specs.Positions.{has_open, is_position, place_of, placed, positions_where, stands, with_position, without_position};
ghost use Rattle.run_lists.specs.declared.positions.Standing.TheVariants.{Running};
ghost use Rattle.run_lists.specs.Touched.{shifted_from};

use crate::edits::Edit;
use instance_machine::Instance;
use sched_state::{Run, RunPhase};
use std::alloc::{AllocError, Global};

/// Of which runs the positions are kept.
#[derive(Clone, Copy, Debug, PartialEq, Eq)]
pub enum Standing {
    /// Of those that are running.
    Running,
    /// Of those that are queued.
    Queued,
    /// Of those that have a try in flight, that is one without an end.
    InFlight,
}

// The place of the first that is not below the position, by a binary search.
fn place_of(positions: &[usize], position: usize) -> usize
    requires { rises nat_lt positions.now ≡ true }
    ensures place { result ≡ place_of position positions.now }
    ensures within { result ≤ length positions.now }
{
    positions.partition_point(|other| *other < position)
}

// Whether the position stands at the place.
fn is_at(positions: &[usize], place: usize, position: usize) -> bool
    ensures { result ≡ is_position position (slice_get positions.now place) }
{
    match positions.get(place) {
        Some(other) => *other == position,
        None => false,
    }
}

// The position is one of these from now on, for which there is room.
fn put_in(positions: &mut Vec<usize>, position: usize)
    requires rising { rises nat_lt positions.old.items ≡ true }
    requires room { length (with_position position positions.old.items) ≤ vec_capacity positions.old }
    ensures items { positions.new.items ≡ with_position position positions.old.items }
    ensures room { vec_capacity positions.old ≤ vec_capacity positions.new }
{
    let place = place_of(positions, position);
    if is_at(positions, place, position) {
        return;
    }
    let _ = positions.insert(place, position);
}

// The position is none of these from now on.
fn take_out(positions: &mut Vec<usize>, position: usize)
    requires { rises nat_lt positions.old.items ≡ true }
    ensures items { positions.new.items ≡ without_position position positions.old.items }
    ensures room { vec_capacity positions.old ≤ vec_capacity positions.new }
{
    let place = place_of(positions, position);
    if is_at(positions, place, position) {
        positions.remove(place);
    }
}

// Those from this one on are one further on.
fn shift(positions: &mut Vec<usize>, position: usize)
    requires rising { rises nat_lt positions.old.items ≡ true }
    requires small { list_all (λ n. nat_lt (n + 1) (2 ^ 64)) positions.old.items ≡ true }
    ensures items { positions.new.items ≡ shifted_from position positions.old.items }
    ensures room { vec_capacity positions.old ≤ vec_capacity positions.new }
{
    for index in place_of(positions, position)..positions.len() {
        positions[index] += 1;
    }
}

/// A run was put in at the position, where it is new, or written over the one that stood there: whether the position is one of these now.
pub(crate) fn place(positions: &mut Vec<usize>, is_new: bool, position: usize, holds: bool)
    requires rising { rises nat_lt positions.old.items ≡ true }
    requires small { list_all (λ n. nat_lt (n + 1) (2 ^ 64)) positions.old.items ≡ true }
    requires room { length (placed is_new holds position positions.old.items) ≤ vec_capacity positions.old }
    ensures items { positions.new.items ≡ placed is_new holds position positions.old.items }
    ensures room { vec_capacity positions.old ≤ vec_capacity positions.new }
{
    if is_new {
        shift(positions, position);
    }
    if holds {
        put_in(positions, position);
    } else {
        take_out(positions, position);
    }
}

// Whether a try of the instance has no end.
fn is_open(instance: &Instance) -> bool
    ensures { result ≡ list_any is_open instance.now.tries }
{
    instance.tries().iter().any(|one| one.ended.is_none())
}

/// Whether a try of the run is in flight, that is without an end.
pub fn has_open(run: &Run) -> bool
    ensures { result ≡ has_open run.now }
{
    run.instances.as_slice().iter().any(is_open)
}

/// Whether the run stands so.
pub(crate) fn stands(run: &Run, standing: Standing) -> bool
    ensures { result ≡ stands standing run.now }
{
    match standing {
        Standing::Running => matches!(run.phase, RunPhase::Running),
        Standing::Queued => matches!(run.phase, RunPhase::Queued),
        Standing::InFlight => has_open(run),
    }
}

// The position is one more of them, where this holds.
fn push_if(positions: &mut Vec<usize>, position: usize, holds: bool) -> Result<(), AllocError>
    ensures items { OnOk result (positions.new.items ≡ positions.old.items ++ cond holds (position ∷ []) []) }
    ensures room { vec_capacity positions.old ≤ vec_capacity positions.new }
{
    if holds {
        positions.push(position)?;
    }
    Ok(())
}

/// The positions of the runs that stand so, with room for that of each run. An `Err` says that memory ran out.
pub(crate) fn positions_in(
    alloc: Global,
    runs: &[Run],
    standing: Standing,
) -> Result<Vec<usize>, AllocError>
    ensures positions { IfOk result (λ positions. positions.items ≡ positions_where (stands standing) runs.now) }
    ensures room { IfOk result (λ positions. length runs.now ≤ vec_capacity positions) }
{
    let mut positions = Vec::with_capacity(alloc, runs.len())?;
    for position in 0..runs.len() {
        let holds = stands(&runs[position], standing);
        push_if(&mut positions, position, holds)?;
    }
    Ok(positions)
}

/// Makes room for so many in all. What room there was is kept, also where memory runs out, which is what an `Err` says.
pub(crate) fn make_room(positions: &mut Vec<usize>, count: usize) -> Result<(), AllocError>
    requires { length positions.old.items ≤ count }
    ensures items { positions.new.items ≡ positions.old.items }
    ensures room { OnOk result (count ≤ vec_capacity positions.new) }
    ensures kept { vec_capacity positions.old ≤ vec_capacity positions.new }
{
    positions.reserve(count - positions.len())
}

/// The run was put in or written over where the edit says, among the runs that were there: whether its position is one of these now, which
/// are those of running runs. An `Err` says that memory ran out.
pub(crate) fn place_edit(positions: &mut Vec<usize>, edit: &Edit) -> Result<(), AllocError>
    requires rising { rises nat_lt positions.old.items ≡ true }
    requires small { list_all (λ n. nat_lt (n + 1) (2 ^ 64)) positions.old.items ≡ true }
    ensures { OnOk result (positions.new.items ≡ placed edit.now.is_new (stands Running edit.now.run) edit.now.from positions.old.items) }
{
    positions.reserve(1)?;
    let running = stands(&edit.run, Standing::Running);
    place(positions, edit.is_new, edit.from, running);
    Ok(())
}

//! A cycle among positions of which none may come next.
//!
//! Each of them has an upstream among them. So a walk against the edges comes back to where it was; cut there and turned round
//! it is a cycle.
ghost use Rattle.std.specs.Prelude.{◌≡◌, ◌+◌, ◌-◌, ◌<◌, ◌≤◌, ℕ, true, false, IfOk, MatchOption, length, slice_index};
ghost use Rattle.std.specs.List.{list_all};
ghost use Rattle.dag_check.specs.Orders.{is_in, edges_of, AllBelow, may_come, IsCycle};
ghost use Rattle.dag_check.specs.Searches.{failing, marked, IsTurned};

use std::alloc::{AllocError, Global};

// A cycle among the positions that aren't placed, where none of them may come next.
pub(crate) fn cycle(
    alloc: Global,
    up: &[Vec<usize>],
    placed: &[bool],
) -> Result<Vec<usize>, AllocError>
    requires long { length placed.now ≡ length up.now }
    requires within { AllBelow (edges_of up.now) (length up.now) }
    requires stuck { (i : ℕ) → i < length up.now
        → may_come (edges_of up.now) (marked placed.now) i ≡ false }
    requires open { 0 < failing (marked placed.now) (length placed.now) }
    ensures { IfOk result (λ v. IsCycle (edges_of up.now) (length up.now) v.items) }
{
    let mut walk = Vec::new(alloc);
    let mut at = first_open(placed);
    'steps: loop {
        match position_of(&walk, at) {
            Some(from) => return turned(alloc, &walk, from),
            None => {
                walk.push(at)?;
                at = open_upstream(&up[at], placed);
            }
        }
    }
}

// The first place that isn't marked.
fn first_open(marks: &[bool]) -> usize
    requires { 0 < failing (marked marks.now) (length marks.now) }
    ensures within { result < length marks.now }
    ensures open { marked marks.now result ≡ false }
{
    for i in 0..marks.len() {
        if !marks[i] {
            return i;
        }
    }
    unreachable!()
}

// The first of these places that isn't marked.
fn open_upstream(places: &[usize], marks: &[bool]) -> usize
    requires within { (y : ℕ) → is_in places.now y ≡ true → y < length marks.now }
    requires open { list_all (marked marks.now) places.now ≡ false }
    ensures upstream { is_in places.now result ≡ true }
    ensures open { marked marks.now result ≡ false }
{
    for place in places {
        if !marks[*place] {
            return *place;
        }
    }
    unreachable!()
}

// Where a number stands first.
fn position_of(walk: &[usize], number: usize) -> Option<usize>
    ensures { MatchOption result (is_in walk.now number ≡ false)
        (λ k. (k < length walk.now) × (slice_index walk.now k ≡ number)) }
{
    for (k, x) in walk.iter().enumerate() {
        if *x == number {
            return Some(k);
        }
    }
    None
}

// The walk from `from` on, turned round, starting at its least.
fn turned(alloc: Global, walk: &[usize], from: usize) -> Result<Vec<usize>, AllocError>
    requires { from < length walk.now }
    ensures { IfOk result (λ v. IsTurned walk.now from v.items) }
{
    let start = least_from(walk, from);
    let long = walk.len() - from;
    let mut cycle = Vec::with_capacity(alloc, long)?;
    for k in 0..long {
        let at = if from + k <= start {
            start - k
        } else {
            start + long - k
        };
        cycle.push(walk[at])?;
    }
    Ok(cycle)
}

// Where the least number from `from` on stands.
fn least_from(walk: &[usize], from: usize) -> usize
    requires { from < length walk.now }
    ensures above { from ≤ result }
    ensures inside { result < length walk.now }
    ensures least { (k : ℕ) → from ≤ k → k < length walk.now
        → slice_index walk.now result ≤ slice_index walk.now k }
{
    let mut least = from;
    for i in from..walk.len() {
        if walk[i] < walk[least] {
            least = i;
        }
    }
    least
}

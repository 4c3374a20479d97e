//! The order in which positions come after their upstreams, or a cycle that forbids one.
//!
//! At each place stands the first position whose upstreams all stand before, so an order that is in the file already stays.
ghost use Rattle.std.specs.Prelude.{◌≡◌, ◌<◌, ℕ, true, false, IfOk, IfErr, MatchOption, length};
ghost use Rattle.std.specs.List.{list_all};
ghost use Rattle.dag_check.specs.Orders.{is_in, edges_of, AllBelow, IsFirst, may_come, IsPlacement};
ghost use Rattle.dag_check.specs.Searches.{marked, IsStuck};

use crate::cycles::cycle;
use std::alloc::Global;

// Why there is no order.
#[derive(Debug, Drop)]
pub(crate) enum Stuck {
    Cycle(Vec<usize>),
    Memory,
}

// The positions in the order of their places, or a cycle.
pub(crate) fn order(alloc: Global, up: &[Vec<usize>]) -> Result<Vec<usize>, Stuck>
    requires { AllBelow (edges_of up.now) (length up.now) }
    ensures placed { IfOk result (λ v. IsPlacement (edges_of up.now) (length up.now) v.items) }
    ensures stuck { IfErr result (IsStuck (edges_of up.now) (length up.now)) }
{
    let Ok(mut placed) = vec![in alloc; false; up.len()] else {
        return Err(Stuck::Memory);
    };
    let Ok(mut order) = Vec::with_capacity(alloc, up.len()) else {
        return Err(Stuck::Memory);
    };
    'places: for _place in 0..up.len() {
        match next_place(up, &placed) {
            Some(i) => {
                placed[i] = true;
                if order.push(i).is_err() {
                    return Err(Stuck::Memory);
                }
            }
            None => {
                return match cycle(alloc, up, &placed) {
                    Ok(walk) => Err(Stuck::Cycle(walk)),
                    Err(_) => Err(Stuck::Memory),
                };
            }
        }
    }
    Ok(order)
}

// The first position that may come next.
fn next_place(up: &[Vec<usize>], placed: &[bool]) -> Option<usize>
    requires long { length placed.now ≡ length up.now }
    requires within { AllBelow (edges_of up.now) (length up.now) }
    ensures { MatchOption result
        ((i : ℕ) → i < length up.now → may_come (edges_of up.now) (marked placed.now) i ≡ false)
        (λ i. (i < length up.now) × IsFirst (may_come (edges_of up.now) (marked placed.now)) i) }
{
    for i in 0..up.len() {
        if !placed[i] && all_marked(&up[i], placed) {
            return Some(i);
        }
    }
    None
}

// Whether all these places are marked.
fn all_marked(places: &[usize], marks: &[bool]) -> bool
    requires { (y : ℕ) → is_in places.now y ≡ true → y < length marks.now }
    ensures { result ≡ list_all (marked marks.now) places.now }
{
    for place in places {
        if !marks[*place] {
            return false;
        }
    }
    true
}

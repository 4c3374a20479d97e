//! What a place reaches. Each edge leads to a lower place, or each to a higher one, so one pass marks all of it.
ghost use Rattle.std.specs.Prelude.{◌≡◌, ◌||◌, ◌<◌, ℕ, true, false, IfOk, length, vec_len};
ghost use Rattle.dag_check.specs.Orders.{is_in, edges_of};
ghost use Rattle.dag_check.specs.Searches.{marked};
ghost use Rattle.dag_check.specs.Graphs.{passing};
ghost use Rattle.dag_check.specs.Reach.{IsReach, LeadsDown, LeadsUp};

use std::alloc::{AllocError, Global};

// Marks the places of a list.
fn mark_all(marks: &mut Vec<bool>, places: &[usize])
    requires { (y : ℕ) → is_in places.now y ≡ true → y < vec_len marks.old }
    ensures len { vec_len marks.new ≡ vec_len marks.old }
    ensures marks { (y : ℕ) → marked marks.new.items y
        ≡ (marked marks.old.items y || is_in places.now y) }
{
    for place in places {
        marks[*place] = true;
    }
}

// What `start` reaches, where each edge leads to a lower place.
pub(crate) fn reach_earlier(
    alloc: Global,
    next: &[Vec<usize>],
    start: usize,
) -> Result<Vec<bool>, AllocError>
    requires start_in { start < length next.now }
    requires down { LeadsDown (edges_of next.now) }
    ensures len { IfOk result (λ v. vec_len v ≡ length next.now) }
    ensures reach { IfOk result (λ v. IsReach (edges_of next.now) start (marked v.items)) }
{
    let mut marks = vec![in alloc; false; next.len()]?;
    let mut place = start + 1;
    while place > 0 {
        place -= 1;
        if place == start || marks[place] {
            mark_all(&mut marks, &next[place]);
        }
    }
    Ok(marks)
}

// What `start` reaches, where each edge leads to a higher place.
pub(crate) fn reach_later(
    alloc: Global,
    next: &[Vec<usize>],
    start: usize,
) -> Result<Vec<bool>, AllocError>
    requires start_in { start < length next.now }
    requires up { LeadsUp (edges_of next.now) (length next.now) }
    ensures len { IfOk result (λ v. vec_len v ≡ length next.now) }
    ensures reach { IfOk result (λ v. IsReach (edges_of next.now) start (marked v.items)) }
{
    let mut marks = vec![in alloc; false; next.len()]?;
    for place in start..next.len() {
        if place == start || marks[place] {
            mark_all(&mut marks, &next[place]);
        }
    }
    Ok(marks)
}

// The places that are marked, rising.
pub(crate) fn rising(alloc: Global, marks: &[bool]) -> Result<Vec<usize>, AllocError>
    ensures { IfOk result (λ v. v.items ≡ passing (marked marks.now) (length marks.now)) }
{
    let mut places = Vec::new(alloc);
    for i in 0..marks.len() {
        if marks[i] {
            places.push(i)?;
        }
    }
    Ok(places)
}

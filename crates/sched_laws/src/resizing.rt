//! Laws of pools that get another size: what it leaves as it is, and what it lets out.
ghost use Rattle.std.specs.Prelude.{◌≡◌, ℕ, ◌+◌, ◌<◌, ◌≤◌, ◌||◌, cond, List, true, false, None};
ghost use Rattle.sched_model.specs.sched_state.Lists.{same};
ghost use Rattle.sched_model.specs.Changes.{resize};
ghost use Rattle.sched_model.specs.Handout.{Offer, fits, hand_one};
ghost use Rattle.sched_model.specs.Schedule.{Schedule, has_pool, size_of};
ghost use Rattle.sched_model.specs.Settle.{move};
ghost use Rattle.sched_model.specs.Sound.{IsSound};
ghost use Rattle.sched_model.specs.States.{occupied};

/// Another size stops nothing: no run and no try is changed, and the graphs, the next serial, the clock, the lanes and the limits
/// stay as well. What is taken of each pool stays taken, also where it is more than the size (Airflow 2, "Pools").
pub fn resizing_stops_nothing()
    ensures runs { (name : List ℕ) (size : ℕ) (a : Schedule) → (resize name size a).runs ≡ a.runs }
    ensures occupied { (name : List ℕ) (size : ℕ) (a : Schedule) (p : List ℕ)
        → occupied (resize name size a) p ≡ occupied a p }
    ensures graphs { (name : List ℕ) (size : ℕ) (a : Schedule)
        → (resize name size a).graphs ≡ a.graphs }
    ensures next { (name : List ℕ) (size : ℕ) (a : Schedule) → (resize name size a).next ≡ a.next }
    ensures now { (name : List ℕ) (size : ℕ) (a : Schedule) → (resize name size a).now ≡ a.now }
    ensures lanes { (name : List ℕ) (size : ℕ) (a : Schedule)
        → (resize name size a).lanes ≡ a.lanes }
    ensures limits { (name : List ℕ) (size : ℕ) (a : Schedule)
        → (resize name size a).limits ≡ a.limits }
{}

/// The pool of this name has the size, whether it was there or is made, and every other pool is as it was.
pub fn resizing_changes_one_pool()
    ensures size { (name : List ℕ) (size : ℕ) (a : Schedule) (p : List ℕ)
        → size_of (resize name size a) p ≡ cond (same name p) size (size_of a p) }
    ensures there { (name : List ℕ) (size : ℕ) (a : Schedule) (p : List ℕ)
        → has_pool (resize name size a) p ≡ (same name p || has_pool a p) }
{}

/// Another size enables no move: settling looks at no pool.
pub fn resizing_enables_no_move()
    ensures { (name : List ℕ) (size : ℕ) (a : Schedule) → move a ≡ None
        → move (resize name size a) ≡ None }
{}

/// A pool that is made no larger lets nothing out: what fits then fitted before.
pub fn a_smaller_pool_lets_nothing_out()
    ensures fits { (name : List ℕ) (size : ℕ) (a : Schedule) (o : Offer) → size ≤ size_of a name
        → fits (resize name size a) o ≡ true → fits a o ≡ true }
    ensures no_hand { (name : List ℕ) (size : ℕ) (a : Schedule) → size ≤ size_of a name
        → hand_one a ≡ None → hand_one (resize name size a) ≡ None }
{}

/// Nor does a pool that is made, whatever its size: no task has a pool that is not there.
pub fn a_new_pool_lets_nothing_out()
    ensures { (name : List ℕ) (size : ℕ) (a : Schedule) → IsSound a → has_pool a name ≡ false
        → hand_one a ≡ None → hand_one (resize name size a) ≡ None }
{}

/// What would take more than the new size, beside what is taken, does not fit; into every other pool fits what fitted.
pub fn past_the_size_nothing_fits()
    ensures full { (name : List ℕ) (size : ℕ) (a : Schedule) (o : Offer) → o.pool ≡ name
        → size < occupied a name + o.slots → fits (resize name size a) o ≡ false }
    ensures others { (name : List ℕ) (size : ℕ) (a : Schedule) (o : Offer)
        → same name o.pool ≡ false → fits (resize name size a) o ≡ fits a o }
{}

/// The size that a pool has already changes nothing.
pub fn the_same_size_is_none()
    ensures { (name : List ℕ) (size : ℕ) (a : Schedule) → IsSound a → has_pool a name ≡ true
        → size_of a name ≡ size → resize name size a ≡ a }
{}

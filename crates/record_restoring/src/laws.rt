//! A law of what tries take of pools.
ghost use Rattle.std.specs.Prelude.{◌≤◌, ◌*◌, ℕ, List, length};
ghost use Rattle.pool_book.specs.Limits.{most_taken};
ghost use Rattle.sched_state.specs.Limits.{ceilings};
ghost use Rattle.sched_model.specs.Schedule.{Schedule};
ghost use Rattle.sched_model.specs.Sound.{IsSound, AllSay};
ghost use Rattle.sched_model.specs.States.{occupied};

/// In a sound schedule whose graphs are what their texts say, no task instance has two tries without an end, so those of a run take 256 times
/// 1,000 slots at most: under limits that may be set no more of a pool than a book counts.
pub fn taken_slots_are_counted()
    ensures few { (a : Schedule) → IsSound a → AllSay a.graphs
        → (name : List ℕ) → occupied a name ≤ 256000 * length a.runs }
    ensures counted { (a : Schedule) → IsSound a → AllSay a.graphs → a.limits.runs ≤ ceilings.runs
        → (name : List ℕ) → occupied a name ≤ most_taken }
{}

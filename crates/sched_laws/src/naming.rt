//! Laws of the runs that events name.
ghost use Rattle.std.specs.Prelude.{◌≡◌, ℕ, List, IsTrue, false};
ghost use Rattle.sched_model.specs.Causes.{is_unknown_graph};
ghost use Rattle.sched_model.specs.Schedule.{Schedule, has_run_at};
ghost use Rattle.sched_model.specs.NamedRuns.{named_by_tick, named_by_hand, named_by_backfill};
ghost use Rattle.sched_model.specs.Sound.{IsSound, is_moment, are_new};

/// Of a sound schedule: the runs that a tick names are of graphs that are there, no two runs have one graph and date, and their
/// dates are moments, since their intervals have ended by the tick.
pub fn named_runs_are_new()
    ensures { (a : Schedule) (t : ℕ) → IsSound a → IsTrue (is_moment t)
        → IsTrue (are_new a (named_by_tick a t)) }
{}

/// So are the run by hand of a graph that is there, where no run of it has the clock's date, and the runs that a backfill names.
pub fn runs_of_repairs_are_new()
    ensures by_hand { (a : Schedule) (id : List ℕ) → IsSound a → is_unknown_graph a id ≡ false
        → has_run_at a id a.now ≡ false → IsTrue (are_new a (named_by_hand a id)) }
    ensures backfill { (a : Schedule) (id : List ℕ) (low high : ℕ) → IsSound a
        → is_unknown_graph a id ≡ false → IsTrue (are_new a (named_by_backfill a id low high)) }
{}

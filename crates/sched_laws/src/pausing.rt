//! Laws of pausing: what a pause leaves possible, and when it changes nothing.
ghost use Rattle.std.specs.Prelude.{◌≡◌, ℕ, List, Bool, true, None, Some};
ghost use Rattle.sched_model.specs.sched_state.declared.graphs.LoadedGraph.{LoadedGraph};
ghost use Rattle.sched_model.specs.Schedule.{Schedule, graph_named};
ghost use Rattle.sched_model.specs.Settle.{move};
ghost use Rattle.sched_model.specs.Handout.{hand_one};
ghost use Rattle.sched_model.specs.Changes.{set_paused};
ghost use Rattle.sched_model.specs.Sound.{IsSound};

/// Pausing a graph enables no move and no hand-out: its queued runs do not start, its tasks are not handed out, and what else is
/// possible it was before.
pub fn pausing_is_quiet()
    ensures still { (id : List ℕ) (a : Schedule) → move a ≡ None
        → move (set_paused id true a) ≡ None }
    ensures no_hand { (id : List ℕ) (a : Schedule) → hand_one a ≡ None
        → hand_one (set_paused id true a) ≡ None }
{}

/// A graph that is paused already, or is not, stays as it is: the same pause changes nothing.
pub fn the_same_pause_is_none()
    ensures { (id : List ℕ) (paused : Bool) (a : Schedule) (g : LoadedGraph) → IsSound a
        → graph_named a id ≡ Some g → g.paused ≡ paused → set_paused id paused a ≡ a }
{}

/// Pausing changes no run and no try: the next serial, the clock, the lanes, the pools and the limits stay as well.
pub fn pausing_changes_no_run()
    ensures runs { (id : List ℕ) (paused : Bool) (a : Schedule)
        → (set_paused id paused a).runs ≡ a.runs }
    ensures next { (id : List ℕ) (paused : Bool) (a : Schedule)
        → (set_paused id paused a).next ≡ a.next }
    ensures now { (id : List ℕ) (paused : Bool) (a : Schedule)
        → (set_paused id paused a).now ≡ a.now }
    ensures lanes { (id : List ℕ) (paused : Bool) (a : Schedule)
        → (set_paused id paused a).lanes ≡ a.lanes }
    ensures pools { (id : List ℕ) (paused : Bool) (a : Schedule)
        → (set_paused id paused a).pools ≡ a.pools }
    ensures limits { (id : List ℕ) (paused : Bool) (a : Schedule)
        → (set_paused id paused a).limits ≡ a.limits }
{}

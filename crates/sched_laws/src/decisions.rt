//! Laws of decisions: what they look at, and in which order they may be made.
ghost use Rattle.std.specs.Prelude.{◌≡◌, ℕ, Bool, ◌&&◌, ◌==◌, cond, List, map, None, Some, true, false};
ghost use Rattle.dag_check.specs.Graphs.{ups};
ghost use Rattle.sched_model.specs.instance_machine.Instances.{InstanceValue};
ghost use Rattle.sched_model.specs.Schedule.{Schedule, dag_named};
ghost use Rattle.sched_model.specs.sched_state.declared.runs.Run.{Run};
ghost use Rattle.sched_model.specs.States.{state_at};
ghost use Rattle.sched_model.specs.Settle.{upstream_states};
ghost use Rattle.sched_model.specs.Handout.{in_instance};
ghost use Rattle.sched_model.specs.NamedRuns.{NamedRun, add_runs};
ghost use Rattle.sched_model.specs.Sound.{IsSound};
ghost use Rattle.sched_laws.specs.Sweep.{decide_one, decide_all, decision, decision_in, change_at, put, looks, Before, IsClean, Covers, NoneBefore, without, marked, touched, sweep};

/// A decision looks at the states of its upstreams in its run and, where the task depends on its past, at the same task's
/// state in the run before. A change of one instance, whatever it is, leaves each other decision that does not look at it as it
/// was. What looks at a position stands after it, and what is decided is decided once.
pub fn decisions_look_back()
    ensures unlooked { (a : Schedule) (g : InstanceValue → InstanceValue) (n p m q : ℕ)
        → looks a m q n p ≡ false → (m == n && q == p) ≡ false
        → decision (change_at g n p a) m q ≡ decision a m q }
    ensures later { (a : Schedule) (m q n p : ℕ) → IsSound a → looks a m q n p ≡ true
        → Before n p m q }
    ensures once { (a : Schedule) (n p : ℕ) (j : InstanceValue) → decision a n p ≡ Some j
        → decision (put j n p a) n p ≡ None }
{}

/// The first decision is the one at the first position at which one is possible, and one sweep over all positions from
/// left to right makes all of them.
pub fn decisions_are_one_sweep()
    ensures first { (a : Schedule) (n p : ℕ) (j : InstanceValue) → IsClean n p a
        → decision a n p ≡ Some j → decide_one a ≡ Some (put j n p a) }
    ensures none { (a : Schedule) → ((n p : ℕ) → decision a n p ≡ None) → decide_one a ≡ None }
    ensures sweep { (a : Schedule) → IsSound a → sweep a ≡ decide_all a }
{}

/// A set of dirty positions that covers the possible decisions is kept so: where the least of them is taken out, and what
/// looks at it is marked if it was decided, all decisions are made as they come from the list; and a change of an
/// instance marks it and what looks at it.
pub fn dirty_positions_are_enough()
    ensures least { (dirty : ℕ → ℕ → Bool) (a : Schedule) (n p : ℕ) → Covers dirty a
        → NoneBefore dirty n p → IsClean n p a }
    ensures over { (dirty : ℕ → ℕ → Bool) (a : Schedule) (n p : ℕ) → Covers dirty a
        → decision a n p ≡ None → Covers (without n p dirty) a }
    ensures marks { (dirty : ℕ → ℕ → Bool) (a : Schedule) (n p : ℕ) (j : InstanceValue)
        → Covers dirty a → decision a n p ≡ Some j → Covers (marked a n p dirty) (put j n p a) }
    ensures goes { (a : Schedule) (n p : ℕ) (j : InstanceValue) → IsClean n p a
        → decision a n p ≡ Some j → decide_all a ≡ decide_all (put j n p a) }
    ensures ends { (a : Schedule) → ((n p : ℕ) → decision a n p ≡ None) → decide_all a ≡ a }
    ensures changed { (dirty : ℕ → ℕ → Bool) (a : Schedule) (g : InstanceValue → InstanceValue)
        (n p : ℕ) → Covers dirty a → Covers (touched a n p dirty) (change_at g n p a) }
{}

/// After a change of one instance a place of its run sees each upstream as before, but for that one's new state.
pub fn upstreams_are_exchanged()
    ensures { (a : Schedule) (g : InstanceValue → InstanceValue) (n p q : ℕ) (r : Run)
        → upstream_states (change_at g n p a) (in_instance g p r) q
        ≡ map (λ u. cond (u == p) (state_at a (in_instance g p r) p) (state_at a r u))
        (ups (dag_named a r.graph) q) }
{}

/// New runs enable no decision in a run that is there.
pub fn new_runs_enable_nothing()
    ensures { (ns : List NamedRun) (a : Schedule) (r : Run) (q : ℕ) (j : InstanceValue)
        → decision_in (add_runs ns a) q r ≡ Some j → decision_in a q r ≡ Some j }
{}

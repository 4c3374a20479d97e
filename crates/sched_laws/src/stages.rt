//! Laws of the stages of settling: decisions, ends, starts.
ghost use Rattle.std.specs.Prelude.{◌≡◌, ℕ, Bool, ◌==◌, List, None, Some, false, slice_get};
ghost use Rattle.sched_model.specs.instance_machine.Instances.{InstanceValue};
ghost use Rattle.sched_model.specs.sched_state.declared.runs.RunPhase.{RunPhase};
ghost use Rattle.sched_model.specs.Schedule.{Schedule, is_running};
ghost use Rattle.sched_model.specs.sched_state.declared.runs.Run.{Run};
ghost use Rattle.sched_model.specs.Settle.{settle, finish_run, start_run};
ghost use Rattle.sched_model.specs.Sound.{IsSound};
ghost use Rattle.sched_laws.specs.Sweep.{decide_one, decide_all, decision, change_at, sweep};
ghost use Rattle.sched_laws.specs.Stages.{finish_one, start_one, finish_every, phase_at, AllEnded, Started, CoversEnds, CoversStarts, also_run, also_graph};

/// Settling goes by stages: all decisions, then all ends, which enable no decision, then the first start, and again.
pub fn settling_goes_by_stages()
    ensures decides { (a : Schedule) → settle a ≡ settle (decide_all a) }
    ensures ends { (a : Schedule) → decide_one a ≡ None → AllEnded a (finish_every a) }
    ensures swept { (a : Schedule) → IsSound a → AllEnded a (finish_every (sweep a)) }
    ensures starts { (a b : Schedule) → decide_one a ≡ None → finish_one a ≡ None
        → start_one a ≡ Some b → settle a ≡ settle b }
    ensures still { (a : Schedule) → decide_one a ≡ None → finish_one a ≡ None → start_one a ≡ None
        → settle a ≡ a }
    ensures first { (a b : Schedule) → start_one a ≡ Some b → (n : ℕ) × Started a n b }
{}

/// Who looks at a run's phase: no decision in another run, and no end of another run. After a change of it decisions are possible
/// in that run alone, and none where it is not running.
pub fn phases_are_looked_at_by_their_runs()
    ensures decisions { (a : Schedule) (ph : RunPhase) (n m q : ℕ) → (m == n) ≡ false
        → decision (phase_at ph n a) m q ≡ decision a m q }
    ensures covers { (a : Schedule) (ph : RunPhase) (n m q : ℕ) (j : InstanceValue)
        → decide_one a ≡ None → decision (phase_at ph n a) m q ≡ Some j → m ≡ n }
    ensures quiet { (a : Schedule) (ph : RunPhase) (n : ℕ) → is_running ph ≡ false
        → decide_one a ≡ None → decide_one (phase_at ph n a) ≡ None }
    ensures ends { (a b : Schedule) (r : Run) → a.graphs ≡ b.graphs
        → finish_run a r ≡ finish_run b r }
{}

/// A change of an instance or of a phase marks that run for its end; a change of an instance enables no start, and a
/// change of a phase only starts of its graph.
pub fn marked_runs_are_enough()
    ensures end_by_instance { (marked : ℕ → Bool) (a : Schedule) (g : InstanceValue → InstanceValue)
        (n p : ℕ) → CoversEnds marked a → CoversEnds (also_run n marked) (change_at g n p a) }
    ensures end_by_phase { (marked : ℕ → Bool) (a : Schedule) (ph : RunPhase) (n : ℕ)
        → CoversEnds marked a → CoversEnds (also_run n marked) (phase_at ph n a) }
    ensures start_by_instance { (a : Schedule) (g : InstanceValue → InstanceValue) (n p : ℕ)
        (r : Run) → start_run (change_at g n p a) r ≡ start_run a r }
    ensures start_by_phase { (marked : List ℕ → Bool) (a : Schedule) (ph : RunPhase) (n : ℕ)
        (w : Run) → slice_get a.runs n ≡ Some w → CoversStarts marked a
        → CoversStarts (also_graph w.graph marked) (phase_at ph n a) }
{}

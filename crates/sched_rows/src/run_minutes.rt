//! Which of the events that a run accepts are its own, a worker's, or a line's.
ghost use Rattle.std.specs.Prelude.{◌≡◌, [], ◌∷◌, true, false, codes, length};
ghost use Rattle.instance_machine.specs.declared.tries.Stage.TheVariants.{Started};
ghost use Rattle.sched_events.specs.declared.events.Event.TheVariants.{Tick, Restart, Report, Pause};
ghost use Rattle.minutes.specs.Minutes.{is_restart, of_lines, of_worker, reports_in};

/// A restart is the run's own, a report a worker's, and each other event is named by a line.
pub fn events_of_a_run_are_told_apart()
    ensures restart { is_restart (Restart 3) ≡ true }
    ensures tick { is_restart (Tick 60) ≡ false }
    ensures report { is_restart (Report 1 Started) ≡ false }
    ensures lines { of_lines (Restart 3 ∷ Tick 60 ∷ Report 1 Started ∷ Pause (codes "g") ∷ []) ≡ Tick 60 ∷ Pause (codes "g") ∷ [] }
    ensures reports { length (reports_in (Restart 3 ∷ Tick 60 ∷ Report 1 Started ∷ [])) ≡ 1 }
    ensures its_own { length (of_worker (1 ∷ 2 ∷ []) (Report 1 Started ∷ Report 3 Started ∷ [])) ≡ 1 }
{}

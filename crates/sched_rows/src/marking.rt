//! Passing tasks of one run over.
ghost use Rattle.std.specs.Prelude.{◌≡◌, [], ◌∷◌, codes, map, true, false, Some, None};
ghost use Rattle.trigger_rules.specs.declared.states.State.TheVariants as state;
ghost use Rattle.instance_machine.specs.declared.tries.Outcome.TheVariants as outcome;
ghost use Rattle.sched_state.specs.declared.jobs.Job.{Job};
ghost use Rattle.sched_state.specs.declared.runs.RunPhase.TheVariants as phase;
ghost use Rattle.sched_model.specs.Jobs.{handed};
ghost use Rattle.sched_model.specs.Rows.{a_day, all_of, all_states, clears, does, first_failed, phases, told_between, two_days};
ghost use Rattle.sched_events.specs.Causes.{refused};
ghost use Rattle.sched_events.specs.declared.events.Event.TheVariants.{Mark};
ghost use Rattle.sched_events.specs.declared.refusals.Refusal.TheVariants.{InFlight, UnknownGraph, UnknownRun, UnknownTask};
ghost use Rattle.sched_rows.specs.Days.{chain_done, chain_failed, chain_of_rules, half_done, marked, one_and_one_queued};

/// What is marked is skipped. What failed after it is decided anew by its rule, and the run ends anew: a task that wants all successes is skipped
/// too, and one that wants no failure runs. What failed elsewhere stays as it is, and so does what was a success.
pub fn a_mark_passes_over_and_lets_go_on()
    ensures failed { all_states chain_failed
        ≡ (state.Failed ∷ state.UpstreamFailed ∷ state.UpstreamFailed ∷ state.Success ∷ []) ∷ [] }
    ensures first { all_states (marked 0 (codes "a") chain_failed)
        ≡ (state.Skipped ∷ state.Skipped ∷ state.Skipped ∷ state.Success ∷ []) ∷ [] }
    ensures run { phases (marked 0 (codes "a") chain_failed) ≡ phase.Success ∷ [] }
    ensures quiet { told_between chain_failed (marked 0 (codes "a") chain_failed) ≡ [] }
    ensures second { all_states (marked 0 (codes "b") chain_failed)
        ≡ (state.Failed ∷ state.Skipped ∷ state.Skipped ∷ state.Success ∷ []) ∷ [] }
    ensures last { all_states (marked 0 (codes "c") chain_failed)
        ≡ (state.Failed ∷ state.UpstreamFailed ∷ state.Skipped ∷ state.Success ∷ []) ∷ [] }
    ensures by_rule { told_between chain_of_rules (marked 0 (codes "a") chain_of_rules) ≡ (2, codes "g", 0, codes "b") ∷ [] }
    ensures goes_on { phases (marked 0 (codes "a") chain_of_rules) ≡ phase.Running ∷ [] }
    ensures success { all_states (marked 0 (codes "b") chain_done)
        ≡ (state.Success ∷ state.Skipped ∷ state.Success ∷ state.Success ∷ []) ∷ [] }
    ensures ends { phases (marked 0 (codes "b") chain_done) ≡ phase.Success ∷ [] }
{}

/// The next day of a task that depends on its past is handed out, and a clear of the day takes the mark back: the task is tried, with the number that
/// follows. A run that is queued stays so.
pub fn a_mark_opens_the_past_and_a_clear_takes_it_back()
    ensures failed { all_states first_failed ≡ (state.Failed ∷ []) ∷ (state.None ∷ []) ∷ [] }
    ensures opened { all_states (marked 1704067200 (codes "t") first_failed)
        ≡ (state.Skipped ∷ []) ∷ (state.Queued ∷ []) ∷ [] }
    ensures second { told_between first_failed (marked 1704067200 (codes "t") first_failed)
        ≡ (2, codes "g", 1704153600, codes "t") ∷ [] }
    ensures back { told_between (marked 1704067200 (codes "t") first_failed)
        (clears (all_of 1704067200) (marked 1704067200 (codes "t") first_failed))
        ≡ (3, codes "g", 1704067200, codes "t") ∷ [] }
    ensures number { map (λ (j : Job). j.try_number) (handed (marked 1704067200 (codes "t") first_failed)
        (clears (all_of 1704067200) (marked 1704067200 (codes "t") first_failed))) ≡ 2 ∷ [] }
    ensures queued { phases (marked a_day (codes "t") one_and_one_queued) ≡ phase.Running ∷ phase.Queued ∷ [] }
    ensures skipped { all_states (marked a_day (codes "t") one_and_one_queued)
        ≡ (state.Queued ∷ []) ∷ (state.Skipped ∷ []) ∷ [] }
    ensures after_the_other { phases (does 1 outcome.Success (marked a_day (codes "t") one_and_one_queued))
        ≡ phase.Success ∷ phase.Success ∷ [] }
{}

/// A mark is refused of a graph, a task and a run that are not there, and of a task with a try without an end in its run.
pub fn marks_are_refused()
    ensures graph { refused chain_done (Mark (codes "h") 0 (codes "x")) ≡ Some UnknownGraph }
    ensures task { refused chain_done (Mark (codes "g") 1 (codes "x")) ≡ Some UnknownTask }
    ensures run { refused chain_done (Mark (codes "g") 1 (codes "b")) ≡ Some UnknownRun }
    ensures in_flight { refused half_done (Mark (codes "g") 0 (codes "b")) ≡ Some (InFlight 2) }
    ensures ended { refused half_done (Mark (codes "g") 0 (codes "a")) ≡ None }
    ensures undecided { refused two_days (Mark (codes "g") 1704153600 (codes "t")) ≡ None }
    ensures waits { refused two_days (Mark (codes "g") 1704067200 (codes "t")) ≡ Some (InFlight 1) }
    ensures finished { refused chain_failed (Mark (codes "g") 0 (codes "c")) ≡ None }
{}

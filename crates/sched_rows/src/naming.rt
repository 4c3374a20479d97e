//! The runs that are named by a tick, by hand and by a backfill.
ghost use Rattle.std.specs.Prelude.{◌≡◌, [], ◌∷◌, codes, map, true, false, Some, None};
ghost use Rattle.sched_state.specs.declared.runs.RunKind.TheVariants.{Scheduled, Manual, Backfill};
ghost use Rattle.sched_model.specs.NamedRuns.{NamedRun, named_by_tick, named_by_hand, named_by_backfill, present_in, leaves_more, runs_per_tick};
ghost use Rattle.sched_model.specs.Changes.{set_paused};
ghost use Rattle.sched_model.specs.Rows.{holding, tick, with_lanes, one_task};
ghost use Rattle.sched_rows.specs.Days.{once, once_from, at_moment, named};

/// A graph of `@once` has its run when its start has come, once; a paused one, or one whose end is before its start, has none.
#[tactic(auto, unfolding(run_planner::specs::Due::due_intervals))]
pub fn a_tick_names_what_is_due()
    ensures early { map named (named_by_tick once 999) ≡ [] }
    ensures due { map named (named_by_tick once 1000) ≡ (codes "o", 1000, 1000, 1000) ∷ [] }
    ensures late { map named (named_by_tick once 5000) ≡ (codes "o", 1000, 1000, 1000) ∷ [] }
    ensures scheduled { map (λ (n : NamedRun). n.kind) (named_by_tick once 1000) ≡ Scheduled ∷ [] }
    ensures there { map named (named_by_tick (tick (named_by_tick once 1000) 1000 (with_lanes 1 once)) 1000) ≡ [] }
    ensures paused { map named (named_by_tick (set_paused (codes "o") true once) 1000) ≡ [] }
    ensures over { map named (named_by_tick (holding (once_from (codes "o") (Some 999) false ∷ [])) 1000) ≡ [] }
    ensures up_to { map named (named_by_tick (holding (once_from (codes "o") (Some 1000) false ∷ [])) 1000) ≡ (codes "o", 1000, 1000, 1000) ∷ [] }
    ensures each { map named (named_by_tick (holding (once_from (codes "o") None false ∷ once_from (codes "p") None true ∷ once_from (codes "q") None false ∷ [])) 1000)
        ≡ (codes "o", 1000, 1000, 1000) ∷ (codes "q", 1000, 1000, 1000) ∷ [] }
    ensures no_more { leaves_more once 1000 ≡ false }
    ensures most { runs_per_tick ≡ 10 }
{}

/// A run by hand is of the moment, a graph without a cron expression gives it the empty interval there.
pub fn a_run_by_hand_is_of_the_moment()
    ensures once { map named (named_by_hand (at_moment 4321 once) (codes "o")) ≡ (codes "o", 4321, 4321, 4321) ∷ [] }
    ensures never { map named (named_by_hand (at_moment 4321 (holding (one_task ∷ []))) (codes "one")) ≡ (codes "one", 4321, 4321, 4321) ∷ [] }
    ensures manual { map (λ (n : NamedRun). n.kind) (named_by_hand (at_moment 4321 once) (codes "o")) ≡ Manual ∷ [] }
{}

/// A backfill names what its span has, where it has ended and has no run; the dates of what has one are told apart.
#[tactic(auto, unfolding(run_planner::specs::Due::due_intervals))]
pub fn a_backfill_names_a_span()
    ensures inside { map named (named_by_backfill (at_moment 2000 once) (codes "o") 1000 1000) ≡ (codes "o", 1000, 1000, 1000) ∷ [] }
    ensures before { map named (named_by_backfill (at_moment 2000 once) (codes "o") 0 999) ≡ [] }
    ensures behind { map named (named_by_backfill (at_moment 2000 once) (codes "o") 1001 2000) ≡ [] }
    ensures early { map named (named_by_backfill (at_moment 999 once) (codes "o") 0 2000) ≡ [] }
    ensures kind { map (λ (n : NamedRun). n.kind) (named_by_backfill (at_moment 2000 once) (codes "o") 1000 1000) ≡ Backfill ∷ [] }
    ensures there { map named (named_by_backfill (tick (named_by_tick once 1000) 2000 (with_lanes 1 once)) (codes "o") 1000 1000) ≡ [] }
    ensures present { present_in (tick (named_by_tick once 1000) 2000 (with_lanes 1 once)) (codes "o") 1000 1000 ≡ 1000 ∷ [] }
    ensures none_present { present_in (at_moment 2000 once) (codes "o") 1000 1000 ≡ [] }
{}

//! Intervals between ticks, and which of them a graph's runs are for, as Airflow 2's page 'DAG Runs' has it.
ghost use Rattle.std.specs.Prelude.{◌≡◌, [], ◌∷◌, true, false, Some, None, Ok, Err};
ghost use Rattle.run_planner.specs.Due.{neighbours, considered, without_runs, is_up_to, starts_rise};
ghost use Rattle.run_planner.specs.Spans.{with_runs, starts};
ghost use Rattle.run_planner.specs.ByHand.{the_interval, by_hand};
ghost use Rattle.run_planner.specs.declared.by_hand.PlanFault.TheVariants.{RunExists, NoInterval};
ghost use Rattle.sched_rows.specs.EachMinute.{minute, three_minutes, minutely};

/// An interval goes from one tick to the next.
pub fn ticks_bound_intervals()
    ensures intervals { neighbours (60 ∷ 120 ∷ 180 ∷ []) ≡ minute 60 ∷ minute 120 ∷ [] }
    ensures one_tick { neighbours (60 ∷ []) ≡ [] }
{}

/// With catchup each interval that has ended is considered, without it the last one; those with a run are left out, and those past the last date.
pub fn intervals_are_considered()
    ensures catchup { considered true three_minutes ≡ three_minutes }
    ensures latest { considered false three_minutes ≡ minute 180 ∷ [] }
    ensures none { considered false [] ≡ [] }
    ensures without { without_runs (120 ∷ []) three_minutes ≡ minute 60 ∷ minute 180 ∷ [] }
    ensures with { with_runs (120 ∷ 7 ∷ []) three_minutes ≡ minute 120 ∷ [] }
    ensures starts { starts three_minutes ≡ 60 ∷ 120 ∷ 180 ∷ [] }
    ensures open_end { is_up_to None 7 ≡ true }
    ensures last_date { is_up_to (Some 7) 7 ≡ true }
    ensures past_it { is_up_to (Some 6) 7 ≡ false }
    ensures rise { starts_rise three_minutes ≡ true }
    ensures stand { starts_rise (minute 60 ∷ minute 60 ∷ []) ≡ false }
    ensures fall { starts_rise (minute 120 ∷ minute 60 ∷ []) ≡ false }
{}

/// A run by hand needs an interval, and a date that no run has.
pub fn a_run_by_hand_may_be_refused()
    ensures exists { by_hand minutely 120 (120 ∷ []) ≡ Err RunExists }
    ensures no_interval { the_interval [] ≡ Err NoInterval }
    ensures interval { the_interval three_minutes ≡ Ok (minute 60) }
{}

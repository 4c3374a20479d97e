//! What is found in a schedule, and what is said of a graph that it has not.
ghost use Rattle.std.specs.Prelude.{◌≡◌, ◌+◌, [], ◌∷◌, codes, true, false, nat_le, nat_lt};
ghost use Rattle.sched_state.specs.declared.runs.RunKind.TheVariants.{Scheduled};
ghost use Rattle.sched_state.specs.declared.runs.RunPhase.TheVariants as phase;
ghost use Rattle.sched_model.specs.Lists.{all_pairs, rises};
ghost use Rattle.sched_model.specs.NamedRuns.{is_for, run_from};
ghost use Rattle.sched_model.specs.Rows.{a_day};
ghost use Rattle.sched_model.specs.Schedule.{dag_named, dates_of, has_run_at, has_runs, is_ended, is_paused, is_queued, is_running, max_active_runs_of};
ghost use Rattle.sched_rows.specs.Days.{a_and_c, three_days_done, two_days_on};

/// A run is found by its graph and its logical date, both of them; a graph has those that are its own.
pub fn runs_are_found_by_graph_and_date()
    ensures there { has_run_at three_days_done (codes "g") a_day ≡ true }
    ensures another_date { has_run_at three_days_done (codes "g") (a_day + 1) ≡ false }
    ensures another_graph { has_run_at three_days_done (codes "x") a_day ≡ false }
    ensures has { has_runs three_days_done (codes "h") ≡ true }
    ensures has_not { has_runs three_days_done (codes "x") ≡ false }
    ensures dates { dates_of three_days_done (codes "h") ≡ 0 ∷ a_day ∷ two_days_on ∷ [] }
{}

/// The logical date of a run is the start of its interval; it is named by its graph and that date, both of them.
pub fn a_run_is_of_the_start_of_its_interval()
    ensures date { (run_from Scheduled (codes "g") (record { start = 0; end = a_day })).logical ≡ 0 }
    ensures end { (run_from Scheduled (codes "g") (record { start = 0; end = a_day })).interval.end ≡ a_day }
    ensures named { is_for (codes "g") 0 (run_from Scheduled (codes "g") (record { start = 0; end = a_day })) ≡ true }
    ensures another_date { is_for (codes "g") a_day (run_from Scheduled (codes "g") (record { start = 0; end = a_day })) ≡ false }
    ensures another_graph { is_for (codes "x") 0 (run_from Scheduled (codes "g") (record { start = 0; end = a_day })) ≡ false }
{}

/// Lists are compared element by element, and are of one length; a list rises where each element stands before all after it.
pub fn lists_are_compared_element_by_element()
    ensures same { all_pairs nat_le (1 ∷ 2 ∷ []) (1 ∷ 2 ∷ []) ≡ true }
    ensures first { all_pairs nat_le (3 ∷ 2 ∷ []) (1 ∷ 2 ∷ []) ≡ false }
    ensures longer { all_pairs nat_le (1 ∷ 2 ∷ []) (1 ∷ []) ≡ false }
    ensures shorter { all_pairs nat_le (1 ∷ []) (1 ∷ 2 ∷ []) ≡ false }
    ensures rising { rises nat_lt (1 ∷ 2 ∷ 3 ∷ []) ≡ true }
    ensures not_at_the_end { rises nat_lt (1 ∷ 3 ∷ 2 ∷ []) ≡ false }
    ensures not_at_first { rises nat_lt (3 ∷ 1 ∷ 2 ∷ []) ≡ false }
{}

/// A graph that is not there is not paused, may have no run running, and has no task.
pub fn a_graph_that_is_not_there_has_nothing()
    ensures paused { is_paused a_and_c (codes "c") ≡ true }
    ensures not_paused { is_paused a_and_c (codes "a") ≡ false }
    ensures missing { is_paused a_and_c (codes "x") ≡ false }
    ensures runs { max_active_runs_of a_and_c (codes "x") ≡ 0 }
    ensures tasks { (dag_named a_and_c (codes "x")).tasks ≡ [] }
{}

/// A run is queued, or running, or has ended.
pub fn a_run_is_in_one_phase()
    ensures queued { is_queued phase.Queued ∷ is_running phase.Queued ∷ is_ended phase.Queued ∷ [] ≡ true ∷ false ∷ false ∷ [] }
    ensures running { is_queued phase.Running ∷ is_running phase.Running ∷ is_ended phase.Running ∷ [] ≡ false ∷ true ∷ false ∷ [] }
    ensures success { is_queued phase.Success ∷ is_running phase.Success ∷ is_ended phase.Success ∷ [] ≡ false ∷ false ∷ true ∷ [] }
    ensures failed { is_queued phase.Failed ∷ is_running phase.Failed ∷ is_ended phase.Failed ∷ [] ≡ false ∷ false ∷ true ∷ [] }
{}

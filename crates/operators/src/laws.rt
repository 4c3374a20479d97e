//! Laws of the outcomes and of the logs.
ghost use Rattle.std.specs.Prelude.{◌≡◌, ℕ, ◌<◌, ◌≤◌, ◌+◌, ◌-◌, List, [], length, true, IsSome, Some, slice_index_or};
ghost use Rattle.graph_file.specs.Operators.{are_statuses, status_of};
ghost use Rattle.sched_state.specs.declared.jobs.Job.{Job};
ghost use Rattle.operators.specs.Logs.{IsNamed, IsSameTry, log_path};
ghost use Rattle.operators.specs.Outcomes.{exit_outcome, status_outcome, text_of_try};

/// A task of `exit` has a status for each try, so that each ends as a status says: the first as the first says, and so on, and those
/// after the last as the last says.
pub fn each_try_of_exit_has_a_status()
    ensures status { (argv : List (List ℕ)) (n : ℕ) → are_statuses argv ≡ true
        → IsSome (status_of (text_of_try argv n)) }
    ensures outcome { (argv : List (List ℕ)) (n status : ℕ)
        → status_of (text_of_try argv n) ≡ Some status → exit_outcome argv n ≡ status_outcome status }
    ensures own { (argv : List (List ℕ)) (n : ℕ) → n < length argv
        → text_of_try argv (n + 1) ≡ slice_index_or argv n [] }
    ensures last { (argv : List (List ℕ)) (n : ℕ) → length argv ≤ n
        → text_of_try argv n ≡ slice_index_or argv (length argv - 1) [] }
{}

/// Two tries with one log under a folder are one: the same number of the same task of the same run of the same graph.
pub fn each_try_has_a_log_of_its_own()
    ensures { (base : List ℕ) (a b : Job) → IsNamed a → IsNamed b
        → log_path base a ≡ log_path base b → IsSameTry a b }
{}

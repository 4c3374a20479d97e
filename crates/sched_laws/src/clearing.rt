//! Laws of clearing: what a clear leaves as it is, and what it makes of the instances that it names (Airflow 2, "DAG Runs": re-run
//! tasks).
ghost use Rattle.std.specs.Prelude.{◌≡◌, ℕ, [], None, Some, Option, true, false, slice_get, option_and_then, option_map};
ghost use Rattle.graph_file.specs.declared.task_specs.TaskSpec.{TaskSpec};
ghost use Rattle.sched_model.specs.instance_machine.Instances.{InstanceValue, recent};
ghost use Rattle.sched_model.specs.instance_machine.States.{state_of, has_retry};
ghost use Rattle.sched_model.specs.Clearing.{Selection, cleared, requeued, set_named, set_to};
ghost use Rattle.sched_model.specs.Schedule.{Schedule, tasks_of};
ghost use Rattle.sched_model.specs.sched_state.declared.runs.Run.{Run};
ghost use Rattle.sched_model.specs.trigger_rules.declared.states.State.TheVariants as state;
ghost use Rattle.sched_model.specs.trigger_rules.declared.verdicts.Verdict.{Verdict};
ghost use Rattle.sched_laws.specs.Repairs.{instance_at};

/// What sets instances, as a clear does to no verdict and a mark to a skip, touches those that it names and no other.
pub fn what_is_named_is_set()
    ensures named { (v : Option Verdict) (named : Selection) (a : Schedule) (n p : ℕ) (r : Run) (t : TaskSpec)
        (i : InstanceValue) → slice_get a.runs n ≡ Some r → slice_get (tasks_of a r) p ≡ Some t
        → slice_get r.instances p ≡ Some i → named r p (t, i) ≡ true
        → instance_at (set_named v named a) n p ≡ Some (set_to v i) }
    ensures others { (v : Option Verdict) (named : Selection) (a : Schedule) (n p : ℕ) (r : Run) (t : TaskSpec)
        (i : InstanceValue) → slice_get a.runs n ≡ Some r → slice_get (tasks_of a r) p ≡ Some t
        → slice_get r.instances p ≡ Some i → named r p (t, i) ≡ false
        → instance_at (set_named v named a) n p ≡ Some i }
{}

/// An instance that was set back has the state none, keeps its tries, so that their numbers go on, and may have all of its tries anew.
pub fn what_is_set_back_starts_anew()
    ensures state { (t : TaskSpec) (i : InstanceValue) → state_of t (cleared i) ≡ state.None }
    ensures kept { (i : InstanceValue) → (cleared i).tries ≡ i.tries }
    ensures anew { (i : InstanceValue) → recent (cleared i) ≡ [] }
    ensures allowed { (t : TaskSpec) (i : InstanceValue) → has_retry t (cleared i) ≡ true }
{}

/// So a run of which an instance is named is queued where it was finished, and a run of which none is named stays as it is. No run goes, and
/// none changes its graph, its dates or how it came to be.
pub fn finished_runs_are_queued()
    ensures queued { (v : Option Verdict) (named : Selection) (a : Schedule) (n p : ℕ) (r : Run) (t : TaskSpec)
        (i : InstanceValue) → slice_get a.runs n ≡ Some r → slice_get (tasks_of a r) p ≡ Some t
        → slice_get r.instances p ≡ Some i → named r p (t, i) ≡ true
        → option_map (λ (q : Run). q.phase) (slice_get (set_named v named a).runs n)
        ≡ Some (requeued r.phase) }
    ensures untouched { (v : Option Verdict) (named : Selection) (a : Schedule) (n : ℕ) (r : Run)
        → slice_get a.runs n ≡ Some r
        → ((p : ℕ) (t : TaskSpec) (i : InstanceValue) → slice_get (tasks_of a r) p ≡ Some t
        → slice_get r.instances p ≡ Some i → named r p (t, i) ≡ false)
        → slice_get (set_named v named a).runs n ≡ Some r }
{}

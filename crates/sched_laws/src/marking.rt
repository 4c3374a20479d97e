//! Laws of marking: what becomes of a task of one run that an operator passes over (Airflow 2, where its state is set to skipped), and of
//! what failed after it.
ghost use Rattle.std.specs.Prelude.{◌≡◌, ℕ, List, None, Some, false, true, not, ◌&&◌, slice_get};
ghost use Rattle.graph_file.specs.declared.task_specs.TaskSpec.{TaskSpec};
ghost use Rattle.sched_model.specs.instance_machine.Instances.{InstanceValue};
ghost use Rattle.sched_model.specs.instance_machine.States.{state_of};
ghost use Rattle.sched_model.specs.trigger_rules.declared.states.State.TheVariants as state;
ghost use Rattle.sched_model.specs.sched_state.declared.runs.Run.{Run};
ghost use Rattle.sched_model.specs.Causes.{least_in_flight};
ghost use Rattle.sched_model.specs.Clearing.{cleared, cleared_by};
ghost use Rattle.sched_model.specs.Marking.{failed_after, mark, one_of, passed_over};
ghost use Rattle.sched_model.specs.Schedule.{Schedule, tasks_of};
ghost use Rattle.sched_model.specs.Sound.{IsSound};
ghost use Rattle.sched_model.specs.States.{open_tries};
ghost use Rattle.sched_laws.specs.Repairs.{instance_at};
ghost use Rattle.sched_laws.specs.Runs.{runs_named};

/// The task that is marked is skipped in its run, and keeps its tries; a clear takes it back, and leaves nothing of the mark. What failed
/// after it is set back, and no other instance is touched.
pub fn what_is_marked_is_skipped()
    ensures skipped { (t : TaskSpec) (i : InstanceValue) → state_of t (passed_over i) ≡ state.Skipped }
    ensures kept { (i : InstanceValue) → (passed_over i).tries ≡ i.tries }
    ensures back { (i : InstanceValue) → cleared (passed_over i) ≡ cleared i }
    ensures marked { (id : List ℕ) (date : ℕ) (task : List ℕ) (a : Schedule) (n p : ℕ) (r : Run)
        (t : TaskSpec) (i : InstanceValue) → slice_get a.runs n ≡ Some r
        → slice_get (tasks_of a r) p ≡ Some t → slice_get r.instances p ≡ Some i
        → cleared_by a (one_of id date task) r p (t, i) ≡ true
        → instance_at (mark id date task a) n p ≡ Some (passed_over i) }
    ensures after { (id : List ℕ) (date : ℕ) (task : List ℕ) (a : Schedule) (n p : ℕ) (r : Run)
        (t : TaskSpec) (i : InstanceValue) → slice_get a.runs n ≡ Some r
        → slice_get (tasks_of a r) p ≡ Some t → slice_get r.instances p ≡ Some i
        → cleared_by a (one_of id date task) r p (t, i) ≡ false
        → cleared_by a (failed_after id date task) r p (t, i) ≡ true
        → instance_at (mark id date task a) n p ≡ Some (cleared i) }
    ensures others { (id : List ℕ) (date : ℕ) (task : List ℕ) (a : Schedule) (n p : ℕ) (r : Run)
        (t : TaskSpec) (i : InstanceValue) → slice_get a.runs n ≡ Some r
        → slice_get (tasks_of a r) p ≡ Some t → slice_get r.instances p ≡ Some i
        → cleared_by a (one_of id date task) r p (t, i) ≡ false
        → cleared_by a (failed_after id date task) r p (t, i) ≡ false
        → instance_at (mark id date task a) n p ≡ Some i }
{}

/// Where the task has no try without an end in its run, a mark keeps a sound schedule sound. What it sets back after it has none, since
/// it failed.
pub fn marking_keeps_soundness()
    ensures { (id : List ℕ) (date : ℕ) (task : List ℕ) (a : Schedule)
        → least_in_flight a (cleared_by a (one_of id date task)) ≡ None → IsSound a
        → IsSound (mark id date task a) }
{}

/// No run goes or comes, and the tries without an end stay as they are.
pub fn marking_keeps_the_runs_and_tries()
    ensures runs { (id : List ℕ) (date : ℕ) (task : List ℕ) (a : Schedule)
        → runs_named (mark id date task a) ≡ runs_named a }
    ensures open { (id : List ℕ) (date : ℕ) (task : List ℕ) (a : Schedule)
        → open_tries (mark id date task a) ≡ open_tries a }
{}

//! Laws of the states.
ghost use Rattle.std.specs.Prelude.{◌≡◌, ◌<◌, ◌≤◌, ◌⊎◌, length, Some};
ghost use Rattle.graph_file.specs.declared.task_specs.TaskSpec.{TaskSpec};
ghost use Rattle.trigger_rules.specs.declared.states.State.TheVariants as state;
ghost use Rattle.instance_machine.specs.Instances.{InstanceValue, last_of, recent};
ghost use Rattle.instance_machine.specs.States.{state_of};
ghost use Rattle.instance_machine.specs.declared.tries.Try.{Try};
ghost use Rattle.instance_machine.specs.declared.tries.End.{End};
ghost use Rattle.instance_machine.specs.declared.tries.Outcome.TheVariants as outcome;

/// A task has `1 + retries` tries since its last clearing: where the last of them failed or was lost, it is up for retry while
/// there were no more than `retries`, and failed after that.
pub fn failures_are_tried_again()
    ensures again { (t : TaskSpec) (i : InstanceValue) (last : Try) (e : End)
        → last_of (recent i) ≡ Some last → last.ended ≡ Some e
        → (e.outcome ≡ outcome.Failed) ⊎ (e.outcome ≡ outcome.Lost) → length (recent i) ≤ t.retries
        → state_of t i ≡ state.UpForRetry }
    ensures never { (t : TaskSpec) (i : InstanceValue) (last : Try) (e : End)
        → last_of (recent i) ≡ Some last → last.ended ≡ Some e
        → (e.outcome ≡ outcome.Failed) ⊎ (e.outcome ≡ outcome.Lost) → t.retries < length (recent i)
        → state_of t i ≡ state.Failed }
{}

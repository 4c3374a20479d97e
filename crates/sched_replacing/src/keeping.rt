//! What becomes of one task instance.
ghost use Rattle.std.specs.Prelude.{◌≡◌, IfOk};
ghost use Rattle.trigger_rules.specs.States.{is_failed};
ghost use Rattle.sched_model.specs.Replacing as model;

use graph_file::TaskSpec;
use instance_machine::Instance;
use sched_state::RunPhase;
use std::alloc::{AllocError, Global};
use trigger_rules::{State, Verdict};

// Whether the state is failed.
fn is_failed(state: State) -> bool
    ensures { result ≡ is_failed state }
{
    matches!(state, State::Failed)
}

// The instance, of whose tries no more count than this task may have.
fn bounded_to(alloc: Global, task: &TaskSpec, instance: &Instance) -> Result<Instance, AllocError>
    ensures { IfOk result (λ i. i ≡ model.bounded_to task.now.retries instance.now) }
{
    let mut bounded = instance.copy(alloc)?;
    bounded.count_at_most(1 + task.retries.get() as usize);
    Ok(bounded)
}

// The instance, of whose tries none counts, and which is not tried again unless it is cleared.
fn set_aside(alloc: Global, instance: &Instance) -> Result<Instance, AllocError>
    ensures { IfOk result (λ i. i ≡ model.set_aside instance.now) }
{
    let mut aside = instance.copy(alloc)?;
    aside.clear();
    aside.decide(Verdict::UpstreamFailed);
    Ok(aside)
}

/// What becomes of the instance of a task that is another one now: of its tries no more count than that may have, and where it failed for
/// good and would be tried again, it is set aside.
pub(crate) fn kept_as(
    alloc: Global,
    old: &TaskSpec,
    new: &TaskSpec,
    instance: &Instance,
) -> Result<Instance, AllocError>
    ensures { IfOk result (λ i. i ≡ model.kept_as old.now new.now instance.now) }
{
    let bounded = bounded_to(alloc, new, instance)?;
    if is_failed(instance.state(old)) && !is_failed(bounded.state(new)) {
        return set_aside(alloc, instance);
    }
    Ok(bounded)
}

/// The instance of a task that is new, in a run in this phase: skipped where the run was a success, upstream_failed where it failed, else
/// undecided. It takes no memory.
pub(crate) fn newcomer(alloc: Global, phase: RunPhase) -> Instance
    ensures { result ≡ model.newcomer phase }
{
    match phase {
        RunPhase::Queued | RunPhase::Running => Instance::new(alloc),
        RunPhase::Success => Instance::of(Some(Verdict::Skip), 0, Vec::new(alloc)),
        RunPhase::Failed => Instance::of(Some(Verdict::UpstreamFailed), 0, Vec::new(alloc)),
    }
}

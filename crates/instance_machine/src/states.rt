//! The state of a task instance, when a further try may come after `retry_delay`, and when the past lets a task run.
ghost use Rattle.std.specs.Prelude.{◌≡◌};
ghost use Rattle.instance_machine.specs.States as spec;

use crate::instances::Instance;
use crate::tries::{Outcome, Try};
use graph_file::TaskSpec;
use trigger_rules::{State, Verdict};

impl Instance {
    /// Its state, as an instance of this task.
    pub fn state(&self, task: &TaskSpec) -> State
        ensures { result ≡ spec.state_of task.now self.now }
    {
        match self.last_recent() {
            None => state_of_verdict(self.verdict()),
            Some(last) => state_of_try(&last, self.has_retry(task)),
        }
    }

    /// The second from which a try may be handed out again, where its state is up_for_retry: its last try's end with the task's delay. It may
    /// lie past the end of moments, and then never comes.
    pub fn retry_at(&self, task: &TaskSpec) -> Option<u64>
        ensures { result ≡ spec.retry_at task.now self.now }
    {
        if self.state(task) != State::UpForRetry {
            return None;
        }
        let end = self.last_recent()?.ended?;
        Some(end.moment.secs() + u64::from(task.retry_delay.get()))
    }

    // Whether it has a further try after one that failed.
    fn has_retry(&self, task: &TaskSpec) -> bool
        ensures { result ≡ spec.has_retry task.now self.now }
    {
        self.recent_count() <= task.retries.get() as usize
    }
}

fn state_of_verdict(verdict: Option<Verdict>) -> State
    ensures { result ≡ spec.state_of_verdict verdict }
{
    match verdict {
        None | Some(Verdict::Wait) => State::None,
        Some(Verdict::Run) => State::Scheduled,
        Some(Verdict::Skip) => State::Skipped,
        Some(Verdict::UpstreamFailed) => State::UpstreamFailed,
    }
}

// The state after this try.
fn state_of_try(last: &Try, has_retry: bool) -> State
    ensures { result ≡ spec.state_of_end has_retry last.now.started last.now.ended }
{
    match last.ended {
        None if last.started.is_some() => State::Running,
        None => State::Queued,
        Some(end) => ended_as(end.outcome, has_retry),
    }
}

fn ended_as(outcome: Outcome, has_retry: bool) -> State
    ensures { result ≡ spec.ended_as has_retry outcome }
{
    match outcome {
        Outcome::Success => State::Success,
        Outcome::Skipped => State::Skipped,
        Outcome::Failed | Outcome::Lost => {
            if has_retry {
                State::UpForRetry
            } else {
                State::Failed
            }
        }
    }
}

/// Whether the state of the same task in the run before lets it run that depends on the past (Airflow 2, "Tasks": depends on past).
pub fn past_gate(previous: Option<State>) -> bool
    ensures { result ≡ spec.opens_gate previous }
{
    match previous {
        None | Some(State::Success) | Some(State::Skipped) => true,
        Some(_) => false,
    }
}

//! The states of task instances.
ghost use Rattle.std.specs.Prelude.{◌≡◌};
ghost use Rattle.trigger_rules.specs.States.{is_finished, name_of};

/// The state of a task instance, as Airflow 2 has it ("Tasks": task instances).
#[derive(Clone, Copy, Debug, PartialEq, Eq)]
pub enum State {
    /// Nothing is decided yet.
    None,
    /// Its rule lets it run, and it waits for a slot.
    Scheduled,
    /// It was handed out, and no worker has begun it.
    Queued,
    Running,
    Success,
    Failed,
    Skipped,
    /// A try failed, and a further one is due after its delay.
    UpForRetry,
    /// Its rule wants what an upstream did not do.
    UpstreamFailed,
}

impl State {
    /// Whether it is an end: success, failed, skipped or upstream_failed.
    pub fn is_finished(self) -> bool
        ensures { result ≡ is_finished self }
    {
        match self {
            State::Success | State::Failed | State::Skipped | State::UpstreamFailed => true,
            State::None | State::Scheduled | State::Queued | State::Running | State::UpForRetry =>
                false,
        }
    }

    /// Its name, as Airflow 2 writes it.
    pub fn name(self) -> &'static str
        ensures { result.now ≡ name_of self }
    {
        match self {
            State::None => "none",
            State::Scheduled => "scheduled",
            State::Queued => "queued",
            State::Running => "running",
            State::Success => "success",
            State::Failed => "failed",
            State::Skipped => "skipped",
            State::UpForRetry => "up_for_retry",
            State::UpstreamFailed => "upstream_failed",
        }
    }
}

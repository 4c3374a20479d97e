//! How many upstreams are in which state.
ghost use Rattle.std.specs.Prelude.{◌≡◌, ◌+◌, ◌<◌, ◌≤◌, List, [], ◌∷◌, ◌++◌};
ghost use Rattle.graph_file.specs.TaskLists.{task_limit};
ghost use Rattle.trigger_rules.specs.Counts.{counts_of, counted_as, total};
ghost use Rattle.trigger_rules.specs.declared.states.State.{State as StateOf};

use crate::states::State;
use std::marker::Model;

/// How many of at most 256 upstreams are in which of the finished states, and how many in none of them.
///
/// Contracts say of which list of states these are the counts.
#[derive(Clone, Copy, Debug, PartialEq, Eq)]
pub struct Counts {
    success: u16,
    failed: u16,
    upstream_failed: u16,
    skipped: u16,
    unfinished: u16,
}

impl Model for Counts {
    ghost use Rattle.graph_file.specs.TaskLists.{task_limit};
    ghost use Rattle.std.specs.Prelude.{◌≤◌};
    ghost use Rattle.trigger_rules.specs.Counts.{Tally, total};

    ghost Value = { Tally };

    ghost view = { λ c. record {
      success = c.success;
      failed = c.failed;
      upstream_failed = c.upstream_failed;
      skipped = c.skipped;
      unfinished = c.unfinished;
    } };

    ghost invariant = { λ c. total (record {
      success = c.success;
      failed = c.failed;
      upstream_failed = c.upstream_failed;
      skipped = c.skipped;
      unfinished = c.unfinished;
    }) ≤ task_limit };

    ghost inverse = { λ t. record {
      success = t.success;
      failed = t.failed;
      upstream_failed = t.upstream_failed;
      skipped = t.skipped;
      unfinished = t.unfinished;
    } };
}

impl Counts {
    /// The counts of no upstream.
    pub fn new() -> Counts
        ensures { result ≡ counts_of [] }
    {
        Counts {
            success: 0,
            failed: 0,
            upstream_failed: 0,
            skipped: 0,
            unfinished: 0,
        }
    }

    /// Counts one more upstream.
    pub fn add(&mut self, state: State)
        requires { total self.old < task_limit }
        ensures counted { (s : List StateOf) → self.old ≡ counts_of s
            → self.new ≡ counts_of (s ++ state ∷ []) }
        ensures one { total self.new ≡ total self.old + 1 }
    {
        match state {
            State::Success => self.success += 1,
            State::Failed => self.failed += 1,
            State::UpstreamFailed => self.upstream_failed += 1,
            State::Skipped => self.skipped += 1,
            State::None | State::Scheduled | State::Queued | State::Running | State::UpForRetry => {
                self.unfinished += 1;
            }
        }
    }

    /// Counts an upstream in another state than before, in which it was counted.
    /// No crate above calls this: counts are made anew for each decision.
    pub fn replace(&mut self, old: State, new: State)
        requires { 0 < counted_as old self.old }
        ensures counted { (s t : List StateOf) → self.old ≡ counts_of (s ++ old ∷ t)
            → self.new ≡ counts_of (s ++ new ∷ t) }
        ensures total { total self.new ≡ total self.old }
    {
        self.remove(old);
        self.add(new);
    }

    // Counts one upstream less.
    fn remove(&mut self, state: State)
        requires { 0 < counted_as state self.old }
        ensures counted { (s t : List StateOf) → self.old ≡ counts_of (s ++ state ∷ t)
            → self.new ≡ counts_of (s ++ t) }
        ensures one { total self.new + 1 ≡ total self.old }
        ensures bound { total self.new < task_limit }
    {
        match state {
            State::Success => self.success -= 1,
            State::Failed => self.failed -= 1,
            State::UpstreamFailed => self.upstream_failed -= 1,
            State::Skipped => self.skipped -= 1,
            State::None | State::Scheduled | State::Queued | State::Running | State::UpForRetry => {
                self.unfinished -= 1;
            }
        }
    }

    // How many there are.
    pub(crate) fn total(&self) -> u16
        ensures { result ≡ total self.now }
    {
        self.success + (self.failed + (self.upstream_failed + (self.skipped + self.unfinished)))
    }

    // How many are failed or upstream_failed.
    pub(crate) fn bad(&self) -> u16
        ensures value { result ≡ self.now.failed + self.now.upstream_failed }
        ensures bound { self.now.success + (result + (self.now.skipped + self.now.unfinished)) ≤
            256 }
    {
        self.failed + self.upstream_failed
    }

    // How many are success or failed.
    pub(crate) fn done(&self) -> u16
        ensures { result ≡ self.now.success + self.now.failed }
    {
        self.success + self.failed
    }

    pub(crate) fn success(&self) -> u16
        ensures { result ≡ self.now.success }
    {
        self.success
    }

    pub(crate) fn skipped(&self) -> u16
        ensures { result ≡ self.now.skipped }
    {
        self.skipped
    }

    pub(crate) fn unfinished(&self) -> u16
        ensures { result ≡ self.now.unfinished }
    {
        self.unfinished
    }
}

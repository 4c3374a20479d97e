//! A task instance, and what is done to it.
ghost use Rattle.std.specs.Prelude.{◌≡◌, ◌≢◌, ◌-◌, ◌≤◌, [], ◌∷◌, ◌++◌, length, map, max, None, Some, IfOk, OnOk, OnErr};
ghost use Rattle.trigger_rules.specs.declared.verdicts.Verdict.TheVariants.{Wait};
ghost use Rattle.instance_machine.specs.Instances.{new_instance, with_last, last_of, recent, map_tries};
ghost use Rattle.instance_machine.specs.Reports.{reported_try, lost_try};

use crate::reports::{lost_try, reported_try};
use crate::tries::{Stage, Try};
use graph_file::Bounded;
use moment_core::Moment;
use std::alloc::{AllocError, Global};
use std::marker::Model;
use trigger_rules::Verdict;

/// A task instance: one task in one run. Contracts see its verdict, how many tries it had before the last clearing, and its tries.
#[derive(Debug, Drop)]
pub struct Instance {
    verdict: Option<Verdict>,
    since: usize,
    tries: Vec<Try>,
}

impl Model for Instance {
    ghost use Rattle.std.specs.Prelude.{◌≡◌, ◌≢◌, ◌≤◌, Some, length};
    ghost use Rattle.trigger_rules.specs.declared.verdicts.Verdict.TheVariants.{Wait};
    ghost use Rattle.instance_machine.specs.Instances.{InstanceValue};

    ghost Value = { InstanceValue };

    ghost view = { λ i. record { verdict = i.verdict; since = i.since; tries = i.tries.items } };

    ghost invariant = { λ i. (i.verdict ≢ Some Wait) × (i.since ≤ length i.tries.items) };
}

impl Instance {
    /// An instance without verdict and tries. This takes no memory.
    pub fn new(alloc: Global) -> Instance
        ensures { result ≡ new_instance }
    {
        Instance {
            verdict: None,
            since: 0,
            tries: Vec::new(alloc),
        }
    }

    /// The instance that has this verdict and these tries, so many of them from before its last clearing. It takes no memory.
    pub fn of(verdict: Option<Verdict>, since: usize, tries: Vec<Try>) -> Instance
        requires decided { verdict ≢ Some Wait }
        requires since { since ≤ length tries.items }
        ensures { result ≡ record { verdict = verdict; since = since; tries = tries.items } }
    {
        Instance {
            verdict,
            since,
            tries,
        }
    }

    /// An equal instance.
    pub fn copy(&self, alloc: Global) -> Result<Instance, AllocError>
        ensures { IfOk result (λ instance. instance ≡ self.now) }
    {
        let mut tries = Vec::with_capacity(alloc, self.tries.len())?;
        for one in self.tries() {
            tries.push(*one)?;
        }
        Ok(Instance {
            verdict: self.verdict,
            since: self.since,
            tries,
        })
    }

    /// What its rule decided, if it has since the last clearing; never `Wait`.
    pub fn verdict(&self) -> Option<Verdict>
        ensures { result ≡ self.now.verdict }
    {
        self.verdict
    }

    /// All its tries, also those before the last clearing, in the order in which they were handed out.
    pub fn tries(&self) -> &[Try]
        ensures { result.now ≡ self.now.tries }
    {
        self.tries.as_slice()
    }

    /// How many of its tries were before the last clearing.
    pub fn since(&self) -> usize
        ensures { result ≡ self.now.since }
    {
        self.since
    }

    /// Its rule has decided.
    pub fn decide(&mut self, verdict: Verdict)
        requires { verdict ≢ Wait }
        ensures { self.new ≡ record self.old { verdict = Some verdict } }
    {
        self.verdict = Some(verdict);
    }

    /// A new try is handed out, which is open.
    pub fn hand_out(&mut self, serial: u64, slots: Bounded<1, 1_000>) -> Result<(), AllocError>
        ensures ok { OnOk result (self.new ≡ record self.old {
          tries = self.old.tries ++ record
              { serial = serial; slots = slots; started = None; ended = None } ∷ [];
        }) }
        ensures err { OnErr result (self.new ≡ self.old) }
    {
        self.tries.push(Try {
            serial,
            slots,
            started: None,
            ended: None,
        })?;
        Ok(())
    }

    /// It is set back: it has no verdict, and its tries so far count for nothing. They are kept.
    pub fn clear(&mut self)
        ensures { self.new ≡ record self.old { verdict = None; since = length self.old.tries } }
    {
        self.verdict = None;
        self.since = self.tries.len();
    }

    /// No more than so many of its tries count, the last ones: those before them count for nothing, as those before a clearing. They are kept.
    pub fn count_at_most(&mut self, most: usize)
        ensures { self.new ≡ record self.old
            { since = max self.old.since (length self.old.tries - most) } }
    {
        self.since = self.since.max(self.tries.len().saturating_sub(most));
    }

    /// The try with this serial takes in what a worker reports of it, where it is its turn; nothing else changes.
    pub fn report(&mut self, serial: u64, stage: Stage, now: Moment)
        ensures { self.new ≡ map_tries (reported_try serial stage now) self.old }
    {
        report_all(&mut self.tries, serial, stage, now);
    }

    /// The scheduler is restarted: each open try is lost (Airflow 2, "Tasks": zombie tasks).
    pub fn lose(&mut self, now: Moment)
        ensures { self.new ≡ map_tries (lost_try now) self.old }
    {
        lose_all(&mut self.tries, now);
    }

    // Its last try is changed, if it has one.
    pub(crate) fn set_last(&mut self, last: Try)
        ensures { self.new ≡ record self.old { tries = with_last last self.old.tries } }
    {
        let count = self.tries.len();
        if count > 0 {
            self.tries[count - 1] = last;
        }
    }

    // Its last try since the last clearing, if it has one.
    pub(crate) fn last_recent(&self) -> Option<Try>
        ensures { result ≡ last_of (recent self.now) }
    {
        let count = self.tries.len();
        if self.since < count {
            Some(self.tries[count - 1])
        } else {
            None
        }
    }

    // How many tries it has had since the last clearing.
    pub(crate) fn recent_count(&self) -> usize
        ensures { result ≡ length (recent self.now) }
    {
        self.tries.len() - self.since
    }
}

// The try with this serial takes the report in.
fn report_all(tries: &mut Vec<Try>, serial: u64, stage: Stage, now: Moment)
    ensures { tries.new.items ≡ map (reported_try serial stage now) tries.old.items }
{
    for at in 0..tries.len() {
        tries[at] = reported_try(&tries[at], serial, stage, now);
    }
}

// Each open try is lost.
fn lose_all(tries: &mut Vec<Try>, now: Moment)
    ensures { tries.new.items ≡ map (lost_try now) tries.old.items }
{
    for at in 0..tries.len() {
        tries[at] = lost_try(tries[at], now);
    }
}

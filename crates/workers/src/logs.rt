//! What a worker writes down of its jobs.
//!
//! While it works each entry, and the log, name the desk by `L`. So what was left at another desk comes into no log of this one.
ghost use Rattle.std.specs.Prelude.{◌≡◌, ◌<◌, ◌++◌, ◌∷◌, [], OnOk};

use crate::steps::LoggedAt;
use instance_machine::Outcome;
use kept::{Keep, Kept};
use sched_state::Job;
use slot_desk::Left;
use std::alloc::{AllocError, Global};
use std::marker::{Model, PhantomData};
use std::sync::ledger::Ledger;

/// A job that a worker did.
#[derive(Debug, Drop)]
pub struct Logged {
    /// The job.
    pub job: Job,
    /// Whether its operator took it up.
    pub begun: bool,
    /// How it ended, as it was told: as its operator said, and failed where it was not begun.
    pub outcome: Outcome,
    /// The slots that were left at the desk afterwards.
    pub left: Left,
}

/// The jobs that a worker did at the desk that `L` names, in order. Contracts see it as the list of its entries, of which all are kept, or none.
#[derive(Drop)]
pub(crate) struct Log<L: Ledger> {
    entries: Kept<Logged>,
    desk: PhantomData<L>,
}

impl<L: Ledger> Model for Log<L> {
    ghost use Rattle.kept.specs.Lists.{KeptValue};
    ghost use Rattle.workers.specs.declared.logs.Logged.{Logged};

    ghost Value = { KeptValue Logged };

    ghost view = { λ l. l.entries };
}

impl<L: Ledger> Log<L> {
    /// A log without a job. It takes no memory.
    pub fn new(alloc: Global, keep: Keep) -> Log<L>
        ensures items { result.items ≡ [] }
        ensures keep { result.keep ≡ keep }
    {
        Log {
            entries: Kept::new(alloc, keep),
            desk: PhantomData,
        }
    }

    /// Makes room for one more job.
    pub fn reserve(&mut self) -> Result<(), AllocError>
        ensures same { self.new.items ≡ self.old.items }
        ensures keep { self.new.keep ≡ self.old.keep }
        ensures room { OnOk result (0 < self.new.room) }
    {
        self.entries.reserve()
    }

    /// Puts a job behind the others. It takes no memory.
    pub fn push_reserved(&mut self, entry: LoggedAt<L>)
        requires { 0 < self.old.room }
        ensures items { self.new.items ≡ self.old.items ++ entry ∷ [] }
        ensures keep { self.new.keep ≡ self.old.keep }
    {
        self.entries.put(entry.logged());
    }

    /// The jobs, without the name of their desk.
    pub fn into_entries(self) -> Kept<Logged>
        ensures { result ≡ self }
    {
        let Log { entries, .. } = self;
        entries
    }
}

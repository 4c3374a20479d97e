//! What a worker works with: a kit of operators, and a gate.
ghost use Rattle.std.specs.Prelude.{◌≡◌};
ghost use Rattle.workers.specs.Ends.{number_of};

use crate::logs::{Log, Logged};
use instance_machine::Outcome;
use kept::Kept;
use operators::{BoxedOperator, Kit, Operator};
use ruled_dispatch::WorkerPass;
use sched_state::Job;
use std::marker::{Model, PhantomData};
use std::snapshot::Snapshot;
use std::sync::Wait;
use std::sync::ledger::Ledger;

/// What each job of a worker passes before it is performed and afterwards, while its slots are entered at the desk.
///
/// It may wait, so that a test can hold a worker back. The program's own gate is [`OpenGate`].
pub trait Gate: Drop {
    /// Is asked before the job is begun.
    fn before<R: Wait>(&mut self, rt: &R, job: &Job);

    /// Is asked after the job was given up, with the outcome that is told of it.
    fn after<R: Wait>(&mut self, rt: &R, job: &Job, outcome: Outcome);
}

/// A gate that does nothing.
#[derive(Clone, Copy, Debug, PartialEq, Eq)]
pub struct OpenGate;

impl Gate for OpenGate {
    fn before<R: Wait>(&mut self, _rt: &R, _job: &Job) {}

    fn after<R: Wait>(&mut self, _rt: &R, _job: &Job, _outcome: Outcome) {}
}

/// What a worker works with.
#[derive(Drop)]
pub struct Crew<G: Gate, O: Operator = BoxedOperator> {
    /// The operators, one of each kind.
    pub kit: Kit<O>,
    /// What its jobs pass.
    pub gate: G,
}

/// What comes back from a worker.
#[derive(Drop)]
pub struct WorkerEnd<G: Gate, O: Operator = BoxedOperator> {
    /// The operators.
    pub kit: Kit<O>,
    /// What its jobs passed.
    pub gate: G,
    /// What it did, job by job, in order.
    pub log: Kept<Logged>,
    // its pass, which has its number: it is seen in contracts alone, and an end with another cannot be made
    pass: Snapshot<WorkerPass>,
}

/// What comes back from a worker at the desk that `L` names: at this desk the slots of each job of its log were left. Contracts see it as
/// what comes back.
#[derive(Drop)]
pub struct EndAt<L: Ledger, G: Gate, O: Operator = BoxedOperator> {
    end: WorkerEnd<G, O>,
    desk: PhantomData<L>,
}

impl<L: Ledger, G: Gate, O: Operator> Model for EndAt<L, G, O> {
    ghost use Rattle.workers.specs.declared.crews.WorkerEnd.{WorkerEnd};

    ghost Value = { WorkerEnd G O };

    ghost view = { λ e. e.end };
}

impl<L: Ledger, G: Gate, O: Operator> EndAt<L, G, O> {
    /// The end of the worker that has this pass, with its log of this desk.
    pub(crate) fn new(kit: Kit<O>, gate: G, log: Log<L>, pass: &WorkerPass) -> EndAt<L, G, O>
        ensures kit { result.kit ≡ kit }
        ensures gate { result.gate ≡ gate }
        ensures log { result.log ≡ log }
        ensures number { number_of result ≡ pass.now.number }
    {
        let log = log.into_entries();
        let pass = Snapshot::of(pass);
        EndAt {
            end: WorkerEnd {
                kit,
                gate,
                log,
                pass,
            },
            desk: PhantomData,
        }
    }

    /// What comes back, without the name of the desk.
    pub fn end(self) -> WorkerEnd<G, O>
        ensures { result ≡ self }
    {
        let EndAt { end, .. } = self;
        end
    }
}

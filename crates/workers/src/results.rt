//! Room for what comes back of workers, and what it holds in the end.
ghost use Rattle.std.specs.Prelude.{◌≡◌, ◌≤◌, IfOk, length, map};

use crate::crews::{Gate, WorkerEnd};
use crate::threads::Worked;
use operators::Operator;
use ruled_dispatch::WorkerPass;
use slot_desk::Share;
use std::alloc::{AllocError, Global};
use std::marker::Model;
use std::sync::ledger::Ledger;

/// Room for the ends, the passes and the shares of some workers. Contracts see it as their number.
#[derive(Drop)]
pub struct ResultRoom<L: Ledger, G: Gate, O: Operator> {
    workers: usize,
    ends: Vec<WorkerEnd<G, O>>,
    passes: Vec<WorkerPass>,
    shares: Vec<Share<L>>,
}

impl<L: Ledger, G: Gate, O: Operator> Model for ResultRoom<L, G, O> {
    ghost use Rattle.std.specs.Prelude.{◌≡◌, ◌≤◌, [], ℕ, vec_capacity};

    ghost Value = { ℕ };

    ghost view = { λ r. r.workers };

    ghost invariant = { λ r. ((r.ends.items ≡ []) × (r.workers ≤ vec_capacity r.ends))
        × ((r.passes.items ≡ []) × (r.workers ≤ vec_capacity r.passes))
        × ((r.shares.items ≡ []) × (r.workers ≤ vec_capacity r.shares)) };
}

/// What came back of the workers, each kind in a list of its own, in the workers' order.
#[derive(Drop)]
pub(crate) struct Parts<L: Ledger, G: Gate, O: Operator> {
    pub ends: Vec<WorkerEnd<G, O>>,
    pub passes: Vec<WorkerPass>,
    pub shares: Vec<Share<L>>,
}

impl<L: Ledger, G: Gate, O: Operator> ResultRoom<L, G, O> {
    /// Room for so many workers.
    pub fn new(alloc: Global, workers: usize) -> Result<ResultRoom<L, G, O>, AllocError>
        ensures { IfOk result (λ room. room ≡ workers) }
    {
        Ok(ResultRoom {
            workers,
            ends: Vec::with_capacity(alloc, workers)?,
            passes: Vec::with_capacity(alloc, workers)?,
            shares: Vec::with_capacity(alloc, workers)?,
        })
    }

    /// Takes apart what came back, and drops the name of the desk. It takes no memory.
    pub(crate) fn take_apart(self, results: Vec<Worked<L, G, O>>) -> Parts<L, G, O>
        requires { length results.items ≤ self }
        ensures ends { result.ends.items ≡ map (λ r. r.0) results.items }
        ensures passes { result.passes.items ≡ map (λ r. r.1) results.items }
        ensures shares { result.shares.items ≡ map (λ r. r.2) results.items }
    {
        let ResultRoom {
            mut ends,
            mut passes,
            mut shares,
            ..
        } = self;
        for (end, pass, share) in results {
            ends.push_reserved(end.end());
            passes.push_reserved(pass);
            shares.push_reserved(share);
        }
        Parts {
            ends,
            passes,
            shares,
        }
    }
}

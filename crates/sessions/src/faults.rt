//! Why a run ends before its lines are over.
ghost use Rattle.std.specs.Prelude.{◌≡◌, false, None, Some};
ghost use Rattle.sqlite.specs.declared.error.Error.{Error};
ghost use Rattle.director.specs.Faults.{IsFaultOfStore, is_memory};
ghost use Rattle.director.specs.Faults.store as store_fault;
ghost use Rattle.director.specs.declared.faults.Fault.TheVariants as failed;
ghost use Rattle.sessions.specs.Faults.{end_of, end_of_lines, EndsBy};

use crate::line_reading::LineFault;
use director::{Cause, Fault, StoreFault};
use thiserror::Error;

/// Why a run ends before its lines are over, or not well.
#[derive(Debug, Drop, Error)]
pub enum ConductFault {
    /// There is no worker.
    #[error("there is no worker")]
    NoWorker,
    /// A thread could not be started.
    #[error("a worker could not be started")]
    SpawnRefused,
    /// The store refused a report or the restart three times, the last time for this cause.
    #[error("the record was refused three times")]
    StoreThrice(Cause),
    /// A line could not be read or answered.
    #[error("a line could not be read or answered")]
    ReadFault,
    /// There was no memory, for a report or the restart three times.
    #[error("out of memory")]
    Memory,
    /// What the workers did is not what the minutes say.
    #[error("the workers' logs are not what was handed out and reported")]
    Unequal,
}

// What a run ends with where the lines failed so.
pub(crate) fn ended_by_lines(fault: LineFault) -> ConductFault
    ensures is { result ≡ end_of_lines fault }
    ensures known { EndsBy result (Some fault) }
{
    match fault {
        LineFault::Failed => ConductFault::ReadFault,
        LineFault::Memory => ConductFault::Memory,
    }
}

// What a run ends with where the store or want of memory stood against an event of its own so. The store says no other than that it refuses.
pub(crate) fn ended_by(fault: Fault) -> ConductFault
    requires { IsFaultOfStore fault }
    ensures is { result ≡ end_of fault }
    ensures known { EndsBy result None }
{
    match fault {
        Fault::Store(refused) => ended_by_store(refused),
        Fault::Refused(_refusal) => ConductFault::Memory,
        Fault::Memory => ConductFault::Memory,
    }
}

// The same of a fault of the store alone.
fn ended_by_store(fault: StoreFault) -> ConductFault
    requires { (error : Error) × (is_memory error ≡ false) × (fault ≡ store_fault.Refused error) }
    ensures is { result ≡ end_of (failed.Store fault) }
    ensures known { EndsBy result None }
{
    match fault {
        StoreFault::Refused(cause) => ConductFault::StoreThrice(cause),
        _ => ConductFault::Memory,
    }
}

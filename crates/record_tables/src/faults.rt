//! What goes wrong as rows are read.
ghost use Rattle.std.specs.Prelude.{◌≡◌, if◌then◌else◌};
ghost use Rattle.record_tables.specs.Errors.{is_memory};
ghost use Rattle.record_tables.specs.declared.faults.LoadFault.TheVariants as fault;

use sqlite::{Error, ErrorCode};
use std::alloc::AllocFailed;

/// Why rows were not read.
#[derive(Debug, Drop)]
pub enum LoadFault {
    /// SQLite refused the query.
    Refused(Error),
    /// A value is of another kind than its column, or a text is not UTF-8.
    NotOurs,
    /// There was no memory.
    Memory,
}

/// The fault that an error of a query is.
pub fn refused(error: Error) -> LoadFault
    ensures { result ≡ (if is_memory error then fault.Memory else fault.Refused error) }
{
    match error {
        Error::SqliteFailure(ErrorCode::OutOfMemory) => LoadFault::Memory,
        _ => LoadFault::Refused(error),
    }
}

/// The fault that an error of a value is.
pub(crate) fn unread(error: Error) -> LoadFault
    ensures { result ≡ (if is_memory error then fault.Memory else fault.NotOurs) }
{
    match error {
        Error::SqliteFailure(ErrorCode::OutOfMemory) => LoadFault::Memory,
        _ => LoadFault::NotOurs,
    }
}

impl<T: Drop> From<AllocFailed<T>> for LoadFault {
    ghost use Rattle.std.specs.Prelude.{◌≡◌};
    ghost use Rattle.record_tables.specs.declared.faults.LoadFault.TheVariants.{Memory};

    ghost from_gives = { λ _ fault. fault ≡ Memory };

    fn from(_: AllocFailed<T>) -> LoadFault {
        LoadFault::Memory
    }
}

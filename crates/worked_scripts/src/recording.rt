//! New records.
ghost use Rattle.std.specs.Prelude.{◌≡◌, false};

use meta_store::Store;
use sqlite::{Alter, Connection, MemStore};
use std::alloc::{AllocError, Global};

/// What makes new records.
///
/// The store of a record is named where it is made. All else is said of any, since what calls a named one is proved down to its pages.
pub(crate) trait Recorder {
    /// Where a record stands.
    type Pages: Alter + Drop;

    /// A new record.
    fn create(&self, alloc: Global) -> Result<Store<Self::Pages>, AllocError>;
}

/// It makes records in memory.
#[derive(Clone, Copy)]
pub(crate) struct InMemory;

impl Recorder for InMemory {
    type Pages = MemStore;

    fn create(&self, alloc: Global) -> Result<Store<MemStore>, AllocError> {
        record_in(alloc, Connection::open_in_memory(alloc)?)
    }
}

// A new record in this database.
fn record_in<S: Alter + Drop>(alloc: Global, conn: Connection<S>) -> Result<Store<S>, AllocError>
    requires { conn.in_transaction ≡ false }
{
    match Store::create(alloc, conn) {
        Ok(record) => Ok(record),
        Err(_) => Err(AllocError),
    }
}

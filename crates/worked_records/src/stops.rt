//! Rounds over files that fail.
ghost use Rattle.std.specs.Prelude.{◌≡◌, false};

use crate::files::{Failing, RecordFiles, empty_files, open};
use crate::rounds::run;
use meta_store::Store;
use sched_core::Event;
use sqlite::{Connection, FileStore, Files};
use sqlite_disk::Disk;
use std::alloc::Global;

/// Where a round was stopped, and the files that it left.
#[derive(Drop)]
pub(crate) struct Stop {
    /// The place of the step: the record is made, opened, the events, it is opened anew, and the files are closed.
    pub step: usize,
    pub files: RecordFiles,
}

/// Runs a round of these events over files that fail after so many calls: where it was stopped, if it was.
pub(crate) fn stopped_run(
    alloc: Global,
    failing: Failing,
    calls: u64,
    events: &[Event],
) -> Option<Stop> {
    match run_in(alloc, empty_files(alloc, failing, calls), events) {
        Ok(()) => None,
        Err((step, files)) => Some(Stop { step, files }),
    }
}

// The same in these files.
fn run_in<D: Disk + Drop>(
    alloc: Global,
    files: Files<D>,
    events: &[Event],
) -> Result<(), (usize, Files<D>)> {
    match open(alloc, files) {
        Ok(conn) => run_and_close(alloc, conn, events),
        Err(files) => Err((0, files)),
    }
}

fn run_and_close<D: Disk + Drop>(
    alloc: Global,
    conn: Connection<FileStore<D>>,
    events: &[Event],
) -> Result<(), (usize, Files<D>)>
    requires { conn.in_transaction ≡ false }
{
    match run(alloc, conn, events) {
        Ok(record) => close(record, events.len().saturating_add(3)),
        Err((step, store)) => Err((step, store.close())),
    }
}

fn close<D: Disk + Drop>(
    record: Store<FileStore<D>>,
    step: usize,
) -> Result<(), (usize, Files<D>)> {
    match record.release().close_files() {
        Ok(_) => Ok(()),
        Err((_, store)) => Err((step, store.close())),
    }
}

//! The two files of a database in memory: one or both may fail every call after the first so many, and of the log some writes in a row may be
//! refused.
ghost use Rattle.std.specs.Prelude.{◌≡◌, false, IfOk};

use crate::flaky::Flaky;
use sqlite::{Connection, FileStore, Files, Options};
use sqlite_disk::{Crash, Disk, Fuse, Memory};
use std::alloc::Global;
use std::io;

/// A file in memory that may fail.
pub(crate) type Faulty = Fuse<Flaky<Memory>>;

/// The files of a record. All records here lie in such files.
pub(crate) type RecordFiles = Files<Faulty>;

/// A database in such files.
pub(crate) type RecordStore = FileStore<Faulty>;

/// Which of the files fail.
#[derive(Clone, Copy)]
pub(crate) enum Failing {
    Log,
    Database,
    Both,
}

/// How many writes of the log pass first, and how many are refused after these.
#[derive(Clone, Copy, Debug, PartialEq, Eq)]
pub(crate) struct Writes {
    pub passes: u64,
    pub refusals: u64,
}

impl Writes {
    /// Nothing is refused.
    pub fn all_pass() -> Writes {
        Writes {
            passes: u64::MAX,
            refusals: 0,
        }
    }
}

fn file(memory: Memory, writes: Writes, calls: u64) -> Faulty {
    let Writes { passes, refusals } = writes;
    Fuse::new(Flaky::new(memory, passes, refusals), calls)
}

/// Empty files, of which those that fail do so after so many calls each.
pub(crate) fn empty_files(alloc: Global, failing: Failing, calls: u64) -> RecordFiles {
    let (log, db) = match failing {
        Failing::Log => (calls, u64::MAX),
        Failing::Database => (u64::MAX, calls),
        Failing::Both => (calls, calls),
    };
    Files {
        log: file(Memory::new(alloc), Writes::all_pass(), log),
        db: file(Memory::new(alloc), Writes::all_pass(), db),
    }
}

/// Empty files that fail no call.
pub(crate) fn sound_files(alloc: Global) -> RecordFiles {
    empty_files(alloc, Failing::Both, u64::MAX)
}

/// Empty files, of which the log refuses some writes.
pub(crate) fn flaky_files(alloc: Global, writes: Writes) -> RecordFiles {
    Files {
        log: file(Memory::new(alloc), writes, u64::MAX),
        db: file(Memory::new(alloc), Writes::all_pass(), u64::MAX),
    }
}

/// Files with the same bytes, which fail no call.
pub(crate) fn as_written(alloc: Global, files: &RecordFiles) -> io::Result<RecordFiles> {
    Ok(Files {
        log: file_as_written(alloc, &files.log)?,
        db: file_as_written(alloc, &files.db)?,
    })
}

fn file_as_written(alloc: Global, written: &Faulty) -> io::Result<Faulty> {
    let mut copy = Memory::new(alloc);
    copy.write_at(0, written.inner().inner().bytes())?;
    copy.sync()?;
    Ok(file(copy, Writes::all_pass(), u64::MAX))
}

/// The machine is stopped and comes back: what was not synced is lost, and no call fails any more.
pub(crate) fn crash(files: &mut RecordFiles) {
    files.log.crash();
    files.db.crash();
}

/// How many writes the log has refused.
pub(crate) fn refused_by(files: &RecordFiles) -> u64 {
    files.log.inner().refused()
}

/// Whether one of the files fails each call.
pub(crate) fn is_failing(files: &mut RecordFiles) -> bool {
    fails(&mut files.log) || fails(&mut files.db)
}

// Whether the file may not be used any more, or fails a call.
fn fails(file: &mut Faulty) -> bool {
    !file.may_be_used() || file.len().is_err()
}

/// The database in these files, or what is left of them.
pub(crate) fn open<D: Disk + Drop>(
    alloc: Global,
    files: Files<D>,
) -> Result<Connection<FileStore<D>>, Files<D>>
    ensures { IfOk result (λ conn. conn.in_transaction ≡ false) }
{
    if !files.may_be_used() {
        return Err(files);
    }
    match Connection::open_files(alloc, files, Options::new(1)) {
        Ok(conn) => Ok(conn),
        Err((_, left)) => Err(left.into_files()),
    }
}

/// The files of a database that is not closed.
pub(crate) fn files_of<D: Disk + Drop>(conn: Connection<FileStore<D>>) -> Files<D> {
    conn.into_store().close()
}

//! Records that were changed by SQL, and what they are loaded as.
use crate::recording::Recorder;
use crate::records::Directed;
use meta_store::{Store, StoreFault};
use record_rows::Table;
use sched_core::{Limits, Schedule};
use sqlite::{Alter, Connection, Error, ErrorCode};
use std::alloc::{AllocError, Global};
use std::io::{self, Write};

// What comes of a record that was changed.
#[derive(Drop)]
enum Loaded {
    Sound(Schedule),
    Faulty(StoreFault),
    // SQLite did not do all of the statements.
    Unchanged,
}

/// Does these statements to a record that the same events have made, loads it, and writes what it is loaded as. This is done again where memory ran out.
pub(crate) fn load_changed<R: Recorder, W: Write>(
    alloc: Global,
    recorder: &R,
    directed: &Directed<R::Pages>,
    sql: &str,
    output: &mut W,
) -> io::Result<()> {
    match load_or_again(alloc, recorder, directed, sql)? {
        Loaded::Sound(schedule) => put_loaded(&schedule, output),
        Loaded::Faulty(fault) => put_fault(&fault, output),
        Loaded::Unchanged => output.write_all(b"refused by SQLite\n"),
    }
}

fn load_or_again<R: Recorder>(
    alloc: Global,
    recorder: &R,
    directed: &Directed<R::Pages>,
    sql: &str,
) -> Result<Loaded, AllocError> {
    match load_after(alloc, recorder, directed, sql) {
        Err(_) => load_after(alloc, recorder, directed, sql),
        loaded => loaded,
    }
}

fn load_after<R: Recorder>(
    alloc: Global,
    recorder: &R,
    directed: &Directed<R::Pages>,
    sql: &str,
) -> Result<Loaded, AllocError> {
    let record = directed.record(alloc, recorder)?;
    load_with(alloc, record, sql, directed.limits())
}

// Does these statements to a record, and loads it.
fn load_with<S: Alter + Drop>(
    alloc: Global,
    record: Store<S>,
    sql: &str,
    limits: Limits,
) -> Result<Loaded, AllocError> {
    let mut conn = record.release();
    let is_done = execute(&mut conn, sql)?;
    if is_done && conn.is_autocommit() {
        load(alloc, Store::adopt(conn), limits)
    } else {
        Ok(Loaded::Unchanged)
    }
}

// Whether all statements were done.
fn execute<S: Alter>(conn: &mut Connection<S>, sql: &str) -> Result<bool, AllocError> {
    match conn.execute_batch(sql) {
        Ok(()) => Ok(true),
        Err(Error::SqliteFailure(ErrorCode::OutOfMemory)) => Err(AllocError),
        Err(_) => Ok(false),
    }
}

fn load<S: Alter + Drop>(
    alloc: Global,
    mut record: Store<S>,
    limits: Limits,
) -> Result<Loaded, AllocError> {
    match record.load(alloc, limits) {
        Ok(schedule) => Ok(Loaded::Sound(schedule)),
        Err(StoreFault::Memory) => Err(AllocError),
        Err(fault) => Ok(Loaded::Faulty(fault)),
    }
}

fn put_loaded<W: Write>(schedule: &Schedule, output: &mut W) -> io::Result<()> {
    let runs = schedule.run_count();
    let in_flight = schedule.in_flight();
    writeln!(output, "loaded: {runs} runs, {in_flight} tries in flight")
}

fn put_fault<W: Write>(fault: &StoreFault, output: &mut W) -> io::Result<()> {
    match fault {
        StoreFault::Refused(_) => output.write_all(b"refused\n"),
        StoreFault::NotOurs => output.write_all(b"not ours\n"),
        StoreFault::Inconsistent(table, row) => {
            let name = table_name(*table);
            writeln!(output, "inconsistent {name} {row}")
        }
        StoreFault::Memory => output.write_all(b"memory\n"),
    }
}

fn table_name(table: Table) -> &'static str {
    match table {
        Table::Meta => "meta",
        Table::Pool => "pool",
        Table::Dag => "dag",
        Table::DagLimit => "dag_limit",
        Table::Run => "run",
        Table::Instance => "instance",
        Table::Attempt => "attempt",
    }
}

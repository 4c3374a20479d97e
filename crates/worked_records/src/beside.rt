//! A record beside which others have put an index, a view and a table.
ghost use Rattle.std.specs.Prelude.{◌≡◌, false};

use crate::events::changing_events;
use crate::files::{open, sound_files};
use crate::rounds::{create, open_and_step};
use crate::states::{Held, held_by_events, held_of};
use meta_store::Store;
use sched_core::Event;
use sqlite::{Alter, Connection, Error, Row};
use std::alloc::{AllocError, Global};
use std::io;

// Of what others show, two columns of each row.
const VIEW: &str = "SELECT task_id, CAST(tries AS TEXT) FROM tries_of";

const TABLE: &str = "SELECT about, says FROM note";

/// Writes whether the events leave what they leave in a record alone, and then what the view and the table of others show.
pub(crate) fn write_answer(host: &HostRuntime) -> io::Result<()> {
    let alloc = host.alloc();
    let events = changing_events(alloc)?;
    let alone = held_by_events(alloc, &events, None)?;
    match open(alloc, sound_files(alloc)) {
        Ok(conn) => write_in(host, alloc, conn, &events, &alone),
        Err(_) => Err(io::Error::from(AllocError)),
    }
}

fn write_in<S: Alter + Drop, R: Print>(
    rt: &R,
    alloc: Global,
    conn: Connection<S>,
    events: &[Event],
    alone: &Held,
) -> io::Result<()>
    requires { conn.in_transaction ≡ false }
{
    match create(alloc, conn) {
        Ok(record) => write_beside(rt, alloc, record, events, alone),
        Err(_) => rt.println("no record"),
    }
}

// The objects are put there, the events are stepped, and both are looked at.
fn write_beside<S: Alter + Drop, R: Print>(
    rt: &R,
    alloc: Global,
    record: Store<S>,
    events: &[Event],
    alone: &Held,
) -> io::Result<()> {
    let mut conn = record.release();
    if put_objects(&mut conn).is_err() {
        return rt.println("refused");
    }
    match stepped(alloc, conn, events) {
        Some(record) => write_both(rt, alloc, record, alone),
        None => rt.println("not stepped"),
    }
}

fn put_objects<S: Alter>(conn: &mut Connection<S>) -> Result<(), Error> {
    conn.execute("CREATE INDEX by_task ON attempt (task_id)", &[])?;
    conn.execute(
        "CREATE VIEW tries_of AS SELECT task_id, count(*) AS tries FROM attempt GROUP BY task_id",
        &[],
    )?;
    conn.execute(
        "CREATE TABLE note (about TEXT NOT NULL, says TEXT NOT NULL) STRICT",
        &[],
    )?;
    conn.execute("INSERT INTO note VALUES ('one', 'ours')", &[])?;
    Ok(())
}

// The record, once a director has stepped the events.
fn stepped<S: Alter + Drop>(
    alloc: Global,
    conn: Connection<S>,
    events: &[Event],
) -> Option<Store<S>> {
    let record = adopted(conn)?;
    match open_and_step(alloc, record, events) {
        Ok(director) => Some(director.close()),
        Err(_) => None,
    }
}

// The record of a connection, if no transaction is open on it.
fn adopted<S: Alter + Drop>(conn: Connection<S>) -> Option<Store<S>> {
    if !conn.is_autocommit() {
        return None;
    }
    Some(Store::adopt(conn))
}

fn write_both<S: Alter + Drop, R: Print>(
    rt: &R,
    alloc: Global,
    record: Store<S>,
    alone: &Held,
) -> io::Result<()> {
    let mut conn = record.release();
    write_rows(rt, &mut conn, "view", VIEW)?;
    write_rows(rt, &mut conn, "table", TABLE)?;
    match adopted(conn) {
        Some(record) => write_held(rt, &held_of(alloc, record)?, alone),
        None => rt.println("not read"),
    }
}

fn write_held<R: Print>(rt: &R, held: &Held, alone: &Held) -> io::Result<()> {
    if held == alone {
        rt.println("the rows of a record alone")
    } else {
        rt.println("other rows")
    }
}

// Writes the rows that a query shows.
fn write_rows<S: Alter, R: Print>(
    rt: &R,
    conn: &mut Connection<S>,
    what: &str,
    query: &str,
) -> io::Result<()> {
    match conn.query_all(query, &[]) {
        Ok(rows) => {
            for row in &rows {
                write_row(rt, what, row)?;
            }
            Ok(())
        }
        Err(_) => println!(rt; "{what} not read"),
    }
}

fn write_row<R: Print>(rt: &R, what: &str, row: &Row) -> io::Result<()> {
    match two_texts(row) {
        Ok((first, second)) => println!(rt; "{what} {first}|{second}"),
        Err(_) => println!(rt; "{what} not read"),
    }
}

fn two_texts(row: &Row) -> Result<(String, String), Error> {
    let first = row.get(0)?;
    let second = row.get(1)?;
    Ok((first, second))
}

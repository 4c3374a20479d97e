//! The events, one after another.
ghost use Rattle.std.specs.Prelude.{◌≡◌, false};

use crate::events::{name_of, worked_events};
use crate::files::open;
use crate::printed::print_rows;
use director::{Director, Fault};
use meta_store::{Store, StoreFault};
use sched_core::{Answer, Change, Event, Limits, Refusal};
use sqlite::{Alter, Connection, Files};
use sqlite_disk::Disk;
use std::alloc::{AllocError, Global};
use std::io;

/// Makes a record in these files, opens a director on it, steps the events, and prints what the record holds then.
pub(crate) fn play<D: Disk + Drop, R: Print>(
    rt: &R,
    alloc: Global,
    files: Files<D>,
) -> io::Result<()> {
    match open(alloc, files) {
        Ok(conn) => play_in(rt, alloc, conn),
        Err(_) => Err(io::Error::from(AllocError)),
    }
}

fn play_in<S: Alter + Drop, R: Print>(rt: &R, alloc: Global, conn: Connection<S>) -> io::Result<()>
    requires { conn.in_transaction ≡ false }
{
    match Store::create(alloc, conn) {
        Ok(store) => play_on(rt, alloc, store),
        Err((_conn, fault)) => tell(rt, &fault),
    }
}

fn play_on<S: Alter + Drop, R: Print>(rt: &R, alloc: Global, store: Store<S>) -> io::Result<()> {
    let mut store = store;
    rt.println("> a new record")?;
    read(rt, alloc, &mut store)?;
    let mut store = step_all(rt, alloc, store)?;
    rt.println("> read")?;
    read(rt, alloc, &mut store)
}

fn step_all<S: Alter + Drop, R: Print>(
    rt: &R,
    alloc: Global,
    store: Store<S>,
) -> io::Result<Store<S>> {
    let events = worked_events(alloc)?;
    match Director::open(alloc, store, 0, Limits::full()) {
        Ok(mut director) => {
            let stepped = step_events(rt, alloc, &mut director, &events);
            after(stepped, director.close())
        }
        Err((store, _)) => after(rt.println("not opened"), store),
    }
}

// The record, if what was printed was printed.
fn after<S: Alter + Drop>(printed: io::Result<()>, store: Store<S>) -> io::Result<Store<S>> {
    match printed {
        Ok(()) => Ok(store),
        Err(error) => Err(error),
    }
}

fn step_events<S: Alter + Drop, R: Print>(
    rt: &R,
    alloc: Global,
    director: &mut Director<S>,
    events: &[Event],
) -> io::Result<()> {
    for event in events {
        println!(rt; "> {}", name_of(event))?;
        step(rt, alloc, director, event)?;
    }
    Ok(())
}

// Prints the rows that an event writes, and steps it, unless it is refused.
fn step<S: Alter + Drop, R: Print>(
    rt: &R,
    alloc: Global,
    director: &mut Director<S>,
    event: &Event,
) -> io::Result<()> {
    print_plan(rt, director.schedule().plan(alloc, event))?;
    print_fault(rt, director.step(alloc, event))
}

fn print_plan<R: Print>(rt: &R, planned: Result<Change, Refusal>) -> io::Result<()> {
    match &planned {
        Ok(change) => print_rows(rt, change.rows()),
        Err(refusal) => println!(rt; "refused {refusal:?}"),
    }
}

fn print_fault<R: Print>(rt: &R, answered: Result<Answer, Fault>) -> io::Result<()> {
    match &answered {
        Ok(_) | Err(Fault::Refused(_)) => Ok(()),
        Err(fault) => println!(rt; "{fault:?}"),
    }
}

fn read<S: Alter + Drop, R: Print>(rt: &R, alloc: Global, store: &mut Store<S>) -> io::Result<()> {
    match store.load_rows(alloc) {
        Ok(rows) => print_rows(rt, &rows),
        Err(fault) => tell(rt, &fault),
    }
}

fn tell<R: Print>(rt: &R, fault: &StoreFault) -> io::Result<()> {
    match fault {
        StoreFault::Refused(_) => rt.println("refused"),
        StoreFault::NotOurs => rt.println("not ours"),
        StoreFault::Inconsistent(_, _) => rt.println("inconsistent"),
        StoreFault::Memory => rt.println("no memory"),
    }
}

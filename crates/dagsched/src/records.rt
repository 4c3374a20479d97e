//! The record on which a command is done.
ghost use Rattle.std.specs.Prelude.{◌≡◌, ◌⊎◌, false, IsTrue};
ghost use Rattle.sqlite.specs.Held.{state};
ghost use Rattle.sqlite.specs.WalFiles.{image_at};
ghost use Rattle.dagsched.specs.Commands.{IsAnsweredOn, IsCommandDone, IsSingleDone};
ghost use Rattle.dagsched.specs.Records.{has_tables, IsClosedWith, IsDoneInFile, IsDoneInFiles, IsDoneInMemory, IsDoneOn, IsNotMade};
ghost use Rattle.dagsched.specs.Scripts.{UnlessFailed};

use crate::failures::{out_of_memory, put_error, put_failure};
use crate::scripts::{OwnOperator, run_script};
use crate::telling::{tell_made, tell_migrated, tell_unanswered, tell_unkept, tell_unopened};
use crate::volatile::Volatile;
use answer_lines::{Shown, put};
use command_runner::{Answered, run_command};
use command_words::Command;
use director::{Fault, open_database};
use fault_sentences::SentenceConsole;
use meta_store::Store;
use operators::Operator;
use script_reader::Console;
use sqlite::{
    Alter, Connection, Error, ErrorCode, FileFrom, FileStore, Files, Options, Start, Unknown,
};
use sqlite_disk::Disk;
use std::alloc::Global;
use std::fs;
use std::io::{self, BufWriter, Write};
use std::sync::Wait;
use std::thread::Threads;

/// Does a command on the record in this file, which is made where there is none, and closes the file; the status.
pub fn in_file<T: Threads + Wait + Sync>(
    threads: &T,
    rt: &HostRuntime,
    path: &str,
    command: &Command,
    words: Vec<String>,
) -> u8
    ensures { IsDoneInFile ⟦<FileFrom<Unknown> as Disk>⟧ ⟦<OwnOperator as Operator>⟧
        (image_at ⟦<Unknown as Start>⟧) command.now result }
{
    in_file_from(threads, rt, path, Unknown, command, words)
}

// The same, whatever the file and its log hold at first, for which `start` stands: no code can read it. Where the file is not opened, that is told.
fn in_file_from<F: Start, T: Threads + Wait + Sync>(
    threads: &T,
    rt: &HostRuntime,
    path: &str,
    start: F,
    command: &Command,
    words: Vec<String>,
) -> u8
    ensures { IsDoneInFile ⟦<FileFrom<F> as Disk>⟧ ⟦<OwnOperator as Operator>⟧ (image_at F.Start)
        command.now result }
{
    let was_there = fs::metadata(rt, path).is_ok();
    match open_database(rt, path, start) {
        Ok(conn) => {
            tell_unless(rt, path, was_there);
            let (conn, status) = on_connection(threads, rt, conn, Some(path), command, words);
            close(conn, status)
        }
        Err(error) => put_unopened(rt, path, error),
    }
}

// Tells that the file was made, unless it was there.
fn tell_unless(rt: &HostRuntime, path: &str, was_there: bool) {
    if !was_there {
        tell_made(rt, path);
    }
}

// Closes the file of a database; the status, where that of the command is this one.
fn close<D: Disk + Drop>(conn: Connection<FileStore<D>>, status: u8) -> u8
    ensures { IsClosedWith conn status result }
{
    match conn.close_files() {
        Ok(_files) => status,
        Err((_, store)) => {
            drop(store.close());
            status.max(3)
        }
    }
}

// Prints that SQLite does not open the file, and tells why; the status.
fn put_unopened(rt: &HostRuntime, path: &str, error: Error) -> u8
    ensures { UnlessFailed 3 result }
{
    if let Error::SqliteFailure(ErrorCode::OutOfMemory) = error {
        return out_of_memory(rt);
    }
    match put(&mut rt.stdout(), Shown::Unopened) {
        Ok(()) => {
            tell_unopened(rt, path, error);
            3
        }
        Err(error) => put_error(rt, error),
    }
}

/// Does a command on a new record in memory; the status.
pub fn in_memory<T: Threads + Wait + Sync>(
    threads: &T,
    rt: &HostRuntime,
    command: &Command,
    words: Vec<String>,
) -> u8
    ensures { IsDoneInMemory ⟦<Volatile as Disk>⟧ ⟦<OwnOperator as Operator>⟧ command.now result }
{
    let alloc = rt.alloc();
    let files = Files {
        log: Volatile::new(alloc),
        db: Volatile::new(alloc),
    };
    in_files(threads, rt, files, command, words)
}

// Does a command on a record in these files, which are gone with the program; the status.
fn in_files<D: Disk + Drop, T: Threads + Wait + Sync>(
    threads: &T,
    rt: &HostRuntime,
    files: Files<D>,
    command: &Command,
    words: Vec<String>,
) -> u8
    requires log { IsTrue (D.Disk.is_usable files.log) }
    requires db { IsTrue (D.Disk.is_usable files.db) }
    ensures { IsDoneInFiles D.Disk ⟦<OwnOperator as Operator>⟧ command.now files result
        ⊎ IsNotMade result }
{
    match Connection::open_files(rt.alloc(), files, Options::new(1)) {
        Ok(conn) => {
            let (_conn, status) = on_connection(threads, rt, conn, None, command, words);
            tell_unkept(rt, command);
            status
        }
        Err((error, _)) => put_unmade(rt, error),
    }
}

// Prints that memory ran out, if SQLite makes no database for that; the status.
fn put_unmade(rt: &HostRuntime, error: Error) -> u8
    ensures { result ≡ 4 }
{
    match error {
        Error::SqliteFailure(ErrorCode::OutOfMemory) => out_of_memory(rt),
        _ => 4,
    }
}

// Makes a record in an empty database, or takes the one that is there, and does the command on it. The database of another program is no
// record, and is left as it is. The path is that of its file, where it has one.
fn on_connection<S: Alter + Drop, T: Threads + Wait + Sync>(
    threads: &T,
    rt: &HostRuntime,
    conn: Connection<S>,
    path: Option<&str>,
    command: &Command,
    words: Vec<String>,
) -> (Connection<S>, u8)
    requires { conn.in_transaction ≡ false }
    ensures done { IsDoneOn (state S.Store) ⟦<OwnOperator as Operator>⟧ command.now conn result.0
        result.1 }
    ensures settled { result.0.in_transaction ≡ false }
{
    if has_tables(&conn) {
        return on_store(threads, rt, Store::adopt(conn), path, command, words);
    }
    match Store::create(rt.alloc(), conn) {
        Ok(store) => on_store(threads, rt, store, path, command, words),
        Err((conn, fault)) => {
            let status = put_failure(rt, &Fault::from(fault));
            (conn, status)
        }
    }
}

// Whether the database has tables.
fn has_tables<S: Alter>(conn: &Connection<S>) -> bool
    ensures { result ≡ has_tables (state S.Store conn.now).now.schema }
{
    !conn.schema().tables.as_slice().is_empty()
}

// Does the command on a record, and tells where it was of version 1 and is of version 2 now.
fn on_store<S: Alter + Drop, T: Threads + Wait + Sync>(
    threads: &T,
    rt: &HostRuntime,
    store: Store<S>,
    path: Option<&str>,
    command: &Command,
    words: Vec<String>,
) -> (Connection<S>, u8)
    ensures done { IsCommandDone (state S.Store) ⟦<OwnOperator as Operator>⟧ command.now store
        result.0 result.1 }
    ensures settled { result.0.in_transaction ≡ false }
{
    let had_limits = store.has_limits();
    let (store, status) = run(threads, rt, store, command, words);
    tell_version(rt, path, had_limits, store.has_limits());
    (store.release(), status)
}

// Tells that the record in this file, if it is in one, had no limits and has some now, so that it is of version 2.
fn tell_version(rt: &HostRuntime, path: Option<&str>, had_limits: bool, has_limits: bool) {
    if let Some(path) = path {
        if !had_limits && has_limits {
            tell_migrated(rt, path);
        }
    }
}

fn run<S: Alter + Drop, T: Threads + Wait + Sync>(
    threads: &T,
    rt: &HostRuntime,
    store: Store<S>,
    command: &Command,
    words: Vec<String>,
) -> (Store<S>, u8)
    ensures { IsCommandDone (state S.Store) ⟦<OwnOperator as Operator>⟧ command.now store result.0
        result.1 }
{
    match command {
        Command::Run(options) => run_script(threads, rt, store, options, words),
        Command::List(_)
        | Command::Explain(_)
        | Command::Step(_)
        | Command::Take(_, _)
        | Command::Tick(_)
        | Command::Drain => run_single(rt, store, command, words),
    }
}

// Does one command outside of a script, and writes out its answer.
fn run_single<S: Alter + Drop>(
    rt: &HostRuntime,
    store: Store<S>,
    command: &Command,
    words: Vec<String>,
) -> (Store<S>, u8)
    ensures { IsSingleDone (state S.Store) command.now store result.0 result.1 }
{
    let alloc = rt.alloc();
    let mut output = match BufWriter::new(alloc, rt.stdout()) {
        Ok(output) => output,
        Err(error) => return (store, put_error(rt, error)),
    };
    let mut console = SentenceConsole::in_memory(*rt, alloc, words);
    let (store, status, flushed) = answer_on(alloc, store, command, &mut output, &mut console);
    // a sentence follows the answer
    let _ = rt.stderr().write_all(console.into_output().as_slice());
    if let Err(error) = flushed {
        tell_unanswered(rt, &error);
    }
    (store, status)
}

// Does one command outside of a script, whatever the output is, and writes out its answer; with the status comes whether it was written out.
fn answer_on<S: Alter + Drop, W: Write, P: Console>(
    alloc: Global,
    store: Store<S>,
    command: &Command,
    output: &mut W,
    console: &mut P,
) -> (Store<S>, u8, io::Result<()>)
    ensures { IsAnsweredOn (state S.Store) command.now (W.contents output.old) (W.contents output.new)
        store result.0 result.1 }
{
    let Answered { store, status, .. } = run_command(alloc, store, command, output, console);
    match output.flush() {
        Ok(()) => (store, status, Ok(())),
        Err(error) => (store, 4, Err(error)),
    }
}

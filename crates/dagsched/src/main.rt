//! The program: `dagsched [--record PATH] COMMAND` does one command on a record, and `dagsched run` reads a script of commands from standard input
//! and performs the tries that it hands out.
//!
//! ```text
//! dagsched --record nightly.db run --workers 4 < SCRIPT
//! dagsched --record nightly.db list tasks
//! ```
//!
//! The record is the one in the file at PATH, which is made where it is not there, or else a new one, in memory. `docs/SCRIPTS.md` is the page of all
//! words, answers and statuses. Help goes to standard output, and a usage fault of the program's own words to standard error, as do sentences for a
//! person.
#![tactic(auto)]

ghost use Rattle.std.specs.Prelude.{◌≡◌, ◌++◌, ◌∷◌, [], IfOk, MatchResult, codes, map, string_bytes};
ghost use Rattle.sqlite.specs.WalFiles.{image_at};
ghost use Rattle.dagsched.specs.Commands.{is_of_scripts};
ghost use Rattle.dagsched.specs.Words.{words_meant, AreWordsDone, IsEndWithoutWords, IsLineDone};

mod failures;
mod records;
mod scripts;
mod telling;
mod usage;
mod volatile;

use crate::failures::{out_of_memory, put_error};
use crate::records::{in_file, in_memory};
use crate::scripts::{OwnOperator, make_logs};
use crate::usage::{put_fault, put_unreadable, put_usage};
use crate::volatile::Volatile;
use command_words::{Command, CommandLine, UsageFault, read_command};
use operators::Operator;
use sqlite_disk::{Disk, Start, Unknown};
use sqlite_std_file::File;
use std::alloc::{AllocError, Global};
use std::env;
use std::io::{self, ErrorKind};
use std::process::ExitCode;
use std::sync::Wait;
use std::thread::Threads;

fn main(rt: HostRuntime) -> ExitCode {
    let words = own_words(&rt);
    ExitCode::from(status(&rt, &rt, words))
}

// The words after the program's name.
fn own_words(rt: &HostRuntime) -> io::Result<Vec<String>> {
    let mut words = env::args(rt)?;
    let _program = words.next();
    Ok(words.collect::<Vec<String>>(rt.alloc())?)
}

// Does what these words ask for, which stand after the program's name, and answers its status.
fn status<T: Threads + Wait + Sync>(
    threads: &T,
    rt: &HostRuntime,
    words: io::Result<Vec<String>>,
) -> u8
    ensures { MatchResult words (λ given. AreWordsDone ⟦<Volatile as Disk>⟧ ⟦<File as Disk>⟧
        (image_at ⟦<Unknown as Start>⟧) ⟦<OwnOperator as Operator>⟧
        (words_meant (map string_bytes given.items)) result)
        (λ error. IsEndWithoutWords error result) }
{
    match words {
        Ok(words) => match words_meant(rt.alloc(), words) {
            Ok(meant) => do_words(threads, rt, meant),
            Err(_) => out_of_memory(rt),
        },
        Err(error) if error.kind() == ErrorKind::InvalidData => put_unreadable(rt),
        Err(error) => put_error(rt, error),
    }
}

// What words mean: those of `help COMMAND` are `COMMAND --help`.
fn words_meant(alloc: Global, words: Vec<String>) -> Result<Vec<String>, AllocError>
    ensures { IfOk result (λ meant. map string_bytes meant.items
        ≡ words_meant (map string_bytes words.items)) }
{
    match words.as_slice() {
        [first, command @ ..] if first.as_str() == "help" => help_of(alloc, command),
        _ => Ok(words),
    }
}

// The words that ask for the help of this command.
fn help_of(alloc: Global, command: &[String]) -> Result<Vec<String>, AllocError>
    ensures { IfOk result (λ asked. map string_bytes asked.items
        ≡ map string_bytes command.now ++ codes "--help" ∷ []) }
{
    let mut asked = Vec::new(alloc);
    for word in command {
        asked.push(String::from_str(alloc, word.as_str())?)?;
    }
    asked.push(String::from_str(alloc, "--help")?)?;
    Ok(asked)
}

// Does what these words ask for, which stand without the program's name.
fn do_words<T: Threads + Wait + Sync>(threads: &T, rt: &HostRuntime, words: Vec<String>) -> u8
    ensures { AreWordsDone ⟦<Volatile as Disk>⟧ ⟦<File as Disk>⟧ (image_at ⟦<Unknown as Start>⟧)
        ⟦<OwnOperator as Operator>⟧ (map string_bytes words.items) result }
{
    match read_command(rt.alloc(), words.as_slice()) {
        Ok(line) => do_line(threads, rt, line, words),
        Err(fault) => put_fault(rt, fault, words.as_slice()),
    }
}

// Does the command, if it has its place here.
fn do_line<T: Threads + Wait + Sync>(
    threads: &T,
    rt: &HostRuntime,
    line: CommandLine,
    words: Vec<String>,
) -> u8
    ensures { IsLineDone ⟦<Volatile as Disk>⟧ ⟦<File as Disk>⟧ (image_at ⟦<Unknown as Start>⟧)
        ⟦<OwnOperator as Operator>⟧ line result }
{
    let CommandLine {
        record_path,
        command,
    } = line;
    if is_of_scripts(&command) {
        return put_usage(rt, UsageFault::NotHere, words.as_slice());
    }
    // before the record is opened, so that it stays as it is where nothing is run
    if let Err(status) = make_logs(rt, &command) {
        return status;
    }
    match record_path {
        Some(path) => in_file(threads, rt, path.as_str(), &command, words),
        None => in_memory(threads, rt, &command, words),
    }
}

// Whether the command is for scripts alone.
fn is_of_scripts(command: &Command) -> bool
    ensures { result ≡ is_of_scripts command.now }
{
    matches!(
        command,
        Command::Take(_, _) | Command::Tick(_) | Command::Drain
    )
}

//! A command outside of scripts.
ghost use Rattle.sqlite.specs.Held.{state};
ghost use Rattle.command_runner.specs.Commands.{IsDone};

use crate::doing::{Came, read_schedule, step_event};
use crate::telling::{SingleEnd, tell_event, tell_failure, tell_reasons, tell_rows, told_by};
use command_words::{Command, UsageFault};
use director::Store;
use script_commands::CommandFault;
use script_reader::{Console, Shown, put};
use sqlite::Alter;
use std::alloc::Global;
use std::io::Write;

/// What a command left.
#[derive(Drop)]
pub struct Answered<S: Alter> {
    /// The record.
    pub store: Store<S>,
    /// The status of the answer, and 4 where that is not written.
    pub status: u8,
    /// Whether the answer is written.
    pub told: bool,
}

/// Does one command on a record, writes its answer, and gives the record back, with the status and whether the answer is written.
///
/// `trigger`, `backfill`, `clear`, `mark`, `pause`, `unpause` and `resize` open the record within the greatest limits, without lanes, which makes one of
/// version 1 one of version 2, and step their event. `list` and `explain` look at what the record holds, of either version, and leave it as it is. `run` is the
/// caller's; it and what is for scripts alone, `load`, `replace`, `tick` and `drain`, have no place here. Each is done before anything is written. The console
/// is given what came of an event, or why a question was not answered, and may tell of it before the output is flushed.
pub fn run_command<S: Alter + Drop, W: Write, P: Console>(
    alloc: Global,
    store: Store<S>,
    command: &Command,
    output: &mut W,
    console: &mut P,
) -> Answered<S>
    ensures { IsDone (state S.Store) store command.now (W.contents output.old) (W.contents output.new) result.store result.told result.status }
{
    let (store, told) = do_command(alloc, store, command, output, console);
    let SingleEnd { status, is_written } = told;
    Answered {
        store,
        status,
        told: is_written,
    }
}

// Does one command, and gives the record back with what became of its answer.
fn do_command<S: Alter + Drop, W: Write, P: Console>(
    alloc: Global,
    store: Store<S>,
    command: &Command,
    output: &mut W,
    console: &mut P,
) -> (Store<S>, SingleEnd)
    ensures { IsDone (state S.Store) store command.now (W.contents output.old) (W.contents output.new) result.0 result.1.is_written result.1.status }
{
    let mut store = store;
    match command {
        Command::Step(event) => match step_event(alloc, store, event) {
            Came::Stepped(director, came) => {
                let told = tell_event(event, &came, director.schedule(), output, console);
                (director.close(), told)
            }
            Came::Unopened(store, fault) => {
                let told = tell_failure(&fault, Some(event), None, output, console);
                (store, told)
            }
        },
        Command::List(listing) => {
            let read = read_schedule(alloc, &mut store);
            let told = tell_rows(&read, *listing, output, console);
            (store, told)
        }
        Command::Explain(question) => {
            let read = read_schedule(alloc, &mut store);
            let told = tell_reasons(alloc, &read, question, output, console);
            (store, told)
        }
        Command::Run(_) | Command::Take(_, _) | Command::Tick(_) | Command::Drain => {
            let fault = CommandFault::Usage(UsageFault::NotHere);
            let put = put(output, Shown::NoCommand(fault));
            (store, told_by(2, put))
        }
    }
}

//! The program's command, with all commands under it.
ghost use Rattle.std.specs.Prelude.{◌≡◌, false, IfOk};
ghost use Rattle.clap.specs.Words.{app_of};
ghost use Rattle.clap.specs.declared.builder.command.Command.TheViews.{out-Command as fields_of};
ghost use Rattle.word_app.specs.App as spec;

use crate::adding::with_command;
use crate::commands::{
    drain_command, explain_command, list_command, of_dag, of_path, resize_command, run_command,
    tick_command,
};
use crate::repairs::{backfill_command, clear_command, mark_command};
use crate::rules::option;
use clap::Command;
use std::alloc::{AllocError, Global};

// What `--version` prints behind the name of the program.
const VERSION: &str = "0.4.1 (record version 2)";

// The program's command with no command under it.
fn start<'a>(alloc: Global) -> Result<Command<'a>, AllocError>
    ensures app { IfOk result (λ c. app_of c ≡ spec.start) }
    ensures globals { IfOk result (λ c. (fields_of c).has_globals ≡ false) }
{
    let command = Command::new(alloc, "dagsched").bin_name("dagsched")?;
    let command = command
        .about("Schedules graphs of tasks as Airflow 2 does")
        .version(VERSION)
        .after_help(
            "A script of run also takes load FILE, replace FILE, tick MOMENT, tick now and drain.\nA moment is 2024-02-29, which is its first second, or 2024-02-29T12:30:00Z, in UTC.",
        )
        .no_binary_name(true)
        .subcommand_required(true)
        .disable_help_subcommand(true);
    let record = option(
        alloc,
        "record",
        "PATH",
        "The file of the record; without it the record is in memory",
    );
    let command = command.arg(record)?;
    Ok(command)
}

// With the commands that change no graph.
fn with_looks<'a>(alloc: Global, names: &'a [&'a str]) -> Result<Command<'a>, AllocError>
    ensures app { IfOk result (λ c. app_of c ≡ spec.with_looks names.entry) }
    ensures globals { IfOk result (λ c. (fields_of c).has_globals ≡ false) }
{
    let command = with_command(start(alloc), run_command(alloc));
    let command = with_command(command, list_command(alloc, names));
    with_command(command, explain_command(alloc))
}

// With the commands of a graph alone.
fn with_dags<'a>(alloc: Global, command: Command<'a>) -> Result<Command<'a>, AllocError>
    requires globals { (fields_of command).has_globals ≡ false }
    ensures app { IfOk result (λ c. app_of c ≡ spec.with_dags (app_of command.entry)) }
    ensures globals { IfOk result (λ c. (fields_of c).has_globals ≡ false) }
{
    let trigger = of_dag(
        alloc,
        "trigger",
        "Makes a run of a graph by hand, at the moment of the record's clock",
    );
    let command = with_command(Ok(command), trigger);
    let pause = of_dag(
        alloc,
        "pause",
        "Pauses a graph: its timetable makes no runs, no run of it starts, and no try of it is handed out",
    );
    let command = with_command(command, pause);
    let unpause = of_dag(alloc, "unpause", "Lets a paused graph go on");
    with_command(command, unpause)
}

// With the commands that repair, and that of pools.
fn with_repairs<'a>(alloc: Global, command: Command<'a>) -> Result<Command<'a>, AllocError>
    requires globals { (fields_of command).has_globals ≡ false }
    ensures app { IfOk result (λ c. app_of c ≡ spec.with_repairs (app_of command.entry)) }
    ensures globals { IfOk result (λ c. (fields_of c).has_globals ≡ false) }
{
    let command = with_command(Ok(command), backfill_command(alloc));
    let command = with_command(command, clear_command(alloc));
    let command = with_command(command, mark_command(alloc));
    with_command(command, resize_command(alloc))
}

// With the commands of scripts alone.
fn with_script_words<'a>(alloc: Global, command: Command<'a>) -> Result<Command<'a>, AllocError>
    requires globals { (fields_of command).has_globals ≡ false }
    ensures app { IfOk result (λ c. app_of c ≡ spec.with_script_words (app_of command.entry)) }
    ensures globals { IfOk result (λ c. (fields_of c).has_globals ≡ false) }
{
    let load = of_path(alloc, "load", "In a script: takes in a graph file");
    let command = with_command(Ok(command), load);
    let replace = of_path(
        alloc,
        "replace",
        "In a script: gives a graph that has runs another text",
    );
    let command = with_command(command, replace);
    let command = with_command(command, tick_command(alloc));
    with_command(command, drain_command(alloc))
}

/// The program's command, where `names` are the words that `list` takes. Its words stand without the program's name before them.
///
/// An `Err` says that memory ran out.
pub fn command<'a>(alloc: Global, names: &'a [&'a str]) -> Result<Command<'a>, AllocError>
    ensures { IfOk result (λ c. app_of c ≡ spec.dagsched_at names.entry) }
{
    let looks = with_looks(alloc, names)?;
    let named = with_dags(alloc, looks)?;
    let repaired = with_repairs(alloc, named)?;
    let whole = with_script_words(alloc, repaired)?;
    Ok(whole)
}

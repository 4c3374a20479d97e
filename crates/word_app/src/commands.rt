//! The commands, but for those that repair.
//!
//! Easy to get wrong: clap takes words in the order in which a command gets them.
ghost use Rattle.std.specs.Prelude.{◌≡◌, false, IfOk};
ghost use Rattle.clap.specs.Words.{app_of};
ghost use Rattle.clap.specs.declared.builder.command.Command.TheViews.{out-Command as fields_of};
ghost use Rattle.word_app.specs.App as spec;

use crate::adding::with_argument;
use crate::rules::{
    dag_word, lanes_option, logs_option, pool_word, scratch_option, size_word, word, workers_option,
};
use clap::Command;
use std::alloc::{AllocError, Global};

/// `run [--workers N] [--lanes N] [--scratch DIR] [--logs DIR]`.
pub(crate) fn run_command<'a>(alloc: Global) -> Result<Command<'a>, AllocError>
    ensures app { IfOk result (λ c. app_of c ≡ spec.run) }
    ensures globals { IfOk result (λ c. (fields_of c).has_globals ≡ false) }
{
    with_argument(unlogged_run_command(alloc), logs_option(alloc))
}

// `run [--workers N] [--lanes N] [--scratch DIR]`.
fn unlogged_run_command<'a>(alloc: Global) -> Result<Command<'a>, AllocError>
    ensures app { IfOk result (λ c. app_of c ≡ spec.unlogged_run) }
    ensures globals { IfOk result (λ c. (fields_of c).has_globals ≡ false) }
{
    let command = Command::new(alloc, "run").about(
        "Runs a script: commands from standard input, a line each",
    );
    let command = with_argument(Ok(command), workers_option(alloc));
    let command = with_argument(command, lanes_option(alloc));
    with_argument(command, scratch_option(alloc))
}

/// `list ROWS`, where a word of `names` must stand for the rows.
pub(crate) fn list_command<'a>(
    alloc: Global,
    names: &'a [&'a str],
) -> Result<Command<'a>, AllocError>
    ensures app { IfOk result (λ c. app_of c ≡ spec.list names.entry) }
    ensures globals { IfOk result (λ c. (fields_of c).has_globals ≡ false) }
{
    let rows = word(alloc, "rows", "ROWS", "What is printed, a line each").value_parser(names);
    let command = Command::new(alloc, "list").about(
        "Prints the graphs, the runs, the task instances or the pools",
    );
    let command = command.arg(rows)?;
    Ok(command)
}

/// `NAME DAG`.
pub(crate) fn of_dag<'a>(
    alloc: Global,
    name: &'a str,
    about: &'a str,
) -> Result<Command<'a>, AllocError>
    ensures app { IfOk result (λ c. app_of c ≡ spec.of_dag name.entry.now) }
    ensures globals { IfOk result (λ c. (fields_of c).has_globals ≡ false) }
{
    let dag = dag_word(alloc);
    let command = Command::new(alloc, name).about(about).arg(dag)?;
    Ok(command)
}

/// `NAME DAG LOGICAL TASK`.
pub(crate) fn of_instance<'a>(
    alloc: Global,
    name: &'a str,
    about: &'a str,
) -> Result<Command<'a>, AllocError>
    ensures app { IfOk result (λ c. app_of c ≡ spec.of_instance name.entry.now) }
    ensures globals { IfOk result (λ c. (fields_of c).has_globals ≡ false) }
{
    let command = of_dag(alloc, name, about);
    let logical = word(alloc, "logical", "LOGICAL", "The run's logical date");
    let command = with_argument(command, logical);
    let task = word(
        alloc,
        "task",
        "TASK",
        "The task's id, as `task_id` in the graph's file",
    );
    with_argument(command, task)
}

/// `explain DAG LOGICAL TASK`.
pub(crate) fn explain_command<'a>(alloc: Global) -> Result<Command<'a>, AllocError>
    ensures app { IfOk result (λ c. app_of c ≡ spec.explain) }
    ensures globals { IfOk result (λ c. (fields_of c).has_globals ≡ false) }
{
    of_instance(
        alloc,
        "explain",
        "Says why a task instance stands where it does, a reason a line",
    )
}

/// `resize POOL SIZE`.
pub(crate) fn resize_command<'a>(alloc: Global) -> Result<Command<'a>, AllocError>
    ensures app { IfOk result (λ c. app_of c ≡ spec.resize) }
    ensures globals { IfOk result (λ c. (fields_of c).has_globals ≡ false) }
{
    let command = Command::new(alloc, "resize").about("Gives a pool its number of slots");
    let command = with_argument(Ok(command), pool_word(alloc));
    with_argument(command, size_word(alloc))
}

/// `NAME PATH`, of scripts alone.
pub(crate) fn of_path<'a>(
    alloc: Global,
    name: &'a str,
    about: &'a str,
) -> Result<Command<'a>, AllocError>
    ensures app { IfOk result (λ c. app_of c ≡ spec.of_path name.entry.now) }
    ensures globals { IfOk result (λ c. (fields_of c).has_globals ≡ false) }
{
    let path = word(
        alloc,
        "path",
        "PATH",
        "The graph file, or `inline` for the lines up to one that is `.` alone",
    );
    let command = Command::new(alloc, name).about(about).hide(true);
    let command = command.arg(path)?;
    Ok(command)
}

/// `tick MOMENT`, of scripts alone.
pub(crate) fn tick_command<'a>(alloc: Global) -> Result<Command<'a>, AllocError>
    ensures app { IfOk result (λ c. app_of c ≡ spec.tick) }
    ensures globals { IfOk result (λ c. (fields_of c).has_globals ≡ false) }
{
    let moment = word(
        alloc,
        "moment",
        "MOMENT",
        "The moment that the clock has reached, or `now`",
    );
    let command = Command::new(alloc, "tick")
        .about("In a script: moves the clock")
        .hide(true);
    let command = command.arg(moment)?;
    Ok(command)
}

/// `drain`, of scripts alone.
pub(crate) fn drain_command<'a>(alloc: Global) -> Result<Command<'a>, AllocError>
    ensures app { IfOk result (λ c. app_of c ≡ spec.drain) }
    ensures globals { IfOk result (λ c. (fields_of c).has_globals ≡ false) }
{
    Ok(
        Command::new(alloc, "drain")
            .about("In a script: waits until no try is in flight")
            .hide(true),
    )
}

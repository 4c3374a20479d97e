//! The program that a command starts, and what the status means with which it ends.
ghost use Rattle.std.specs.Prelude.{◌≡◌, ℕ, List, [], ◌∷◌, ◌++◌, map, false, None, Some, option_map, IfOk, OnOk};
ghost use Rattle.std.specs.Process.{command_program, command_args, command_dir, command_var, clears_env};
ghost use Rattle.std.specs.Process.{SameEnv, SameDir};
ghost use Rattle.operators.specs.Commands.{with_folder, texts_in, timed, first_text, later_texts, program_of, arguments_of};
ghost use Rattle.operators.specs.Outcomes.{code_outcome, status_outcome};
ghost use Rattle.operators.specs.Variables.{variable_of};

use crate::variables::add_variables;
use graph_file::{Action, Argument};
use instance_machine::Outcome;
use sched_state::Job;
use std::alloc::{AllocError, Global};
use std::process::Command;

/// The program that the first argument of a job names, with the others as its arguments: for each that is `@scratch` it gets the path of
/// the try's folder. It gets the environment of who starts it, with the variables that say which try it is, and its working folder.
/// Where the job says how long it may take, `timeout` starts it, and ends its process group then. Where there is no argument the program's name
/// is empty, and nothing can be started.
pub fn command_of(alloc: Global, job: &Job, folder: &str) -> Result<Command, AllocError>
    ensures program { IfOk result (λ c. command_program c ≡ program_of folder.now job.now.action) }
    ensures arguments { IfOk result (λ c. command_args c
        ≡ arguments_of folder.now job.now.action) }
    ensures environment { IfOk result (λ c. (clears_env c ≡ false)
        × ((name : List ℕ) → command_var c name
        ≡ option_map (λ v. Some v) (variable_of job.now folder.now name))) }
    ensures folder { IfOk result (λ c. command_dir c ≡ None) }
{
    let mut command = bare_command(alloc, &job.action, folder)?;
    add_variables(alloc, &mut command, job, folder)?;
    Ok(command)
}

// What is started for an action, in the environment of who starts it.
fn bare_command(alloc: Global, action: &Action, folder: &str) -> Result<Command, AllocError>
    ensures program { IfOk result (λ c. command_program c ≡ program_of folder.now action.now) }
    ensures arguments { IfOk result (λ c. command_args c ≡ arguments_of folder.now action.now) }
    ensures environment { IfOk result (λ c. (clears_env c ≡ false)
        × ((name : List ℕ) → command_var c name ≡ None)) }
    ensures folder { IfOk result (λ c. command_dir c ≡ None) }
{
    match action.timeout() {
        Some(seconds) => timed_command(alloc, action.argv(), folder, seconds.get()),
        None => plain_command(alloc, action.argv(), folder),
    }
}

// The program with its arguments, in the environment of who starts it.
fn plain_command(alloc: Global, argv: &[Argument], folder: &str) -> Result<Command, AllocError>
    ensures program { IfOk result (λ c. command_program c ≡ first_text (texts_in folder.now argv.now)) }
    ensures arguments { IfOk result (λ c. command_args c ≡ later_texts (texts_in folder.now argv.now)) }
    ensures environment { IfOk result (λ c. (clears_env c ≡ false)
        × ((name : List ℕ) → command_var c name ≡ None)) }
    ensures folder { IfOk result (λ c. command_dir c ≡ None) }
{
    let [program, arguments @ ..] = argv else {
        return Command::new(alloc, "");
    };
    let mut command = Command::new(alloc, program.as_str())?;
    push_arguments(&mut command, arguments, folder)?;
    Ok(command)
}

// The same, started by `timeout`, which ends its process group after so many seconds.
fn timed_command(
    alloc: Global,
    argv: &[Argument],
    folder: &str,
    seconds: u32,
) -> Result<Command, AllocError>
    ensures program { IfOk result (λ c. command_program c ≡ first_text (timed (Some seconds) (texts_in folder.now argv.now))) }
    ensures arguments { IfOk result (λ c. command_args c ≡ later_texts (timed (Some seconds) (texts_in folder.now argv.now))) }
    ensures environment { IfOk result (λ c. (clears_env c ≡ false)
        × ((name : List ℕ) → command_var c name ≡ None)) }
    ensures folder { IfOk result (λ c. command_dir c ≡ None) }
{
    let mut command = Command::new(alloc, "timeout")?;
    push_timed(alloc, &mut command, argv, folder, seconds)?;
    Ok(command)
}

// Adds the words of `timeout` that say when it ends a program, and that program's name and its arguments.
fn push_timed(
    alloc: Global,
    command: &mut Command,
    argv: &[Argument],
    folder: &str,
    seconds: u32,
) -> Result<(), AllocError>
    ensures arguments { OnOk result (command_args command.new ≡ command_args command.old
        ++ later_texts (timed (Some seconds) (texts_in folder.now argv.now))) }
    ensures program { OnOk result (command_program command.new ≡ command_program command.old) }
    ensures environment { OnOk result (SameEnv command.old command.new) }
    ensures folder { OnOk result (SameDir command.old command.new) }
{
    command.arg("-k")?;
    command.arg("10")?;
    command.arg(seconds.to_string(alloc)?.as_str())?;
    push_texts(command, argv, folder)?;
    Ok(())
}

// Adds a program's name and its arguments.
fn push_texts(command: &mut Command, argv: &[Argument], folder: &str) -> Result<(), AllocError>
    ensures arguments { OnOk result (command_args command.new
        ≡ command_args command.old ++ texts_in folder.now argv.now) }
    ensures program { OnOk result (command_program command.new ≡ command_program command.old) }
    ensures environment { OnOk result (SameEnv command.old command.new) }
    ensures folder { OnOk result (SameDir command.old command.new) }
{
    let [program, arguments @ ..] = argv else {
        return Ok(());
    };
    command.arg(program.as_str())?;
    push_arguments(command, arguments, folder)
}

// Adds each argument, or the folder's path for `@scratch`.
fn push_arguments(
    command: &mut Command,
    arguments: &[Argument],
    folder: &str,
) -> Result<(), AllocError>
    ensures arguments { OnOk result (command_args command.new
        ≡ command_args command.old ++ map (with_folder folder.now) arguments.now) }
    ensures program { OnOk result (command_program command.new ≡ command_program command.old) }
    ensures environment { OnOk result (SameEnv command.old command.new) }
    ensures folder { OnOk result (SameDir command.old command.new) }
{
    for argument in arguments {
        push_argument(command, argument.as_str(), folder)?;
    }
    Ok(())
}

// Adds an argument, or the folder's path for `@scratch`.
fn push_argument(command: &mut Command, argument: &str, folder: &str) -> Result<(), AllocError>
    ensures arguments { OnOk result (command_args command.new
        ≡ command_args command.old ++ with_folder folder.now argument.now ∷ []) }
    ensures program { OnOk result (command_program command.new ≡ command_program command.old) }
    ensures environment { OnOk result (SameEnv command.old command.new) }
    ensures folder { OnOk result (SameDir command.old command.new) }
{
    if argument == "@scratch" {
        command.arg(folder)?;
    } else {
        command.arg(argument)?;
    }
    Ok(())
}

/// What the code says with which a program ended, `None` where a signal ended it: 0 is success, 99 asks to be skipped, and all else is
/// a failure.
pub fn outcome_of_code(code: Option<i32>) -> Outcome
    ensures { result ≡ code_outcome code }
{
    match code {
        Some(0) => Outcome::Success,
        Some(99) => Outcome::Skipped,
        _ => Outcome::Failed,
    }
}

// What a status says.
pub(crate) fn outcome_of_status(status: u8) -> Outcome
    ensures { result ≡ status_outcome status }
{
    outcome_of_code(Some(i32::from(status)))
}

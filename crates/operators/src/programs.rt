//! The operator of tasks that start a program (Airflow 2, `BashOperator`, without a shell).
ghost use Rattle.std.specs.Prelude.{◌≡◌, None, [], false, option_map, string_bytes};
ghost use Rattle.graph_file.specs.declared.operators.Operator.TheVariants as kinds;
ghost use Rattle.operators.specs.Commands.{folder_of};
ghost use Rattle.operators.specs.Outcomes.{is_lost};

use crate::commands::{command_of, outcome_of_code};
use crate::folders::TryFolder;
use crate::logs::{logged_status, open_log};
use crate::{BeginFault, Operator, Progress};
use graph_file::Operator as Kind;
use instance_machine::Outcome;
use sched_state::Job;
use std::alloc::Global;
use std::fs::File;
use std::io;
use std::process::{Command, ExitStatus, Processes, Stdio};
use std::rt::Files;

/// Starts the program that a job's arguments name, and waits for it to end. No shell reads the arguments.
///
/// Each try has a folder `try-SERIAL` of its own under the base folder, from `begin` on; one that is there is taken. `finish` and a drop
/// remove it with all that is in it, as far as the system lets them. The program's standard input is empty. What it writes goes to the log
/// of the try ([`log_path_of`](crate::log_path_of)), where a line is added if it does not end with the status 0, or is lost if there is no
/// folder for logs. Status 0 is success, 99 asks to be skipped; another one, a signal, a log that cannot be opened and a program that cannot
/// be started are failures. So is one whose time is over: `timeout` then ends its process group, by TERM and ten seconds later by KILL.
pub struct Program<R: Files<File = File> + Processes + Drop> {
    progress: Progress,
    rt: R,
    alloc: Global,
    base: String,
    logs: Option<String>,
    // that of the try that is taken up
    folder: Option<TryFolder>,
    ghost has_folder: { folder ≡ option_map (folder_of (string_bytes base)) progress.taken },
}

impl<R: Files<File = File> + Processes + Drop> Program<R> {
    /// An operator that has performed nothing, with the base folder of the tries' folders, and that of their logs where they have some.
    /// This takes no memory, and touches no folder.
    pub fn new(rt: R, alloc: Global, base: String, logs: Option<String>) -> Program<R>
        ensures runs { ⟦<Program<R> as Operator>⟧.runs_of result ≡ [] }
        ensures refused { ⟦<Program<R> as Operator>⟧.refused_of result ≡ [] }
        ensures taken { (⟦<Program<R> as Operator>⟧.taken result ≡ None)
            × (⟦<Program<R> as Operator>⟧.performed result ≡ false) }
        ensures kind { ⟦<Program<R> as Operator>⟧.kind_of result ≡ kinds.Command }
    {
        Program {
            progress: Progress::new(alloc),
            rt,
            alloc,
            base,
            logs,
            folder: None,
        }
    }
}

impl<R: Files<File = File> + Processes + Drop> Operator for Program<R> {
    ghost kind_of = { λ _. kinds.Command };

    ghost runs_of = { λ o. o.progress.runs };

    ghost refused_of = { λ o. o.progress.refused };

    ghost taken = { λ o. o.progress.taken };

    ghost performed = { λ o. o.progress.performed };

    fn kind(&self) -> Kind {
        Kind::Command
    }

    fn runs(&self) -> &[(u64, Outcome)] {
        self.progress.runs()
    }

    fn begin(&mut self, job: &Job) -> Result<(), BeginFault> {
        if self.progress.is_busy() {
            return Err(BeginFault::Busy);
        }
        if self.progress.reserve().is_err() {
            return Err(BeginFault::Memory);
        }
        match TryFolder::make(&self.rt, self.alloc, self.base.as_str(), job.serial) {
            Ok(folder) => {
                if let Some(left) = self.folder.replace(folder) {
                    left.remove(&self.rt, self.alloc);
                }
                self.progress.take_up(job);
                Ok(())
            }
            Err(BeginFault::Scratch) => {
                self.progress.refuse(job);
                Err(BeginFault::Scratch)
            }
            Err(fault) => Err(fault),
        }
    }

    fn perform(&mut self, job: &Job) -> Outcome {
        let outcome = match &self.folder {
            Some(folder) => {
                let logs = self.logs.as_deref();
                run(&self.rt, self.alloc, job, folder.path(), logs)
            }
            None => unreachable!(),
        };
        self.progress.add_outcome(job, outcome);
        outcome
    }

    fn finish(&mut self) {
        self.progress.give_up();
        if let Some(folder) = self.folder.take() {
            folder.remove(&self.rt, self.alloc);
        }
    }
}

impl<R: Files<File = File> + Processes + Drop> Drop for Program<R> {
    fn drop(self) {
        let Program {
            progress: _,
            rt,
            alloc,
            base: _,
            logs: _,
            folder,
        } = self;
        if let Some(folder) = folder {
            folder.remove(&rt, alloc);
        }
    }
}

// Starts the program and waits for it to end. One that cannot be started is a failure, for want of memory too.
fn run<R: Files<File = File> + Processes>(
    rt: &R,
    alloc: Global,
    job: &Job,
    folder: &str,
    logs: Option<&str>,
) -> Outcome
    ensures { is_lost result ≡ false }
{
    match code_of(rt, alloc, job, folder, logs) {
        Ok(code) => outcome_of_code(code),
        Err(_) => Outcome::Failed,
    }
}

// The code with which the program ended, `None` where a signal ended it. One whose log cannot be opened is not started.
fn code_of<R: Files<File = File> + Processes>(
    rt: &R,
    alloc: Global,
    job: &Job,
    folder: &str,
    logs: Option<&str>,
) -> io::Result<Option<i32>> {
    let mut command = command_of(alloc, job, folder)?;
    command.stdin(Stdio::null());
    let status = status_of(rt, alloc, &mut command, job, logs)?;
    Ok(status.code())
}

// Starts the program of a job and waits for it to end.
fn status_of<R: Files<File = File> + Processes>(
    rt: &R,
    alloc: Global,
    command: &mut Command,
    job: &Job,
    logs: Option<&str>,
) -> io::Result<ExitStatus> {
    match logs {
        Some(base) => {
            let log = open_log(rt, alloc, base, job)?;
            logged_status(rt, command, log, job.action.timeout().is_some())
        },
        None => unheard_status(rt, command),
    }
}

// Starts the program and waits for it to end. What it writes is lost.
fn unheard_status<R: Processes>(rt: &R, command: &mut Command) -> io::Result<ExitStatus> {
    command.stdout(Stdio::null());
    command.stderr(Stdio::null());
    command.status(rt)
}

//! The logs of tries: where they lie, and how a program writes into its own.
ghost use Rattle.std.specs.Prelude.{◌≡◌, IfOk, string_bytes};
ghost use Rattle.operators.specs.Logs.{log_path};

use crate::variables::run_id;
use sched_state::Job;
use std::alloc::{AllocError, Global};
use std::fs::{self, File};
use std::io::{self, Read, Seek, SeekFrom, Write};
use std::os::unix::process::ExitStatusExt;
use std::path::Path;
use std::process::{Command, ExitStatus, Processes};
use std::rt::Files;

/// The path of the log of a job's try under a base folder: `BASE/dag_id=DAG/run_id=RUNID/task_id=TASK/attempt=N.log`, as Airflow 2 lays
/// its logs out ("Logging for Tasks"). An `Err` says that memory ran out.
pub fn log_path_of(alloc: Global, base: &str, job: &Job) -> Result<String, AllocError>
    ensures { IfOk result (λ path. string_bytes path ≡ log_path base.now job.now) }
{
    let run = run_id(alloc, job)?;
    let number = job.try_number.to_string(alloc)?;
    let parts = [
        base,
        "/dag_id=",
        job.graph.as_str(),
        "/run_id=",
        run.as_str(),
        "/task_id=",
        job.task.as_str(),
        "/attempt=",
        number.as_str(),
        ".log",
    ];
    parts.concat(alloc)
}

/// Opens the log of a job's try, to write at its end and to read, and makes it and the folders that it lies in where they are not there.
pub(crate) fn open_log<R: Files<File = File>>(
    rt: &R,
    alloc: Global,
    base: &str,
    job: &Job,
) -> io::Result<File> {
    let path = log_path_of(alloc, base, job)?;
    let path = Path::new(path.as_str());
    if let Some(folder) = path.parent() {
        fs::create_dir_all(rt, folder)?;
    }
    File::options()
        .create(true)
        .read(true)
        .append(true)
        .open(rt, path)
}

/// Starts the program and waits for it to end. What it writes goes to the end of the log, in the order in which it is written. Where it
/// does not end with the status 0, the log then says how it ended, and whether so as when its time is over, or that it could not be started.
pub(crate) fn logged_status<R: Processes>(
    rt: &R,
    command: &mut Command,
    log: File,
    has_timeout: bool,
) -> io::Result<ExitStatus> {
    command.stdout(log.try_clone()?);
    command.stderr(log.try_clone()?);
    let status = command.status(rt);
    let _ = write_end(log, command.get_program(), &status, has_timeout);
    status
}

// Writes how a program ended that did not end well, or that it was not started, on a line of its own.
fn write_end(
    log: File,
    program: &str,
    status: &io::Result<ExitStatus>,
    has_timeout: bool,
) -> io::Result<()> {
    let mut log = log;
    match status {
        Ok(status) if status.success() => Ok(()),
        Ok(status) => {
            end_line(&mut log)?;
            let ending = ending(*status, has_timeout);
            writeln!(log, "dagsched: {status}{ending}")
        }
        Err(error) => {
            end_line(&mut log)?;
            writeln!(log, "dagsched: {program} cannot be started: {error}")
        }
    }
}

// What is said beside how a program with a time ended. Where the time was over `timeout` ends with 124, or ten seconds later by KILL with its
// process group. The program may end with 124 by itself, and others can send KILL, so no more is said than what a time that is over looks like.
fn ending(status: ExitStatus, has_timeout: bool) -> &'static str {
    if !has_timeout {
        ""
    } else if status.code() == Some(124) {
        ", as when its execution_timeout is over"
    } else if status.signal() == Some(9) {
        ", as ten seconds after its execution_timeout"
    } else {
        ""
    }
}

// Ends the last line of a file that does not end with one.
fn end_line(file: &mut File) -> io::Result<()> {
    if file.seek(SeekFrom::End(0))? == 0 {
        return Ok(());
    }
    file.seek(SeekFrom::End(-1))?;
    let mut last = [0];
    file.read_exact(&mut last)?;
    if last == [b'\n'] {
        Ok(())
    } else {
        writeln!(file)
    }
}

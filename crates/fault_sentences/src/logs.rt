//! Sentences on the logs of tries that failed, and on programs that were not started.
//!
//! No contract holds this file: the sections `told` of `worked_scripts` show what it writes.
use crate::parts::Part::{Date, Text};
use crate::parts::say;
use crate::programs::{Search, program_of};
use graph_file::TaskSpec;
use sched_state::Run;
use std::alloc::{AllocError, Global};
use std::fs::OpenOptions;
use std::io::{self, ErrorKind};
use std::rt::Files;

const UNOPENED: &str = "{}: its log {} could not be opened, so its program was not started: ";

const MISSING: &str =
    "{}: its log {} is not there: it was removed, or the program was not started, since this log, or the try's folder below --scratch, could not be made";

/// A try of a program that failed.
#[derive(Drop)]
pub(crate) struct Failure {
    // Its graph, date and task.
    name: String,
    program: String,
    log: Option<Log>,
}

// Where the log of a try lies.
#[derive(Drop)]
struct Log {
    // The folder of its graph's logs.
    folder: String,
    path: String,
}

impl Failure {
    /// That of the try with this number, where the logs lie below this folder.
    pub fn of(
        alloc: Global,
        run: &Run,
        task: &TaskSpec,
        number: usize,
        logs: Option<&str>,
    ) -> Result<Failure, AllocError> {
        let log = match logs {
            Some(logs) => Some(Log::of(alloc, run, task, number, logs)?),
            None => None,
        };
        let mut name = String::new(alloc);
        push_name(&mut name, run, task)?;
        let program = String::from_str(alloc, program_of(task))?;
        Ok(Failure { name, program, log })
    }

    /// The folder of its graph's logs, where it has one.
    pub fn folder(&self) -> Option<&str> {
        Some(self.log.as_ref()?.folder.as_str())
    }

    /// Why its log cannot be opened as for a try, where it has one.
    pub fn log_fault<R: Files>(&self, rt: &R) -> Option<io::Error> {
        let path = self.log.as_ref()?.path.as_str();
        OpenOptions::new()
            .read(true)
            .append(true)
            .open(rt, path)
            .err()
    }

    /// Adds where its log is, or that it could not be opened for this cause; nothing where it has none.
    pub fn push_log(
        &self,
        sentence: &mut String,
        fault: Option<&io::Error>,
    ) -> Result<(), AllocError> {
        let Some(log) = &self.log else {
            return Ok(());
        };
        let parts = [Text(self.name.as_str()), Text(log.path.as_str())];
        match fault {
            None => say(sentence, "{}: its log is {}", &parts),
            Some(fault) if fault.kind() == ErrorKind::NotFound => say(sentence, MISSING, &parts),
            Some(fault) => {
                say(sentence, UNOPENED, &parts)?;
                write!(sentence, "{fault}")
            }
        }
    }

    /// Adds why the system does not start its program, or nothing.
    pub fn push_program<R: Files + Alloc + Clone + Drop>(
        &self,
        sentence: &mut String,
        search: Search<'_, R>,
    ) -> Result<(), AllocError> {
        search.push_try(sentence, self.name.as_str(), self.program.as_str())
    }
}

impl Log {
    // That of the try with this number, below a folder.
    fn of<'a>(
        alloc: Global,
        run: &'a Run,
        task: &TaskSpec,
        number: usize,
        logs: &'a str,
    ) -> Result<Log, AllocError> {
        let mut folder = String::new(alloc);
        let graph = run.graph.as_str();
        say(&mut folder, "{}/dag_id={}", &[Text(logs), Text(graph)])?;
        let mut path = String::from_str(alloc, folder.as_str())?;
        path.push_str("/run_id=")?;
        path.push_str(run.kind.name())?;
        write!(path, "__{}", run.logical)?;
        path.push_str("/task_id=")?;
        path.push_str(task.task_id.as_str())?;
        write!(path, "/attempt={number}.log")?;
        Ok(Log { folder, path })
    }
}

/// Adds `DAG LOGICAL TASK`.
pub(crate) fn push_name<'a>(
    sentence: &mut String,
    run: &'a Run,
    task: &'a TaskSpec,
) -> Result<(), AllocError> {
    let (graph, task) = (run.graph.as_str(), task.task_id.as_str());
    say(
        sentence,
        "{} {} {}",
        &[Text(graph), Date(run.logical), Text(task)],
    )
}

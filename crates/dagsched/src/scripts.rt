//! A script that is run on a record.
ghost use Rattle.std.specs.Prelude.{◌≡◌, IfErr, MatchResult, is_some, true};
ghost use Rattle.sqlite.specs.Held.{state};
ghost use Rattle.dagsched.specs.Commands.{logs_of};
ghost use Rattle.dagsched.specs.Scripts.{IsHeldBack, IsScriptDone, IsScriptOf, IsScriptRun};

use crate::failures::{out_of_memory, put_error, put_failure};
use crate::telling::tell;
use command_words::{Command, FilePath, ScriptOptions};
use fault_sentences::SentenceConsole;
use meta_store::Store;
use operators::{Operator, Program};
use script_reader::{Console, Script, Sources};
use script_runner::{
    FileSources, Keep, RunOptions, SystemClock, TaskOperator, Unopened, operators_for, run_team,
};
use sqlite::Alter;
use sqlite_disk::{Files, Unknown};
use sqlite_std_file::{File, OpenError};
use std::alloc::AllocError;
use std::env::{self, VarError};
use std::fs;
use std::io::{self, BufRead, BufReader, BufWriter, ErrorKind, IsTerminal, Write};
use std::rt::{Stderr, Stdin, Stdout};
use std::sync::Wait;
use std::thread::Threads;

// How many workers there are where nobody asks for a number.
const DEFAULT_WORKERS: u32 = 2;

// Where the system looks for programs without a PATH.
const DEFAULT_PATH: &str = "/bin:/usr/bin";

/// What performs the tries of a script.
pub type OwnOperator = TaskOperator<Program<HostRuntime>>;

// The script of standard input.
type OwnScript = Script<
    BufReader<Stdin>,
    BufWriter<Stdout>,
    FileSources<HostRuntime>,
    SentenceConsole<HostRuntime, Stderr>,
>;

/// Runs the script of standard input, and gives the record back, with the status. Where another program has its tries in the same folder, no line is read.
pub fn run_script<S: Alter + Drop, T: Threads + Wait + Sync>(
    threads: &T,
    rt: &HostRuntime,
    store: Store<S>,
    options: &ScriptOptions,
    words: Vec<String>,
) -> (Store<S>, u8)
    ensures { IsScriptDone (state S.Store) ⟦<OwnOperator as Operator>⟧ options.now store result.0
        result.1 }
{
    let scratch = options.scratch.as_str();
    make_scratch(rt, scratch);
    let held = hold(rt, scratch);
    run_held(threads, rt, store, options, words, held)
}

// Runs the script, unless the folder of the tries, which was asked for so, is held by another program.
fn run_held<S: Alter + Drop, T: Threads + Wait + Sync>(
    threads: &T,
    rt: &HostRuntime,
    store: Store<S>,
    options: &ScriptOptions,
    words: Vec<String>,
    held: Result<Option<Files<File>>, OpenError>,
) -> (Store<S>, u8)
    ensures { MatchResult held
        (λ _. IsScriptRun (state S.Store) ⟦<OwnOperator as Operator>⟧ options.now store result.0 result.1)
        (λ _. IsHeldBack store result.0 result.1) }
{
    match held {
        Ok(_held) => {
            tell_terminal(rt);
            tell_lanes(rt, options);
            run_own(threads, rt, store, options, words)
        }
        Err(_) => {
            tell_held(rt, options.scratch.as_str());
            (store, 4)
        }
    }
}

fn run_own<S: Alter + Drop, T: Threads + Wait + Sync>(
    threads: &T,
    rt: &HostRuntime,
    store: Store<S>,
    options: &ScriptOptions,
    words: Vec<String>,
) -> (Store<S>, u8)
    ensures { IsScriptRun (state S.Store) ⟦<OwnOperator as Operator>⟧ options.now store result.0
        result.1 }
{
    match own_script(rt, options.scratch.as_str(), words) {
        Ok((script, scratch)) => {
            let (store, status, _sources, _output) = run_by_team(
                threads,
                rt,
                store,
                options,
                scratch.as_str(),
                script,
            );
            (store, status)
        }
        Err(error) => (store, put_error(rt, error)),
    }
}

// The script of standard input, and the path of this folder from the root on. An error is that memory ran out.
fn own_script(
    rt: &HostRuntime,
    scratch: &str,
    words: Vec<String>,
) -> io::Result<(OwnScript, String)> {
    let alloc = rt.alloc();
    let script = Script {
        input: BufReader::new(alloc, rt.stdin())?,
        output: BufWriter::new(alloc, rt.stdout())?,
        sources: FileSources::new(*rt, alloc),
        console: SentenceConsole::new(*rt, alloc, words, search_path(rt)?, rt.stderr()),
    };
    Ok((script, whole_path(rt, scratch)?))
}

// The path of a folder from the root on, where the system says it.
fn whole_path(rt: &HostRuntime, folder: &str) -> Result<String, AllocError> {
    if folder.starts_with('/') {
        return String::from_str(rt.alloc(), folder);
    }
    match fs::canonicalize(rt, folder) {
        Ok(path) => Ok(path.into_string()),
        Err(_) => String::from_str(rt.alloc(), folder),
    }
}

// The folders in which the system looks for programs; `None` where they have names that cannot be written down.
fn search_path(rt: &HostRuntime) -> io::Result<Option<String>> {
    match env::var(rt, "PATH") {
        Ok(path) => Ok(Some(path)),
        Err(VarError::NotPresent) => Ok(Some(String::from_str(rt.alloc(), DEFAULT_PATH)?)),
        Err(VarError::NotUnicode) => Ok(None),
        Err(VarError::OutOfMemory) => Err(io::Error::from(ErrorKind::OutOfMemory)),
    }
}

// Runs a script, whatever its streams are, with so many workers as are asked for, and gives the record, the status, the sources and the output.
fn run_by_team<
    S: Alter + Drop,
    R: BufRead + Drop,
    W: Write + Drop,
    F: Sources,
    P: Console,
    T: Threads + Wait + Sync,
>(
    threads: &T,
    rt: &HostRuntime,
    store: Store<S>,
    options: &ScriptOptions,
    scratch: &str,
    script: Script<R, W, F, P>,
) -> (Store<S>, u8, F, W)
    ensures known { IsScriptOf (state S.Store) ⟦<OwnOperator as Operator>⟧ (R.Read.remaining script.input)
        F.gives W.contents options.now script.sources script.output store result.0 result.1 result.2
        result.3 }
    ensures done { IsScriptRun (state S.Store) ⟦<OwnOperator as Operator>⟧ options.now store result.0
        result.1 }
{
    let alloc = rt.alloc();
    let logs = options.logs.as_ref().map(FilePath::as_str);
    let Ok(team) = operators_for(*rt, alloc, options.workers.get(), scratch, logs) else {
        return (store, out_of_memory(rt), script.sources, script.output);
    };
    let mut clock = SystemClock::new(*rt);
    match run_team(
        threads,
        alloc,
        store,
        RunOptions {
            lanes: options.lanes.get(),
            keep: Keep::Nothing,
        },
        team,
        script,
        &mut clock,
    ) {
        Ok(ran) => (ran.store, ran.status, ran.sources, ran.output),
        Err(unopened) => {
            let Unopened {
                store,
                fault,
                script,
            } = unopened;
            let status = put_failure(rt, &fault);
            let Script {
                sources,
                output,
                ..
            } = script;
            (store, status, sources, output)
        }
    }
}

/// Makes the folder of the logs, if the command names one that is not there. Where there is no such folder, or nothing can be made in it, that is told,
/// and the command does not go on: an error is its status.
pub fn make_logs(rt: &HostRuntime, command: &Command) -> Result<(), u8>
    ensures { IfErr result (λ status. (is_some (logs_of command.now) ≡ true) × (status ≡ 4)) }
{
    let Command::Run(options) = command else {
        return Ok(());
    };
    let Some(logs) = options.logs.as_ref().map(FilePath::as_str) else {
        return Ok(());
    };
    let made = fs::create_dir_all(rt, logs);
    match lack_of(rt, logs, made, "so no script is run") {
        Ok(None) => Ok(()),
        Ok(Some(text)) => {
            tell(rt, text.as_str());
            Err(4)
        }
        Err(error) => Err(put_error(rt, error)),
    }
}

// Tells who begins it on a terminal where the script comes from.
fn tell_terminal(rt: &HostRuntime) {
    if rt.stdin().is_terminal() {
        tell(
            rt,
            "dagsched: commands are read from the terminal, a line each; Ctrl-D ends them",
        );
    }
}

// Tells that there are fewer lanes than workers, so that some of these never work. Where there are no more workers than without asking it says nothing.
fn tell_lanes(rt: &HostRuntime, options: &ScriptOptions) {
    let (workers, lanes) = (options.workers.get(), options.lanes.get());
    if lanes == 0 || workers <= lanes || workers <= DEFAULT_WORKERS {
        return;
    }
    if let Ok(text) = format!(in rt.alloc();
        "dagsched: no more than {lanes} of the {workers} workers work at once: --lanes {workers} lets all of them"
    ) {
        tell(rt, text.as_str());
    }
}

// Makes the folder of the tries. Without it each try of a command fails, which is told.
fn make_scratch(rt: &HostRuntime, scratch: &str) {
    let made = fs::create_dir(rt, scratch);
    if let Ok(Some(text)) = lack_of(rt, scratch, made, "so tries of commands will fail") {
        tell(rt, text.as_str());
    }
}

// Why a folder is of no use, and what comes of it: it was not made and none was there before, or nothing can be made in it.
fn lack_of(
    rt: &HostRuntime,
    folder: &str,
    made: io::Result<()>,
    so: &str,
) -> io::Result<Option<String>> {
    let (before, after, error) = match made {
        Err(error) if !is_folder(rt, folder) => ("", " cannot be made", error),
        _ => match try_in(rt, folder) {
            Err(error) => ("nothing can be made in ", "", error),
            Ok(()) => return Ok(None),
        },
    };
    if error.kind() == ErrorKind::OutOfMemory {
        return Err(error);
    }
    let text = format!(in rt.alloc();
        "dagsched: {before}the folder {folder}{after}, {so}: {error}"
    )?;
    Ok(Some(text))
}

fn is_folder(rt: &HostRuntime, path: &str) -> bool {
    fs::metadata(rt, path).is_ok_and(|found| found.is_dir())
}

// Holds the folder of the tries as long as this lives, where the system lets it; an error is that another program holds it.
fn hold(rt: &HostRuntime, scratch: &str) -> Result<Option<Files<File>>, OpenError> {
    let Ok(path) = format!(in rt.alloc(); "{scratch}/held") else {
        return Ok(None);
    };
    match sqlite_std_file::open(rt, path.as_str(), Unknown) {
        Ok(files) => Ok(Some(files)),
        Err(OpenError::Busy) => Err(OpenError::Busy),
        Err(_) => Ok(None),
    }
}

// Tells that another program holds the folder of the tries.
fn tell_held(rt: &HostRuntime, scratch: &str) {
    if let Ok(text) = format!(in rt.alloc();
        "dagsched: another dagsched has its tries in the folder {scratch}, so no script is run: give each a folder of its own, by --scratch DIR"
    ) {
        tell(rt, text.as_str());
    }
}

// Makes a folder in this one and takes it away.
fn try_in(rt: &HostRuntime, folder: &str) -> io::Result<()> {
    let inner = format!(in rt.alloc(); "{folder}/dagsched-try")?;
    match fs::create_dir(rt, inner.as_str()) {
        Err(error) if error.kind() != ErrorKind::AlreadyExists => Err(error),
        _ => match fs::remove_dir(rt, inner.as_str()) {
            // one that another program made, which does the same here, is gone with it
            Err(error) if error.kind() != ErrorKind::NotFound => Err(error),
            _ => Ok(()),
        },
    }
}

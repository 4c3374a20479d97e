//! One word after another with one operator: `begin:SERIAL` and `begin:SERIAL:TRY` begin a job of the line's task, `perform` performs it,
//! `finish` gives it up, `runs` shows what was performed, and other words change what stands at the base folder. At the end the operator
//! is dropped. The operator `logged` is `command` with the logs of its tries under `logs` in the base folder; behind its arguments may stand how
//! long a try may take, `within SECONDS`.
use crate::actions::read_action;
use crate::folders;
use crate::hands::Hand;
use crate::jobs::job_of;
use graph_file::Action;
use instance_machine::Outcome;
use operators::{BeginFault, Exit, Kind, Noop, Operator, Program};
use std::alloc::{AllocError, Global};
use std::fs::{self, File};
use std::io;
use std::process::Processes;
use std::rt::Files;

/// Writes what comes of each word, and for a command whether its try's folder is left when all is done.
pub(crate) fn write_answer<R: Files<File = File> + Processes + Print + Alloc + Copy + Drop>(
    rt: &R,
    alloc: Global,
    base: &str,
    operator: &str,
    rest: &str,
) -> io::Result<()> {
    let (argv, words) = rest.rsplit_once(" : ").unwrap_or(("[]", rest));
    let logs = logs_of(alloc, base, operator)?;
    let operator = if logs.is_some() { "command" } else { operator };
    let keys = keys_of(alloc, argv)?;
    let Some(action) = read_action(alloc, operator, keys.as_str())? else {
        return rt.print(" no such action");
    };
    write_acted(rt, alloc, base, logs, &action, words)
}

// Writes the same of an action, for which there are logs or not.
fn write_acted<R: Files<File = File> + Processes + Print + Alloc + Copy + Drop>(
    rt: &R,
    alloc: Global,
    base: &str,
    logs: Option<String>,
    action: &Action,
    words: &str,
) -> io::Result<()> {
    match action.operator() {
        Kind::Noop => write_turns(rt, alloc, base, Noop::new(alloc), action, words),
        Kind::Exit => write_turns(rt, alloc, base, Exit::new(alloc), action, words),
        Kind::Command => {
            let program = Program::new(*rt, alloc, String::from_str(alloc, base)?, logs);
            write_turns(rt, alloc, base, program, action, words)?;
            write_left(rt, alloc, base)
        }
    }
}

// The array of the arguments, with the line below it that says how long a try may take, for `ARGV within SECONDS`.
fn keys_of(alloc: Global, argv: &str) -> Result<String, AllocError> {
    match argv.rsplit_once(" within ") {
        Some((argv, seconds)) => format!(in alloc; "{argv}\nexecution_timeout = {seconds}"),
        None => String::from_str(alloc, argv),
    }
}

// The folder of the logs, where the operator has some.
fn logs_of(alloc: Global, base: &str, operator: &str) -> Result<Option<String>, AllocError> {
    if operator != "logged" {
        return Ok(None);
    }
    let logs = folders::path_of(alloc, base, "logs")?;
    Ok(Some(logs))
}

// Does one word after another, and drops the operator.
fn write_turns<R: Files + Print + Alloc, O: Operator>(
    rt: &R,
    alloc: Global,
    base: &str,
    operator: O,
    action: &Action,
    words: &str,
) -> io::Result<()> {
    let mut hand = Hand::new(operator);
    write_each(rt, alloc, base, &mut hand, action, words)
}

fn write_each<R: Files + Print + Alloc, O: Operator>(
    rt: &R,
    alloc: Global,
    base: &str,
    hand: &mut Hand<O>,
    action: &Action,
    words: &str,
) -> io::Result<()> {
    for word in words.split(' ') {
        if !folders::write_turn(rt, alloc, base, word)? {
            write_turn(rt, alloc, hand, action, word)?;
        }
    }
    Ok(())
}

// Does a word with the operator, and writes what comes of it.
fn write_turn<R: Print, O: Operator>(
    rt: &R,
    alloc: Global,
    hand: &mut Hand<O>,
    action: &Action,
    word: &str,
) -> io::Result<()> {
    if let Some(numbers) = word.strip_prefix("begin:") {
        return write_begun(rt, alloc, hand, action, numbers);
    }
    match word {
        "perform" => match hand.perform() {
            Some(outcome) => rt.print(outcome_text(outcome)),
            None => rt.print(" nothing-begun"),
        },
        "finish" => {
            hand.finish();
            rt.print(" given-up")
        }
        "runs" => write_runs(rt, hand.runs()),
        _ => rt.print(" no-such-word"),
    }
}

// Begins a job with this serial and this number of its try.
fn write_begun<R: Print, O: Operator>(
    rt: &R,
    alloc: Global,
    hand: &mut Hand<O>,
    action: &Action,
    numbers: &str,
) -> io::Result<()> {
    let (serial, number) = numbers.split_once(':').unwrap_or((numbers, "1"));
    let (Ok(serial), Ok(number)) = (serial.parse(), number.parse()) else {
        return rt.print(" no-such-job");
    };
    let job = job_of(alloc, serial, number, action)?;
    rt.print(begun_text(hand.begin(job)))
}

fn begun_text(begun: Result<(), BeginFault>) -> &'static str {
    match begun {
        Ok(()) => " begun",
        Err(BeginFault::Busy) => " busy",
        Err(BeginFault::Memory) => " no-memory",
        Err(BeginFault::Scratch) => " no-folder",
    }
}

// A blank and the outcome's name.
fn outcome_text(outcome: Outcome) -> &'static str {
    match outcome {
        Outcome::Success => " success",
        Outcome::Skipped => " skipped",
        Outcome::Failed => " failed",
        Outcome::Lost => " lost",
    }
}

fn write_runs<R: Print>(rt: &R, runs: &[(u64, Outcome)]) -> io::Result<()> {
    rt.print(" (")?;
    for (serial, outcome) in runs {
        print!(rt; " {serial}")?;
        rt.print(outcome_text(*outcome))?;
    }
    rt.print(" )")
}

// Writes whether the folder of the try with the serial 1 is left.
fn write_left<R: Files + Print>(rt: &R, alloc: Global, base: &str) -> io::Result<()> {
    let path = folders::path_of(alloc, base, "try-1")?;
    match fs::symlink_metadata(rt, path.as_str()) {
        Ok(_) => rt.print(", and try-1 is left"),
        Err(_) => rt.print(", and no try-1 is left"),
    }
}

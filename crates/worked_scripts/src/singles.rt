//! Commands outside of scripts.
use crate::failing::Calls;
use crate::playing::{Played, Setting, play_and_keep};
use crate::recording::Recorder;
use crate::sections::script_and_commands;
use crate::{put_ended, put_lines};
use command_runner::run_command;
use command_words::{Command, CommandLine, read_command};
use fault_sentences::SentenceConsole;
use meta_store::Store;
use sqlite::Alter;
use std::alloc::{AllocError, Global};
use std::io::{self, ErrorKind, Write};
use std::str;
use std::sync::Wait;
use std::thread::Threads;

/// Runs a script, and then does each line below it as a command outside of scripts on the record that it left. Writes what each prints, what a person is told of a
/// command, with `! ` before each line, and each status.
pub(crate) fn put_singles<R: Recorder, T: Threads + Wait + Sync, W: Write>(
    rt: &T,
    host: &HostRuntime,
    recorder: &R,
    text: &[u8],
    output: &mut W,
) -> io::Result<()> {
    let (script, commands) = script_and_commands(text);
    let setting = Setting::with_lanes(0);
    let (played, record) = play_and_keep(rt, host, recorder, setting, script, Calls::all())?;
    put_after(host, &played, record, commands, output)
}

// Writes what came of the script, and does the commands below it.
fn put_after<S: Alter + Drop, W: Write>(
    host: &HostRuntime,
    played: &Played,
    record: Store<S>,
    commands: &[u8],
    output: &mut W,
) -> io::Result<()> {
    put_ended(played, output)?;
    put_commands(host, record, commands, output)
}

fn put_commands<S: Alter + Drop, W: Write>(
    host: &HostRuntime,
    record: Store<S>,
    commands: &[u8],
    output: &mut W,
) -> io::Result<()> {
    let mut record = record;
    for line in commands.split(|byte| *byte == b'\n') {
        if !line.is_empty() {
            record = put_command(host, record, line, output)?;
        }
    }
    Ok(())
}

// Does one, and gives the record back.
fn put_command<S: Alter + Drop, W: Write>(
    host: &HostRuntime,
    record: Store<S>,
    line: &[u8],
    output: &mut W,
) -> io::Result<Store<S>> {
    let words = words_of(host.alloc(), line)?;
    let asked = command_of(host.alloc(), words.as_slice())?;
    let (record, answered) = answer(host, record, &asked.command, words);
    answered.put(output)?;
    Ok(record)
}

// What comes of a command.
#[derive(Drop)]
struct Answered {
    printed: Vec<u8>,
    // What a person is told.
    told: Vec<u8>,
    status: u8,
}

impl Answered {
    fn put<W: Write>(&self, output: &mut W) -> io::Result<()> {
        output.write_all(self.printed.as_slice())?;
        put_lines(b"! ", self.told.as_slice(), output)?;
        writeln!(output, "status {}", self.status)
    }
}

fn answer<S: Alter + Drop>(
    host: &HostRuntime,
    record: Store<S>,
    command: &Command,
    words: Vec<String>,
) -> (Store<S>, Answered) {
    let alloc = host.alloc();
    let mut printed = Vec::new(alloc);
    let mut console = SentenceConsole::in_memory(*host, alloc, words);
    let left = run_command(alloc, record, command, &mut printed, &mut console);
    let answered = Answered {
        printed,
        told: console.into_output(),
        status: left.status,
    };
    (left.store, answered)
}

fn words_of(alloc: Global, line: &[u8]) -> Result<Vec<String>, AllocError> {
    let mut words = Vec::new(alloc);
    push_words(alloc, line, &mut words)?;
    Ok(words)
}

fn push_words(alloc: Global, line: &[u8], words: &mut Vec<String>) -> Result<(), AllocError> {
    for word in str::from_utf8(line).unwrap_or("").split(' ') {
        words.push(String::from_str(alloc, word)?)?;
    }
    Ok(())
}

fn command_of(alloc: Global, words: &[String]) -> io::Result<CommandLine> {
    match read_command(alloc, words) {
        Ok(asked) => Ok(asked),
        Err(_) => Err(io::Error::from(ErrorKind::InvalidData)),
    }
}

//! What one line asks for.
ghost use Rattle.std.specs.Prelude.{◌≡◌, ◌≢◌, IfOk, List, map, string_bytes};
ghost use Rattle.std.specs.Str.{IsUtf8};
ghost use Rattle.text_words.specs.Words.{words};
ghost use Rattle.script_commands.specs.Meanings as spec;
ghost use Rattle.script_commands.specs.Meanings.{IsReadAs, meaning_by};

use crate::commands::ScriptCommand;
use command_words::{
    Command, CommandLine, GraphSource, Taking, TickTime, UsageFault, read_command,
};
use sched_events::Event;
use std::alloc::{AllocError, Global};
use std::str;
use text_words::next_word;

/// What a line outside of a graph's text asks for.
#[derive(Debug, Drop)]
pub(crate) enum LineMeaning {
    // Nothing: it is passed over.
    Nothing,
    // `load inline` or `replace inline`: the lines that follow are a graph's text.
    Text(Taking),
    // A command of one line.
    This(ScriptCommand),
    // It is no command.
    Fault(UsageFault),
}

// What the words of a line ask for.
pub(crate) fn meaning_of_words(alloc: Global, line: &str) -> Result<LineMeaning, AllocError>
    ensures { IsReadAs (meaning_by (words line.now)) result }
{
    let words = words_of(alloc, line)?;
    match read_command(alloc, words.as_slice()) {
        Ok(line) => Ok(meaning_of_line(line)),
        Err(fault) => meaning_of_fault(fault),
    }
}

// A fault of words, which is none of theirs where memory ran out.
fn meaning_of_fault(fault: UsageFault) -> Result<LineMeaning, AllocError>
    ensures { IfOk result (λ meaning. (fault ≢ UsageFault.Memory) × (meaning ≡ LineMeaning.Fault fault)) }
{
    match fault {
        UsageFault::Memory => Err(AllocError),
        _ => Ok(LineMeaning::Fault(fault)),
    }
}

// The words of a line.
fn words_of(alloc: Global, line: &str) -> Result<Vec<String>, AllocError>
    ensures { IfOk result (λ found. map string_bytes found.items ≡ words line.now) }
{
    let mut found = Vec::new(alloc);
    let mut rest = line.as_bytes();
    while let Some((word, after)) = next_word(rest) {
        let word = text_of_word(alloc, word)?;
        found.push(word)?;
        rest = after;
    }
    Ok(found)
}

// A word as a text.
fn text_of_word(alloc: Global, word: &[u8]) -> Result<String, AllocError>
    requires { IsUtf8 word.now }
    ensures { IfOk result (λ text. string_bytes text ≡ word.now) }
{
    match str::from_utf8(word) {
        Ok(text) => String::from_str(alloc, text),
        Err(_) => unreachable!(),
    }
}

// What a command line asks for in a script: it has no `--record` there.
fn meaning_of_line(line: CommandLine) -> LineMeaning
    ensures { result ≡ spec.of_line line }
{
    let CommandLine {
        record_path,
        command,
    } = line;
    match record_path {
        Some(_) => LineMeaning::Fault(UsageFault::NotHere),
        None => meaning_of_command(command),
    }
}

// What a command asks for in a script.
fn meaning_of_command(command: Command) -> LineMeaning
    ensures { result ≡ spec.of_command command }
{
    match command {
        Command::Run(_) => LineMeaning::Fault(UsageFault::NotHere),
        Command::List(listing) => LineMeaning::This(ScriptCommand::List(listing)),
        Command::Explain(question) => LineMeaning::This(ScriptCommand::Explain(question)),
        Command::Step(event) => LineMeaning::This(ScriptCommand::Step(event)),
        Command::Take(taking, source) => meaning_of_source(taking, source),
        Command::Tick(time) => meaning_of_time(time),
        Command::Drain => LineMeaning::This(ScriptCommand::Drain),
    }
}

fn meaning_of_source(taking: Taking, source: GraphSource) -> LineMeaning
    ensures { result ≡ spec.of_source taking source }
{
    match source {
        GraphSource::File(path) => LineMeaning::This(ScriptCommand::TakeFile(taking, path)),
        GraphSource::Inline => LineMeaning::Text(taking),
    }
}

fn meaning_of_time(time: TickTime) -> LineMeaning
    ensures { result ≡ spec.of_time time }
{
    match time {
        TickTime::At(moment) => LineMeaning::This(ScriptCommand::Step(Event::Tick(moment))),
        TickTime::Now => LineMeaning::This(ScriptCommand::TickNow),
    }
}

//! What is said of words that are no command.
ghost use Rattle.std.specs.Prelude.{◌≡◌, ◌≢◌, ◌⊎◌, map, string_bytes};
ghost use Rattle.dagsched.specs.Scripts.{UnlessFailed};
ghost use Rattle.dagsched.specs.Words.{IsToldOf};

use crate::failures::{out_of_memory, put_error};
use crate::telling::{tell, tell_fault};
use answer_lines::{Shown, put};
use command_words::{UsageFault, help_text, refusal_text};
use script_commands::CommandFault;
use std::alloc::AllocError;
use std::{fs, io};

/// Says why the words are no command, which is printed as help where they ask for it; the status.
pub fn put_fault(rt: &HostRuntime, fault: UsageFault, words: &[String]) -> u8
    ensures { ((fault ≢ UsageFault.Memory) × IsToldOf fault (map string_bytes words.now) result)
        ⊎ (result ≡ 4) }
{
    match fault {
        UsageFault::Memory => out_of_memory(rt),
        UsageFault::Words => put_refusal(rt, words),
        UsageFault::BadName
        | UsageFault::BadMoment(_)
        | UsageFault::NotHere
        | UsageFault::BadLine
        | UsageFault::BadState => put_usage(rt, fault, words),
    }
}

// Prints the help where the words ask for it, and else says why clap refuses them; the status.
fn put_refusal(rt: &HostRuntime, words: &[String]) -> u8
    ensures { IsToldOf UsageFault.Words (map string_bytes words.now) result }
{
    match help_text(rt.alloc(), words) {
        Ok(Some(text)) => put_help(rt, text.as_str()),
        Ok(None) => put_usage(rt, UsageFault::Words, words),
        Err(_) => out_of_memory(rt),
    }
}

fn put_help(rt: &HostRuntime, text: &str) -> u8
    ensures { UnlessFailed 0 result }
{
    match print!(rt; "{text}") {
        Ok(()) => 0,
        Err(error) => put_error(rt, error),
    }
}

/// Says on standard error that a word is not UTF-8; the status.
pub fn put_unreadable(rt: &HostRuntime) -> u8
    ensures { UnlessFailed 2 result }
{
    let fault_line = CommandFault::Usage(UsageFault::Words);
    match put(&mut rt.stderr(), Shown::NoCommand(fault_line)) {
        Ok(()) => {
            tell(rt, "dagsched: a word is not UTF-8");
            2
        }
        Err(error) => put_error(rt, error),
    }
}

/// Says on standard error why the words are no command, and how to use the program where clap refuses them; the status.
pub fn put_usage(rt: &HostRuntime, fault: UsageFault, words: &[String]) -> u8
    ensures { UnlessFailed 2 result }
{
    match say_usage(rt, fault, words) {
        Ok(()) => 2,
        Err(error) => put_error(rt, error),
    }
}

fn say_usage(rt: &HostRuntime, fault: UsageFault, words: &[String]) -> io::Result<()> {
    let fault_line = CommandFault::Usage(fault);
    put(&mut rt.stderr(), Shown::NoCommand(fault_line))?;
    if fault == UsageFault::Words {
        put_text(rt, words)?;
        tell_script(rt, words);
    }
    tell_fault(rt, words, Shown::NoCommand(fault_line));
    Ok(())
}

// Writes clap's text, where it has one.
fn put_text(rt: &HostRuntime, words: &[String]) -> io::Result<()> {
    match refusal_text(rt.alloc(), words)? {
        Some(text) => eprint!(rt; "{text}"),
        None => Ok(()),
    }
}

// Tells how a script is read, or what loads a graph, where the words name a file of one.
fn tell_script(rt: &HostRuntime, words: &[String]) {
    let Some(word) = script_word(words) else {
        return;
    };
    if fs::metadata(rt, word).is_ok_and(|found| found.is_file()) {
        if let Ok(text) = file_text(rt, word) {
            tell(rt, text.as_str());
        }
    }
}

// What is said of a file in the place of a command: one of a graph, or else of a script.
fn file_text(rt: &HostRuntime, word: &str) -> Result<String, AllocError> {
    if word.ends_with(".toml") {
        return format!(in rt.alloc();
            "dagsched: {word} is a graph, which a script takes in: echo \"load {word}\" | dagsched --record PATH run"
        );
    }
    format!(in rt.alloc(); "dagsched: a script is read from standard input: dagsched run < {word}")
}

// The first word that is no option, no value of one, and not `run`.
fn script_word(words: &[String]) -> Option<&str> {
    let mut is_value = false;
    for word in words {
        let word = word.as_str();
        if !is_value && !word.starts_with('-') && word != "run" {
            return Some(word);
        }
        is_value = word.starts_with('-') && !word.contains('=');
    }
    None
}

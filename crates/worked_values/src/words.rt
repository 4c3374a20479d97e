//! Lists of words with `|` between them: what they ask for, and what clap says of those that it refuses. A list without `|` is one word, so
//! an empty text is one empty word.
use crate::commands::write_command_line;
use crate::usage_faults::write_fault;
use command_words::{read_command, refusal_text};
use std::alloc::{AllocError, Global};
use std::io;

/// Writes the answer to a question about a list of words.
pub(crate) fn write_answer(rt: &HostRuntime, word: &str, rest: &str) -> io::Result<()> {
    match word {
        "none" => write_reading(rt, &[]),
        "read" => write_reading(rt, words_of(rt.alloc(), rest)?.as_slice()),
        "refusal" => write_refusal(rt, words_of(rt.alloc(), rest)?.as_slice()),
        _ => rt.print("no such word"),
    }
}

// What words are read as, or why they are no command.
fn write_reading(rt: &HostRuntime, words: &[String]) -> io::Result<()> {
    match read_command(rt.alloc(), words) {
        Ok(line) => write_command_line(rt, &line),
        Err(fault) => write_fault(rt, fault),
    }
}

// The lines that a user sees where words are refused, below the question.
fn write_refusal(rt: &HostRuntime, words: &[String]) -> io::Result<()> {
    match refusal_text(rt.alloc(), words)? {
        Some(text) => {
            let text = text.as_str();
            print!(rt; "this text:\n{text}")
        }
        None => rt.print("no refusal"),
    }
}

// The words of a list.
fn words_of(alloc: Global, list: &str) -> Result<Vec<String>, AllocError> {
    let mut words = Vec::new(alloc);
    for word in list.split('|') {
        words.push(String::from_str(alloc, word)?)?;
    }
    Ok(words)
}

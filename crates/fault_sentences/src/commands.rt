//! Sentences on words that are no command, and on files without a graph's text.
//!
//! No contract holds this file: the sections `told` of `worked_scripts` show what it writes.
use crate::asked::Asked;
use crate::keys::is_key_of;
use crate::moments::moment_text;
use crate::parts::Part::Text;
use crate::parts::{push_between, say};
use command_words::{UsageFault, help_text, refusal_text};
use graph_file::{Place, is_name};
use moment_core::{Moment, MomentFault};
use script_commands::{CommandFault, SourceFault};
use std::alloc::{AllocError, Global};

// Adds why a line is no command, or has no text.
pub(crate) fn push_command(
    sentence: &mut String,
    asked: Asked<'_>,
    fault: CommandFault,
) -> Result<(), AllocError> {
    sentence.push_str(line_text(asked.line()))?;
    match fault {
        _ if !sentence.is_empty() => Ok(()),
        CommandFault::Usage(fault) => push_usage(sentence, asked, fault),
        CommandFault::Source(fault) => push_source(sentence, asked, fault),
    }
}

// What is said of a line that is none of a script, whatever its words.
fn line_text(line: &str) -> &'static str {
    if line.ends_with('\r') {
        "the line ends with a carriage return: save the script with plain newlines"
    } else if line.starts_with('\u{feff}') {
        "the line begins with a byte order mark: save the script without one"
    } else if is_of_graph(line) {
        "this is a line of a graph, and this is a script: its line load FILE takes in the graph of a file"
    } else {
        ""
    }
}

// Whether a line gives a key of a graph file a value, or begins a task.
fn is_of_graph(line: &str) -> bool {
    match line.split_once('=') {
        Some((key, _)) => is_key(key.trim()),
        None => line.starts_with("[[task]]"),
    }
}

fn is_key(word: &str) -> bool {
    is_key_of(Place::Top, word) || is_key_of(Place::Task(0), word)
}

fn push_usage(
    sentence: &mut String,
    asked: Asked<'_>,
    fault: UsageFault,
) -> Result<(), AllocError> {
    match fault {
        UsageFault::Words => {
            push_size(sentence, asked)?;
            push_refused(sentence, asked)
        }
        UsageFault::BadName => push_misnamed(sentence, asked),
        UsageFault::BadMoment(fault) => push_moment(sentence, asked, fault),
        UsageFault::NotHere if asked.is_in_script() => {
            sentence.push_str(
                "run and --record stand on the program's command line, not in a script",
            )
        }
        UsageFault::NotHere => push_place(sentence, asked),
        UsageFault::BadLine => sentence.push_str(
            "the line, or one of the graph's text, is longer than 65,536 bytes or is not UTF-8",
        ),
        UsageFault::BadState => sentence.push_str(
            "the last word is skipped, and no other: a success is a try of a worker. What waits for a task that is skipped runs with trigger_rule none_failed, all_done or always",
        ),
        UsageFault::Memory => Ok(()),
    }
}

// Adds that a command stands in scripts alone, and how it is given there.
fn push_place(sentence: &mut String, asked: Asked<'_>) -> Result<(), AllocError> {
    let values = asked.values(*sentence.allocator())?;
    let line = match values.as_slice().first().copied() {
        Some("load") => "load FILE",
        Some("replace") => "replace FILE",
        Some("drain") => "drain",
        _ => "tick now",
    };
    say(
        sentence,
        "load, replace, tick and drain stand in a script: echo \"{}\" | dagsched --record PATH run",
        &[Text(line)],
    )
}

// Adds that the size of a pool is none.
fn push_size(sentence: &mut String, asked: Asked<'_>) -> Result<(), AllocError> {
    let values = asked.values(*sentence.allocator())?;
    match values.as_slice() {
        ["resize", _, size] if size.parse::<u32>().is_err() => say(
            sentence,
            "\"{}\" is no size: SIZE is a whole number from 0 to 1000000",
            &[Text(size)],
        ),
        _ => Ok(()),
    }
}

// Adds what clap says of the words, as one line, where nothing was said yet, and what a shell would have done with them.
fn push_refused(sentence: &mut String, asked: Asked<'_>) -> Result<(), AllocError> {
    if !sentence.is_empty() {
        return Ok(());
    }
    let words = asked.words(*sentence.allocator())?;
    let values = asked.values(*sentence.allocator())?;
    let hint = hint_of(asked.line(), words.as_slice(), values.as_slice());
    push_parts(sentence, asked, words.as_slice(), hint)
}

fn push_parts(
    sentence: &mut String,
    asked: Asked<'_>,
    words: &[&str],
    hint: &str,
) -> Result<(), AllocError> {
    if !asked.is_in_script() {
        // there the program prints clap's whole text
        return sentence.push_str(hint);
    }
    if let ["help" | "?" | "quit" | "exit", ..] = words {
        return sentence.push_str(
            "the commands are load, replace, tick, drain, list, explain, trigger, backfill, clear, mark, pause, unpause and resize; a script ends where its input does, on a terminal by Ctrl-D",
        );
    }
    let words = owned(*sentence.allocator(), words)?;
    push_of_clap(sentence, words.as_slice(), hint)
}

fn owned(alloc: Global, parts: &[&str]) -> Result<Vec<String>, AllocError> {
    let mut words = Vec::new(alloc);
    for word in parts {
        words.push(String::from_str(alloc, word)?)?;
    }
    Ok(words)
}

// Adds what clap says of words that it refuses, behind the hint, or that it would print its help.
fn push_of_clap(sentence: &mut String, words: &[String], hint: &str) -> Result<(), AllocError> {
    if help_text(*sentence.allocator(), words)?.is_some() {
        return sentence.push_str("help is for a shell: dagsched COMMAND --help");
    }
    match refusal_text(*sentence.allocator(), words)? {
        Some(said) => {
            sentence.push_str(hint)?;
            push_lines(sentence, said.as_str())
        }
        None => Ok(()),
    }
}

// Adds the lines of clap's text as one.
fn push_lines(sentence: &mut String, said: &str) -> Result<(), AllocError> {
    for line in said.lines() {
        push_said(sentence, line.trim())?;
    }
    Ok(())
}

// Adds a line of clap's text. What it says of the program's own words is left out.
fn push_said(sentence: &mut String, line: &str) -> Result<(), AllocError> {
    if line.is_empty()
        || line.starts_with("Usage: dagsched [OPTIONS]")
        || line.starts_with("For more information")
        || line.starts_with("tip: to pass '")
    {
        return Ok(());
    }
    let (before, said) = if let Some(said) = line.strip_prefix("error: ") {
        ("; ", said)
    } else if let Some(said) = line.strip_prefix("Usage: dagsched ") {
        ("; usage: ", said)
    } else if line.starts_with("tip:") {
        ("; ", line)
    } else {
        (" ", line)
    };
    push_between(sentence, before)?;
    sentence.push_str(said)
}

// What in a command of these words and values is read in another way than one may think, or nothing.
fn hint_of(line: &str, words: &[&str], values: &[&str]) -> &'static str {
    if line.contains(" #") {
        return "a comment begins in the first column, so # is a word here";
    }
    if line.contains('"') || line.contains('\'') || line.contains('\\') {
        return "there are no quotes and no escapes, and a path is one word";
    }
    match words {
        [first, rest @ ..] if rest.contains(&"--record") => {
            if first.starts_with("--record") {
                "--record stands once"
            } else {
                "--record stands first: dagsched --record PATH COMMAND"
            }
        }
        _ => match values {
            ["trigger", _, _, ..] => {
                "a run by hand has the record's clock as its date, which only a tick moves"
            }
            ["mark", _, _, _] => "STATE is skipped, and no other",
            _ => "",
        },
    }
}

// Adds which word is no name.
fn push_misnamed(sentence: &mut String, asked: Asked<'_>) -> Result<(), AllocError> {
    let values = asked.values(*sentence.allocator())?;
    push_word(sentence, misnamed(values.as_slice()), "no name")?;
    sentence.push_str("a name has 1 to 250 letters, digits, _, - and ., all ASCII")
}

// The first word of a command that is no moment and no name.
fn misnamed<'a>(values: &[&'a str]) -> Option<&'a str> {
    for word in values.iter().skip(1) {
        if !is_name(word) && Moment::read(word).is_err() {
            return Some(*word);
        }
    }
    None
}

// Adds which word is no moment, and what may stand there.
fn push_moment(
    sentence: &mut String,
    asked: Asked<'_>,
    fault: MomentFault,
) -> Result<(), AllocError> {
    let values = asked.values(*sentence.allocator())?;
    push_moment_of(sentence, values.as_slice(), fault)
}

// The same of these words.
fn push_moment_of(
    sentence: &mut String,
    values: &[&str],
    fault: MomentFault,
) -> Result<(), AllocError> {
    let command = values.first().copied().unwrap_or("");
    let found = faulty_moment(values, command, fault);
    let why = match found {
        Some(word) if word.contains("__") => "a run's date is what stands behind __ in its id",
        _ => moment_text(Some(fault)),
    };
    let order = if fault == MomentFault::Shape {
        order_of(command)
    } else {
        ""
    };
    push_word(sentence, found, "no moment")?;
    say(sentence, "{}{}", &[Text(why), Text(order)])
}

// The first word that may be a moment and has this fault.
fn faulty_moment<'a>(values: &[&'a str], command: &str, fault: MomentFault) -> Option<&'a str> {
    let first = if command == "tick" { 1 } else { 2 };
    for word in values.iter().skip(first) {
        if Moment::read(word).err() == Some(fault) {
            return Some(*word);
        }
    }
    None
}

// Begins what is said of a word, where it was found.
fn push_word(sentence: &mut String, word: Option<&str>, what: &str) -> Result<(), AllocError> {
    match word {
        Some(word) => say(sentence, "\"{}\" is {}: ", &[Text(word), Text(what)]),
        None => Ok(()),
    }
}

// The order of the words of a command that has moments.
fn order_of(command: &str) -> &'static str {
    match command {
        "explain" => "; the order is explain DAG LOGICAL TASK",
        "mark" => "; the order is mark DAG LOGICAL TASK skipped",
        "clear" => "; the order is clear DAG FROM TO",
        "backfill" => "; the order is backfill DAG FROM TO",
        "tick" => ", or now",
        _ => "",
    }
}

// Adds why there is no text of a graph.
fn push_source(
    sentence: &mut String,
    asked: Asked<'_>,
    fault: SourceFault,
) -> Result<(), AllocError> {
    let said = match fault {
        SourceFault::Unreadable => "cannot be read",
        SourceFault::NotText => "is not UTF-8",
        SourceFault::TooLong => "has more than 1,048,576 bytes",
        SourceFault::NoEnd => {
            return sentence.push_str(
                "the script ends within the graph's text that load inline or replace inline began: a line that is . alone ends it",
            );
        }
        SourceFault::Memory => return Ok(()),
    };
    let path = asked.path(*sentence.allocator())?.unwrap_or("");
    say(sentence, "{} {}", &[Text(path), Text(said)])
}

//! The sections of a text, each a heading and the lines of a script.
ghost use Rattle.worked_scripts.specs.Sections.{IsWithin};

use std::str;

/// A heading, `== WORD TITLE`, and the text below it. Neither has the newline that ends it.
#[derive(Clone, Copy)]
pub(crate) struct Section<'a> {
    pub heading: &'a [u8],
    pub script: &'a [u8],
}

/// How a script is run.
#[derive(Clone, Copy, Debug, PartialEq, Eq)]
pub(crate) enum Kind {
    /// With so many lanes, of 64 at most.
    Lanes(u32),
    /// With so many lanes, of 16 at most, and as many workers.
    Workers(u32),
    /// With one lane, a log for each try of `command`, and what a person is told below the answers.
    Logged,
    /// The same without logs.
    Told,
    /// With reads or writes that fail.
    Stops(Part),
    /// With so many bytes for each `~` and the byte before it.
    Long(usize),
    /// Below the load of a graph of so many tasks.
    Tasks(usize),
    /// A script without lanes, and below a line that is `+` alone commands outside of scripts.
    Single,
    /// A list of events, each with what it leaves.
    Events,
    /// What is written where memory ran out.
    Memory,
}

/// What fails.
#[derive(Clone, Copy, Debug, PartialEq, Eq)]
pub(crate) enum Part {
    Reads,
    Writes,
}

impl Section<'_> {
    /// How the script is run; without lanes where the heading does not say it.
    pub fn kind(&self) -> Kind
        ensures { IsWithin result }
    {
        let word = str::from_utf8(self.heading)
            .ok()
            .and_then(|text| text.split(' ').nth(1))
            .unwrap_or("");
        match word {
            "reads" => Kind::Stops(Part::Reads),
            "writes" => Kind::Stops(Part::Writes),
            "logs" => Kind::Logged,
            "told" => Kind::Told,
            "single" => Kind::Single,
            "events" => Kind::Events,
            "memory" => Kind::Memory,
            _ => counted(word),
        }
    }
}

// The kind of a word that has a number.
fn counted(word: &str) -> Kind
    ensures { IsWithin result }
{
    if let Some(count) = word.strip_prefix("workers-") {
        return Kind::Workers(count.parse::<u32>().unwrap_or(0).min(16));
    }
    if let Some(count) = word.strip_prefix("long-") {
        return Kind::Long(count.parse::<usize>().unwrap_or(0));
    }
    if let Some(count) = word.strip_prefix("tasks-") {
        return Kind::Tasks(count.parse::<usize>().unwrap_or(0));
    }
    Kind::Lanes(word.parse::<u32>().unwrap_or(0).min(64))
}

/// The first section of a text, and the text after it; none where the text is empty. A section ends where a line begins with `== `.
pub(crate) fn next_section(text: &[u8]) -> Option<(Section<'_>, &[u8])> {
    if text.is_empty() {
        return None;
    }
    let (section, rest) = match text.windows(4).position(|four| four == b"\n== ".as_slice()) {
        Some(end) => split_at_newline(text, end),
        None => (text, b"".as_slice()),
    };
    let (heading, script) = match section.iter().position(|byte| *byte == b'\n') {
        Some(end) => split_at_newline(section, end),
        None => (section, b"".as_slice()),
    };
    Some((Section { heading, script }, rest))
}

/// A script and the commands below it, with a line that is `+` alone between them.
pub(crate) fn script_and_commands(text: &[u8]) -> (&[u8], &[u8]) {
    match text
        .windows(3)
        .position(|three| three == b"\n+\n".as_slice())
    {
        Some(end) => {
            let (script, rest) = split_at_newline(text, end);
            let (_plus, commands) = split_at_newline(rest, 1);
            (script, commands)
        }
        None => (text, b"".as_slice()),
    }
}

// What stands before the newline at this place, and what stands after it.
fn split_at_newline(text: &[u8], newline: usize) -> (&[u8], &[u8]) {
    match text.split_at_checked(newline) {
        Some((before, [_, after @ ..])) => (before, after),
        _ => (text, b"".as_slice()),
    }
}

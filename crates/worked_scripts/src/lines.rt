//! What a line is: a title, a remark, limits, an event that no script has words for, SQL, or a line of a script.
use sched_core::{Event, Limits, Outcome, Stage};
use std::str;

/// What a line is.
#[derive(Drop)]
pub(crate) enum Line<'a> {
    /// `== TITLE`: a new record begins, within the greatest limits.
    Title(&'a str),
    /// A comment, or a line without a byte.
    Remark,
    /// `limits GRAPHS TASKS EDGES POOLS RUNS LANES`: a new record begins within these limits, where there are such.
    Limits(Option<Limits>),
    /// `restart LANES`, or `report SERIAL STAGE`, where the stage is `started` or how the try ended.
    Event(Event),
    /// `reopen LANES`: the record is closed, and opened again with so many lanes.
    Reopen(u32),
    /// `sql STATEMENTS`: a record that the same events have made is changed by SQL, and loaded.
    Sql(&'a str),
    /// A line of a script.
    Script,
}

impl Line<'_> {
    /// What this line is, which has no newline.
    pub fn of(line: &[u8]) -> Line<'_> {
        match str::from_utf8(line) {
            Ok(text) => of_text(text),
            Err(_) => Line::Script,
        }
    }
}

/// The first line of a text, without its newline, and the text after it.
pub(crate) fn first_line(text: &[u8]) -> (&[u8], &[u8]) {
    match text.iter().position(|byte| *byte == b'\n') {
        Some(end) => (&text[..end], &text[end + 1..]),
        None => (text, b"".as_slice()),
    }
}

fn of_text(text: &str) -> Line<'_> {
    if text.is_empty() || text.starts_with("#") {
        return Line::Remark;
    }
    if let Some(title) = text.strip_prefix("== ") {
        return Line::Title(title);
    }
    match text.split_once(' ') {
        Some(("limits", rest)) => Line::Limits(limits_of(rest)),
        Some(("sql", rest)) => Line::Sql(rest),
        Some(("reopen", rest)) => match number(Some(rest)) {
            Some(lanes) => Line::Reopen(lanes),
            None => Line::Script,
        },
        Some((name, rest)) => match event_of(name, rest) {
            Some(event) => Line::Event(event),
            None => Line::Script,
        },
        None => Line::Script,
    }
}

// The limits of six numbers.
fn limits_of(text: &str) -> Option<Limits> {
    let mut numbers = text.split(' ');
    let graphs = number(numbers.next())?;
    let tasks = number(numbers.next())?;
    let edges = number(numbers.next())?;
    let pools = number(numbers.next())?;
    let runs = number(numbers.next())?;
    let lanes = number(numbers.next())?;
    Limits::new(graphs, tasks, edges, pools, runs, lanes)
}

fn number(word: Option<&str>) -> Option<u32> {
    word?.parse::<u32>().ok()
}

// The event of this name and words, where it is one that no script has words for.
fn event_of(name: &str, rest: &str) -> Option<Event> {
    match name {
        "restart" => Some(Event::Restart(number(Some(rest))?)),
        "report" => report_of(rest),
        _ => None,
    }
}

fn report_of(text: &str) -> Option<Event> {
    let (serial, stage) = text.split_once(' ')?;
    Some(Event::Report(serial.parse::<u64>().ok()?, stage_of(stage)?))
}

fn stage_of(word: &str) -> Option<Stage> {
    match word {
        "started" => Some(Stage::Started),
        "success" => Some(Stage::Ended(Outcome::Success)),
        "failed" => Some(Stage::Ended(Outcome::Failed)),
        "skipped" => Some(Stage::Ended(Outcome::Skipped)),
        "lost" => Some(Stage::Ended(Outcome::Lost)),
        _ => None,
    }
}

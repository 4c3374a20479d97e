//! Trigger rules, and the words that graph files and answers have for rules, operators, statuses, names and states.
use graph_file::{Name, Operator, Rule, WeightRule, read_status};
use std::alloc::Global;
use std::collections::HashSet;
use std::{io, str};
use trigger_rules::{Counts, State, Verdict, verdict_of};

// The states, each with its kind: success 1, failed 2, upstream_failed 4, skipped 8, unfinished 16.
const STATES: [(State, usize); 9] = [
    (State::Success, 1),
    (State::Failed, 2),
    (State::UpstreamFailed, 4),
    (State::Skipped, 8),
    (State::None, 16),
    (State::Scheduled, 16),
    (State::Queued, 16),
    (State::Running, 16),
    (State::UpForRetry, 16),
];

/// Writes the answer to a question about words.
pub(crate) fn write_answer(rt: &HostRuntime, word: &str, rest: &str) -> io::Result<()> {
    match word {
        "trigger_rule" => write_rule(rt, rest),
        "weight_rule" => write_weight_rule(rt, rest),
        "operator" => write_operator(rt, rest),
        "status" => write_status(rt, rest),
        "states" => write_states(rt),
        "name" => write_name(rt, rest),
        "order" => write_order(rt, rest),
        _ => rt.print("no such word"),
    }
}

// The letters of the rule of a word.
fn write_rule(rt: &HostRuntime, word: &str) -> io::Result<()> {
    match Rule::read(word) {
        Some(rule) => rt.print(str::from_utf8(&row_of(rule)).unwrap_or("no letters")),
        None => rt.print("no rule"),
    }
}

// What a rule makes of each set of kinds, the place of which is its sum, over all lists of up to five states: `?` where two lists of
// one set have different letters.
fn row_of(rule: Rule) -> [u8; 32] {
    let mut row = [b'-'; 32];
    for code in 0..100_000 {
        let (kinds, letter) = told(rule, code);
        note(&mut row, kinds, letter);
    }
    row
}

// Notes the letter of a list at the place of its set.
fn note(row: &mut [u8; 32], kinds: usize, letter: u8) {
    if let Some(noted) = row.get_mut(kinds) {
        if *noted == b'-' {
            *noted = letter;
        } else if *noted != letter {
            *noted = b'?';
        }
    }
}

// The set of a list and its letter. Each of the five digits of a code is a state by its number, or 9, which is none.
fn told(rule: Rule, code: usize) -> (usize, u8) {
    let mut counts = Counts::new();
    let mut kinds = 0;
    let mut digits = code;
    for digit in 0..5u16 {
        if let Some((state, kind)) = STATES.get(digits % 10) {
            counts.add(*state);
            kinds |= *kind;
        }
        digits /= 10;
    }
    (kinds, letter(verdict_of(rule, &counts)))
}

// R runs, U is upstream_failed, S is skipped, W waits.
fn letter(verdict: Verdict) -> u8 {
    match verdict {
        Verdict::Run => b'R',
        Verdict::UpstreamFailed => b'U',
        Verdict::Skip => b'S',
        Verdict::Wait => b'W',
    }
}

fn write_weight_rule(rt: &HostRuntime, word: &str) -> io::Result<()> {
    match WeightRule::read(word) {
        Some(rule) => print!(rt; "{rule:?}"),
        None => rt.print("no weight rule"),
    }
}

fn write_operator(rt: &HostRuntime, word: &str) -> io::Result<()> {
    match Operator::read(word) {
        Some(operator) => print!(rt; "{operator:?}"),
        None => rt.print("no operator"),
    }
}

fn write_status(rt: &HostRuntime, word: &str) -> io::Result<()> {
    match read_status(word) {
        Some(status) => rt.print(status),
        None => rt.print("no status"),
    }
}

// The name of each state, and which are ends.
fn write_states(rt: &HostRuntime) -> io::Result<()> {
    for (i, (state, _)) in STATES.iter().enumerate() {
        let comma = if i == 0 { "" } else { ", " };
        let name = state.name();
        let end = if state.is_finished() { " (an end)" } else { "" };
        print!(rt; "{comma}{name}{end}")?;
    }
    Ok(())
}

// A name as it is read, or why a text is none.
fn write_name(rt: &HostRuntime, text: &str) -> io::Result<()> {
    match Name::read(rt.alloc(), text) {
        Ok(name) => rt.print(name.as_str()),
        Err(fault) => print!(rt; "{fault:?}"),
    }
}

// How two names compare, and whether one is found where a copy of the other was put.
fn write_order(rt: &HostRuntime, text: &str) -> io::Result<()> {
    let (one, other) = text.split_once(' ').unwrap_or((text, ""));
    let Ok(one) = Name::read(rt.alloc(), one) else {
        return rt.print("no name");
    };
    let Ok(other) = Name::read(rt.alloc(), other) else {
        return rt.print("no name");
    };
    write_compared(rt, &one, &other)
}

fn write_compared(rt: &HostRuntime, one: &Name, other: &Name) -> io::Result<()> {
    let order = one.cmp(other);
    let found = if is_found(rt.alloc(), one, other)? {
        "found"
    } else {
        "not found"
    };
    print!(rt; "{order:?}, {found}")
}

fn is_found(alloc: Global, one: &Name, other: &Name) -> io::Result<bool> {
    let mut names = HashSet::new(alloc);
    names.insert(one.copy(alloc)?)?;
    Ok(names.contains(other))
}

//! A page of questions. A line that names a section, `[queues]`, `[desk]` or `[operators]`, stands before the questions of it.
//!
//! A question is printed with its answer behind ` =>`; a section's name, a line that begins with `#` and an empty line are printed as they
//! are.
use crate::folders::base_folder;
use crate::{desk_questions, operator_questions, queue_questions};
use std::io;
use std::rt::Clock;
use std::sync::Wait;
use std::thread::Threads;

/// What the questions are about.
#[derive(Clone, Copy, Debug, PartialEq, Eq)]
enum Section {
    Queues,
    Desk,
    Operators,
}

/// Writes the page of standard input.
pub(crate) fn write_page<R: Threads + Wait + Print + Clock + Sync>(
    rt: &R,
    host: &HostRuntime,
) -> io::Result<()> {
    let alloc = host.alloc();
    let base = base_folder(host)?;
    let text = io::read_to_string(alloc, host.reader())?;
    write_lines(rt, host, base.as_str(), text.as_str())
}

fn write_lines<R: Threads + Wait + Print + Clock + Sync>(
    rt: &R,
    host: &HostRuntime,
    base: &str,
    text: &str,
) -> io::Result<()> {
    let mut section = None;
    for line in text.lines() {
        section = section_named(line).or(section);
        write_line(rt, host, base, section, line)?;
    }
    Ok(())
}

fn section_named(line: &str) -> Option<Section> {
    match line {
        "[queues]" => Some(Section::Queues),
        "[desk]" => Some(Section::Desk),
        "[operators]" => Some(Section::Operators),
        _ => None,
    }
}

// Writes a line of the page.
fn write_line<R: Threads + Wait + Print + Clock + Sync>(
    rt: &R,
    host: &HostRuntime,
    base: &str,
    section: Option<Section>,
    line: &str,
) -> io::Result<()> {
    if line.is_empty() || line.starts_with('#') || section_named(line).is_some() {
        return rt.println(line);
    }
    print!(rt; "{line} =>")?;
    write_answer(rt, host, base, section, line)?;
    rt.println("")
}

// Writes the answer to a question.
fn write_answer<R: Threads + Wait + Print + Clock + Sync>(
    rt: &R,
    host: &HostRuntime,
    base: &str,
    section: Option<Section>,
    line: &str,
) -> io::Result<()> {
    let alloc = host.alloc();
    let (subject, rest) = line.split_once(' ').unwrap_or((line, ""));
    match section {
        Some(Section::Queues) => queue_questions::write_answer(rt, alloc, subject, rest),
        Some(Section::Desk) => desk_questions::write_answer(rt, alloc, subject, rest),
        Some(Section::Operators) => {
            operator_questions::write_answer(rt, host, alloc, base, subject, rest)
        }
        None => rt.print(" no such section"),
    }
}

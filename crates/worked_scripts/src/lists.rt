//! Lists of events, each told with its answer and with what it leaves.
//!
//! Each list is stepped by a director, with a new record in memory. At its end this is read back and compared with the schedule, and so is what
//! the same events lead to in one call.
//!
//! A list has the lines of a script, and the words for what no script says (`lines`). They are written with `> ` before each, and after each what it answers, as a
//! script prints it, and what it leaves (`leaving`). A line `sql STATEMENTS` changes a record that the same events have made, and says what that one is loaded
//! as (`changing`). A line `reopen LANES` closes the record and opens it again.
//!
//! ```text
//! == events a lane takes one try
//! > restart 1
//! ok
//! = 1970-01-01T00:00:00+00:00, 0 of 1 in flight, next 1
//! ```
use crate::answering::answer;
use crate::changing::load_changed;
use crate::lines::{Line, first_line};
use crate::put_lines;
use crate::recording::Recorder;
use crate::records::{Directed, Records, Tally};
use crate::stepping::{reopen, step};
use sched_core::Limits;
use script_commands::{CommandFault, LineReader, ScriptCommand, SourceFault, next_command};
use sqlite::Alter;
use std::alloc::Global;
use std::io::{self, Write};

/// Does what the lines of a list say, writes what comes of each, and adds the records of the list to these.
pub(crate) fn put_list<R: Recorder, W: Write>(
    alloc: Global,
    recorder: &R,
    text: &[u8],
    tally: Tally,
    output: &mut W,
) -> io::Result<Tally> {
    let mut lines = LineReader::new(alloc)?;
    let mut records = Records::new(alloc, recorder, tally)?;
    put_all(alloc, recorder, &mut records, &mut lines, text, output)?;
    records.end(alloc, recorder)
}

fn put_all<R: Recorder, W: Write>(
    alloc: Global,
    recorder: &R,
    records: &mut Records<R::Pages>,
    lines: &mut LineReader,
    text: &[u8],
    output: &mut W,
) -> io::Result<()> {
    let mut left = text;
    for _line in 0..text.len() {
        if left.is_empty() {
            break;
        }
        left = put_next(alloc, recorder, records, lines, left, output)?;
    }
    Ok(())
}

// Does what the first line says, and answers the text after it.
fn put_next<'a, R: Recorder, W: Write>(
    alloc: Global,
    recorder: &R,
    records: &mut Records<R::Pages>,
    lines: &mut LineReader,
    text: &'a [u8],
    output: &mut W,
) -> io::Result<&'a [u8]> {
    let (line, rest) = first_line(text);
    match Line::of(line) {
        Line::Script => put_script(alloc, &mut records.directed, lines, text, output),
        own => {
            put_own(alloc, recorder, records, line, &own, output)?;
            Ok(rest)
        }
    }
}

// Does a line that is none of a script.
fn put_own<R: Recorder, W: Write>(
    alloc: Global,
    recorder: &R,
    records: &mut Records<R::Pages>,
    line: &[u8],
    own: &Line<'_>,
    output: &mut W,
) -> io::Result<()> {
    match own {
        Line::Remark | Line::Title(_) | Line::Script => put_remark(line, output),
        told => {
            put_lines(b"> ", line, output)?;
            tell(alloc, recorder, records, told, output)
        }
    }
}

// Does a line that was written, and writes what comes of it.
fn tell<R: Recorder, W: Write>(
    alloc: Global,
    recorder: &R,
    records: &mut Records<R::Pages>,
    line: &Line<'_>,
    output: &mut W,
) -> io::Result<()> {
    match line {
        Line::Limits(limits) => limit(alloc, recorder, records, *limits, output),
        Line::Event(event) => step(alloc, &mut records.directed, event, output),
        Line::Reopen(lanes) => reopen(alloc, recorder, &mut records.directed, *lanes, output),
        Line::Sql(statements) => {
            load_changed(alloc, recorder, &records.directed, statements, output)
        }
        Line::Remark | Line::Title(_) | Line::Script => Ok(()),
    }
}

fn put_remark<W: Write>(line: &[u8], output: &mut W) -> io::Result<()> {
    output.write_all(line)?;
    output.write_all(b"\n")
}

// Begins a new record within the limits.
fn limit<R: Recorder, W: Write>(
    alloc: Global,
    recorder: &R,
    records: &mut Records<R::Pages>,
    limits: Option<Limits>,
    output: &mut W,
) -> io::Result<()> {
    match limits {
        Some(limits) => {
            records.begin(alloc, recorder, limits)?;
            output.write_all(b"ok\n")
        }
        None => output.write_all(b"no limits\n"),
    }
}

// Does the next command of a script, and answers the text after it. The command is read again where memory ran out.
fn put_script<'a, S: Alter + Drop, W: Write>(
    alloc: Global,
    directed: &mut Directed<S>,
    lines: &mut LineReader,
    text: &'a [u8],
    output: &mut W,
) -> io::Result<&'a [u8]> {
    let (request, left) = request_or_again(alloc, lines, text)?;
    let read = text.len().saturating_sub(left.len());
    put_request(alloc, directed, &text[..read], request, output)?;
    Ok(left)
}

// Writes the lines of a command, and does it.
fn put_request<S: Alter + Drop, W: Write>(
    alloc: Global,
    directed: &mut Directed<S>,
    text: &[u8],
    request: Option<Request>,
    output: &mut W,
) -> io::Result<()> {
    let echoed = put_lines(b"> ", text, output);
    match request {
        Some(request) if echoed.is_ok() => answer(alloc, directed, request, output),
        _ => echoed,
    }
}

fn request_or_again<'a>(
    alloc: Global,
    lines: &mut LineReader,
    text: &'a [u8],
) -> io::Result<Asked<'a>> {
    let found = next_request(alloc, lines, text);
    if lacks_memory(&found) {
        return next_request(alloc, lines, text);
    }
    found
}

/// What a command asks for.
pub(crate) type Request = Result<ScriptCommand, CommandFault>;

/// The same, if there is one, and the text after it.
pub(crate) type Asked<'a> = (Option<Request>, &'a [u8]);

// Whether memory ran out for the command, or it could not be read.
fn lacks_memory(found: &io::Result<Asked<'_>>) -> bool {
    match found {
        Ok((request, _)) => is_lack(request),
        Err(_) => true,
    }
}

fn is_lack(request: &Option<Request>) -> bool {
    let Some(Err(fault)) = request else {
        return false;
    };
    *fault == CommandFault::Source(SourceFault::Memory)
}

/// What the next command of a script asks for, and the text after it.
pub(crate) fn next_request<'a>(
    alloc: Global,
    lines: &mut LineReader,
    text: &'a [u8],
) -> io::Result<Asked<'a>> {
    let mut left = text;
    let request = next_command(alloc, lines, &mut left)?;
    Ok((request, left))
}

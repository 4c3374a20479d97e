//! The lines of an answer.
ghost use Rattle.std.specs.Prelude.{◌≡◌, OnOk, codes};
ghost use Rattle.std.specs.Io.KnownBytes.{Appends};
ghost use Rattle.std.specs.List.{flat_map};
ghost use Rattle.answer_lines.specs.Answers as answers;
ghost use Rattle.answer_lines.specs.Answers.{answer_text, cleared_line, made_line};

use crate::jobs::put_jobs;
use sched_events::{Answer, Event, RunId};
use std::io::{self, Write};

// Writes the answer to an event.
pub(crate) fn put_answer<W: Write>(output: &mut W, event: &Event, answer: &Answer) -> io::Result<()>
    ensures { OnOk result (Appends (W.contents output.old) (W.contents output.new)
        (answer_text event.now answer.now)) }
{
    put_made(output, answer.made.as_slice())?;
    if sets_back(event) {
        put_cleared(output, answer.cleared)?;
    }
    if answer.more {
        output.write_all(b"more\n")?;
    }
    put_jobs(output, answer.jobs.as_slice())?;
    put_ok(output)
}

// Whether the event sets task instances back.
fn sets_back(event: &Event) -> bool
    ensures { result ≡ answers.sets_back event.now }
{
    match event {
        Event::Clear(_) => true,
        Event::Backfill { reset, .. } => *reset,
        _ => false,
    }
}

fn put_cleared<W: Write>(output: &mut W, cleared: u32) -> io::Result<()>
    ensures { OnOk result (Appends (W.contents output.old) (W.contents output.new)
        (cleared_line cleared)) }
{
    writeln!(output, "cleared {cleared}")
}

// Writes `ok`, which ends an answer and the rows of a list.
pub(crate) fn put_ok<W: Write>(output: &mut W) -> io::Result<()>
    ensures { OnOk result (Appends (W.contents output.old) (W.contents output.new) (codes "ok\n")) }
{
    output.write_all(b"ok\n")
}

// Writes a line for each run made.
fn put_made<W: Write>(output: &mut W, made: &[RunId]) -> io::Result<()>
    ensures { OnOk result (Appends (W.contents output.old) (W.contents output.new)
        (flat_map made_line made.now)) }
{
    for id in made {
        put_made_line(output, id)?;
    }
    Ok(())
}

fn put_made_line<W: Write>(output: &mut W, id: &RunId) -> io::Result<()>
    ensures { OnOk result (Appends (W.contents output.old) (W.contents output.new)
        (made_line id.now)) }
{
    let graph = id.graph.as_str();
    let kind = id.kind.name();
    let logical = id.logical;
    writeln!(output, "made {graph} {kind}__{logical}")
}

//! Scripts whose reads or writes fail, after 0, 1, 2 .. that do not.
use crate::failing::Calls;
use crate::playing::{Played, Setting, play};
use crate::recording::Recorder;
use crate::sections::Part;
use std::alloc::Global;
use std::io::{self, ErrorKind, Write};
use std::str;
use std::sync::Wait;
use std::thread::Threads;

// More calls than a script here makes.
const MANY: usize = 1_000;

// The status of a script whose input or output failed.
const FAILED: u8 = 4;

// Runs one after another that end the same: how many calls came before the failure in the first and the last of them.
#[derive(Drop)]
struct Alike {
    first: usize,
    last: usize,
    line: String,
}

impl Alike {
    // Adds the next run, after so many calls: to those before it, or as the first of others, and then those before it are written.
    fn add<W: Write>(
        alike: &mut Option<Alike>,
        calls: usize,
        line: String,
        output: &mut W,
    ) -> io::Result<()> {
        match alike {
            Some(it) if it.line == line => it.last = calls,
            _ => {
                Alike::put(alike.as_ref(), output)?;
                *alike = Some(Alike {
                    first: calls,
                    last: calls,
                    line,
                });
            }
        }
        Ok(())
    }

    fn put<W: Write>(alike: Option<&Alike>, output: &mut W) -> io::Result<()> {
        match alike {
            Some(it) => writeln!(output, "after {} to {}: {}", it.first, it.last, it.line),
            None => Ok(()),
        }
    }
}

// What fails, after so many calls that do not.
#[derive(Clone, Copy)]
struct Stop {
    part: Part,
    count: usize,
}

impl Stop {
    fn calls(&self) -> Calls {
        match self.part {
            Part::Reads => Calls {
                reads: self.count,
                ..Calls::all()
            },
            Part::Writes => Calls {
                writes: self.count,
                ..Calls::all()
            },
        }
    }
}

/// Writes how a script ends where so many reads or writes do not fail, up to the first run that meets no failure.
pub(crate) fn put_stops<R: Recorder, T: Threads + Wait + Sync, W: Write>(
    rt: &T,
    host: &HostRuntime,
    recorder: &R,
    part: Part,
    script: &[u8],
    output: &mut W,
) -> io::Result<()> {
    let mut alike: Option<Alike> = None;
    for count in 0..MANY {
        if !is_stopped(
            rt,
            host,
            recorder,
            Stop { part, count },
            script,
            &mut alike,
            output,
        )? {
            break;
        }
    }
    Ok(())
}

// Whether a run met a failure. Those that did are written once a run ends otherwise.
fn is_stopped<R: Recorder, T: Threads + Wait + Sync, W: Write>(
    rt: &T,
    host: &HostRuntime,
    recorder: &R,
    stop: Stop,
    script: &[u8],
    alike: &mut Option<Alike>,
    output: &mut W,
) -> io::Result<bool> {
    let played = play(
        rt,
        host,
        recorder,
        Setting::with_lanes(1),
        script,
        stop.calls(),
    )?;
    let line = line_of(host.alloc(), stop.part, &played)?;
    if played.status == FAILED {
        Alike::add(alike, stop.count, line, output)?;
        Ok(true)
    } else {
        put_last(alike.as_ref(), &line, output)?;
        Ok(false)
    }
}

fn put_last<W: Write>(alike: Option<&Alike>, line: &str, output: &mut W) -> io::Result<()> {
    Alike::put(alike, output)?;
    writeln!(output, "never: {line}")
}

// The status and the record's clock, and where reads fail the lines before them: of writes that fail each run has one byte more than the one before it.
fn line_of(alloc: Global, part: Part, played: &Played) -> io::Result<String> {
    let mut line = String::new(alloc);
    if part == Part::Reads {
        push_lines(played.printed.as_slice(), &mut line)?;
    }
    let (status, now) = (played.status, played.now);
    line.push_str(format!(in alloc; "status {status}, clock {now}")?.as_str())?;
    Ok(line)
}

fn push_lines(printed: &[u8], line: &mut String) -> io::Result<()> {
    let Ok(text) = str::from_utf8(printed) else {
        return Err(io::Error::from(ErrorKind::InvalidData));
    };
    for it in text.lines() {
        line.push_str(it)?;
        line.push_str(" / ")?;
    }
    Ok(())
}

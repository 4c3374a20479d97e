//! Words and lines of texts, also of readers that fail once. `|` stands for a newline and `~` for a carriage return.
use crate::graphs::replaced;
use script_commands::{Found, LineReader};
use std::io::{self, ErrorKind, Read};
use std::str;
use text_words::next_word;

// A reader of a text, one call of which fails.
#[derive(Drop)]
struct Faulty<'a> {
    text: &'a [u8],
    calls_before: usize,
    kind: ErrorKind,
}

impl Read for Faulty<'_> {
    fn read(&mut self, buffer: &mut [u8]) -> io::Result<usize> {
        let is_last = self.calls_before == 0;
        self.calls_before = self.calls_before.wrapping_sub(1);
        if is_last {
            return Err(io::Error::from(self.kind));
        }
        self.text.read(buffer)
    }
}

/// Writes the answer to a question about a text.
pub(crate) fn write_answer(rt: &HostRuntime, word: &str, rest: &str) -> io::Result<()> {
    let rest = replaced(rt.alloc(), rest, &[("|", "\n"), ("~", "\r")])?;
    match word {
        "words" => write_words(rt, rest.as_str()),
        "lines" => write_lines(rt, rest.as_str(), usize::MAX, ErrorKind::Other),
        _ => write_counted(rt, word, rest.as_str()),
    }
}

// The words of a text.
fn write_words(rt: &HostRuntime, text: &str) -> io::Result<()> {
    let mut rest = text.as_bytes();
    for _ in 0..text.len() {
        let Some((word, after)) = next_word(rest) else {
            break;
        };
        write_quoted(rt, word)?;
        rest = after;
    }
    rt.print("end")
}

// A text in quotes, or its length where it is long.
fn write_quoted(rt: &HostRuntime, bytes: &[u8]) -> io::Result<()> {
    let count = bytes.len();
    match str::from_utf8(bytes) {
        Ok(text) if count < 80 => print!(rt; "{text:?} "),
        _ => print!(rt; "{count} bytes "),
    }
}

// A question with a number: `COUNT TEXT`.
fn write_counted(rt: &HostRuntime, word: &str, rest: &str) -> io::Result<()> {
    let (count, text) = rest.split_once(' ').unwrap_or((rest, ""));
    let count = count.parse::<usize>().unwrap_or(0);
    match word {
        "letters" => write_long(rt, "x", count, text),
        "blanks" => write_long(rt, " ", count, text),
        "broken" => write_lines(rt, text, count, ErrorKind::BrokenPipe),
        "interrupted" => write_lines(rt, text, count, ErrorKind::Interrupted),
        _ => rt.print("no such word"),
    }
}

// The lines of so many units and the text behind them.
fn write_long(rt: &HostRuntime, unit: &str, count: usize, text: &str) -> io::Result<()> {
    let units = unit.repeat(rt.alloc(), count)?;
    let text = format!(in rt.alloc(); "{units}{text}")?;
    write_lines(rt, text.as_str(), usize::MAX, ErrorKind::Other)
}

// The lines of a text, where the call after so many calls fails.
fn write_lines(
    rt: &HostRuntime,
    text: &str,
    calls_before: usize,
    kind: ErrorKind,
) -> io::Result<()> {
    let mut input = Faulty {
        text: text.as_bytes(),
        calls_before,
        kind,
    };
    write_all(rt, &mut LineReader::new(rt.alloc())?, &mut input)
}

// All that is found, up to the end or to a failure.
fn write_all(rt: &HostRuntime, lines: &mut LineReader, input: &mut Faulty) -> io::Result<()> {
    for _ in 0..10u8 {
        match lines.read(input) {
            Ok(Found::Line) => write_quoted(rt, lines.line())?,
            Ok(Found::LongLine { is_blank }) => write_passed(rt, lines.line(), is_blank)?,
            Ok(Found::End) => return rt.print("end"),
            Err(e) => return write_kind(rt, e.kind()),
        }
    }
    rt.print("more")
}

// A line that was passed over: whether it is of blanks alone, and how much of it is held.
fn write_passed(rt: &HostRuntime, held: &[u8], is_blank: bool) -> io::Result<()> {
    let kind = if is_blank { "line of blanks" } else { "line" };
    let count = held.len();
    print!(rt; "a long {kind}, {count} bytes of it held ")
}

fn write_kind(rt: &HostRuntime, kind: ErrorKind) -> io::Result<()> {
    print!(rt; "{kind:?}")
}

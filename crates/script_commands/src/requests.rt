//! The commands of a script, one after another.
//!
//! Easy to get wrong: a comment and a line of blanks ask for nothing even where they are too long or no UTF-8.
ghost use Rattle.std.specs.Prelude.{◌≡◌, ℕ, ◌<◌, ◌≤◌, true, false, nat_lt, List, length, take, Some, MatchOption, IfOk, IfSome};
ghost use Rattle.std.specs.List.{list_all};
ghost use Rattle.text_words.specs.Words.{is_blank as is_blank_byte, words};
ghost use Rattle.script_commands.specs.Lines.{line_limit};
ghost use Rattle.script_commands.specs.Meanings.{asks_of_script, IsReadAs};
ghost use Rattle.script_commands.specs.Commands as spec;
ghost use Rattle.script_commands.specs.Commands.{IsNext, IsMeaning, is_asked, is_bad};

use crate::commands::{CommandFault, ScriptCommand};
use crate::graph_texts::read_text;
use crate::lines::{Found, LineReader};
use crate::meanings::{LineMeaning, meaning_of_words};
use command_words::{UsageFault, words_ask_for_no_report};
use std::alloc::{AllocError, Global};
use std::io::{self, ErrorKind, Read};
use std::str;
use text_words::next_word;

// How many lines are read before reading ends in an error.
pub(crate) const MOST_LINES: u64 = 1 << 40;

/// Reads the next command of a script: the command, or why there is none in its place; `None` at the end of the input.
///
/// Lines that begin with `#` and lines of blanks alone are passed over. After `load inline` and `replace inline` the lines up to one that is `.` alone
/// are the graph's text, each with a newline; no line of it is passed over, and where one is too long or not UTF-8 the answer is
/// `BadLine`, at the end of the text. Where memory runs out for a text that is good, the answer is `Memory`, at its end. `lines` holds the line
/// that was read last. An error is the reader's, or that memory ran out for the words of a line; then a part of the script may be lost.
pub fn next_command<R: Read>(
    alloc: Global,
    lines: &mut LineReader,
    input: &mut R,
) -> io::Result<Option<Result<ScriptCommand, CommandFault>>>
    ensures next { IfOk result (λ next. (bytes : List ℕ) → R.remaining input.old ≡ Some bytes
        → IsNext bytes next (R.remaining input.new)) }
    ensures asked { IfOk result (λ next. IfSome next (λ request. is_asked request ≡ true)) }
{
    for _line in 0..MOST_LINES {
        match next_meaning(alloc, lines, input)? {
            None => return Ok(None),
            Some(Ok(LineMeaning::Nothing)) => {}
            Some(Ok(LineMeaning::Text(taking))) => {
                return Ok(Some(read_text(alloc, lines, input, taking)?));
            }
            Some(Ok(LineMeaning::This(command))) => return Ok(Some(Ok(command))),
            Some(Ok(LineMeaning::Fault(fault))) => return Ok(Some(Err(CommandFault::Usage(fault)))),
            Some(Err(_)) => return Err(io::Error::from(ErrorKind::OutOfMemory)),
        }
    }
    Err(io::Error::from(ErrorKind::Other))
}

// Reads the next line, and what it asks for.
fn next_meaning<R: Read>(
    alloc: Global,
    lines: &mut LineReader,
    input: &mut R,
) -> io::Result<Option<Result<LineMeaning, AllocError>>>
    ensures next { IfOk result (λ asked. (bytes : List ℕ) → R.remaining input.old ≡ Some bytes
        → IsMeaning bytes asked (R.remaining input.new)) }
    ensures asked { IfOk result (λ asked. IfSome asked (λ it. IfOk it (λ meaning. asks_of_script meaning ≡ true))) }
{
    words_ask_for_no_report();
    match lines.read(input)? {
        Found::Line => Ok(Some(meaning_of(alloc, lines.line()))),
        Found::LongLine { is_blank } => Ok(Some(Ok(meaning_of_long(lines.line(), is_blank)))),
        Found::End => Ok(None),
    }
}

// What a line asks for that is not too long.
fn meaning_of(alloc: Global, line: &[u8]) -> Result<LineMeaning, AllocError>
    requires { length line.now ≤ line_limit }
    ensures { IsReadAs (spec.meaning_of line.now) result }
{
    if is_skipped(line) {
        return Ok(LineMeaning::Nothing);
    }
    match text_of(line) {
        Some(text) => meaning_of_words(alloc, text),
        None => Ok(LineMeaning::Fault(UsageFault::BadLine)),
    }
}

// What a line asks for that is too long, of which this is the beginning.
fn meaning_of_long(start: &[u8], is_blank: bool) -> LineMeaning
    ensures is { (line : List ℕ) → line_limit < length line → start.now ≡ take line_limit line
        → is_blank ≡ list_all is_blank_byte line → result ≡ spec.meaning_of line }
    ensures asked { asks_of_script result ≡ true }
{
    if is_comment(start) {
        return LineMeaning::Nothing;
    }
    if is_blank {
        return LineMeaning::Nothing;
    }
    LineMeaning::Fault(UsageFault::BadLine)
}

// Whether the line is passed over.
fn is_skipped(line: &[u8]) -> bool
    ensures { result ≡ spec.is_skipped line.now }
{
    is_comment(line) || !has_word(line)
}

fn has_word(line: &[u8]) -> bool
    ensures { result ≡ nat_lt 0 (length (words line.now)) }
{
    match next_word(line) {
        Some(_) => true,
        None => false,
    }
}

// Whether the line is a comment.
fn is_comment(line: &[u8]) -> bool
    ensures { result ≡ spec.is_comment line.now }
{
    !line.is_empty() && line[0] == b'#'
}

// The text of a line that is not too long, where it is no bad line.
pub(crate) fn text_of(line: &[u8]) -> Option<&str>
    requires { length line.now ≤ line_limit }
    ensures { MatchOption result (is_bad line.now ≡ true)
        (λ text. (is_bad line.now ≡ false) × (text.now ≡ line.now)) }
{
    match str::from_utf8(line) {
        Ok(text) => Some(text),
        Err(_) => None,
    }
}

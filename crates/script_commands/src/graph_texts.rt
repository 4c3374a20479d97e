//! A graph's text between the lines of a script.
//!
//! The text is kept while its lines are good. A bad line or want of memory does not end it: the lines up to `.` belong to it
//! all the same.
ghost use Rattle.std.specs.Prelude.{◌≡◌, ℕ, true, List, [], ◌∷◌, ◌++◌, ◌≤◌, length, Some, Option, IfOk, string_bytes, OnOk};
ghost use Rattle.script_commands.specs.Lines.{line_limit, lines_of};
ghost use Rattle.script_commands.specs.Commands as spec;
ghost use Rattle.script_commands.specs.Commands.{IsFirst, IsGiven, commands_from, is_asked, take_of, with_line, with_newline};
ghost use Rattle.script_commands.specs.Commands.Place.{Inside};
ghost use Rattle.script_commands.specs.Gathered.{Gathers};

use crate::commands::{CommandFault, ScriptCommand, SourceFault};
use crate::lines::{Found, LineReader};
use crate::requests::{MOST_LINES, text_of};
use command_words::{Taking, UsageFault};
use sched_state::GraphText;
use std::alloc::{AllocError, Global};
use std::io::{self, ErrorKind, Read};

// What was gathered of a graph's text.
#[derive(Drop)]
pub(crate) enum Gathered {
    // Its good lines.
    Text(String),
    // One of its lines was bad.
    BadLine,
    // Its lines were good, and memory ran out.
    Memory,
}

impl Gathered {
    // With one more line, which is not too long.
    fn with_line(self, line: &[u8]) -> Gathered
        requires { length line.now ≤ line_limit }
        ensures { (text : Option (List ℕ)) → Gathers text self
            → Gathers (with_line text line.now) result }
    {
        match text_of(line) {
            Some(line) => self.with_text(line),
            None => Gathered::BadLine,
        }
    }

    // With one more good line.
    fn with_text(self, line: &str) -> Gathered
        ensures { (text : Option (List ℕ)) → Gathers text self
            → Gathers (with_newline text line.now) result }
    {
        match self {
            Gathered::Text(mut text) => match push_line(&mut text, line) {
                Ok(()) => Gathered::Text(text),
                Err(_) => Gathered::Memory,
            },
            Gathered::BadLine => Gathered::BadLine,
            Gathered::Memory => Gathered::Memory,
        }
    }

    // The command that takes it in.
    fn take(self, taking: Taking) -> Result<ScriptCommand, CommandFault>
        ensures take { (text : Option (List ℕ)) → Gathers text self → IsGiven (take_of taking text) result }
        ensures asked { is_asked result ≡ true }
    {
        match self {
            Gathered::Text(text) => {
                let event = taking.event(GraphText::from_string(text));
                Ok(ScriptCommand::Step(event))
            }
            Gathered::BadLine => Err(CommandFault::Usage(UsageFault::BadLine)),
            Gathered::Memory => Err(CommandFault::Source(SourceFault::Memory)),
        }
    }
}

// Adds a line with its newline.
fn push_line(text: &mut String, line: &str) -> Result<(), AllocError>
    ensures { OnOk result (string_bytes text.new ≡ string_bytes text.old ++ (line.now ++ 10 ∷ [])) }
{
    text.push_str(line)?;
    text.push('\n')
}

// Reads a graph's text to its end, and the command that takes it in.
pub(crate) fn read_text<R: Read>(
    alloc: Global,
    lines: &mut LineReader,
    input: &mut R,
    taking: Taking,
) -> io::Result<Result<ScriptCommand, CommandFault>>
    ensures first { IfOk result (λ given. (bytes : List ℕ) → R.remaining input.old ≡ Some bytes
        → IsFirst (commands_from (Inside taking (Some [])) (lines_of bytes)) given (R.remaining input.new)) }
    ensures asked { IfOk result (λ given. is_asked given ≡ true) }
{
    let mut gathered = Gathered::Text(String::new(alloc));
    for _line in 0..MOST_LINES {
        match lines.read(input)? {
            Found::Line if ends_text(lines.line()) => return Ok(gathered.take(taking)),
            Found::Line => gathered = gathered.with_line(lines.line()),
            Found::LongLine { .. } => gathered = Gathered::BadLine,
            Found::End => return Ok(Err(CommandFault::Source(SourceFault::NoEnd))),
        }
    }
    Err(io::Error::from(ErrorKind::Other))
}

// Whether the line ends a graph's text.
fn ends_text(line: &[u8]) -> bool
    ensures { result ≡ spec.ends_text line.now }
{
    line == b".".as_slice()
}

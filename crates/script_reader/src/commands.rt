//! The commands of a script, as they are read.
ghost use Rattle.std.specs.Prelude.{◌≡◌, ℕ, List, true, Some, IfErr, IfOk, IfSome};
ghost use Rattle.script_commands.specs.Commands.{IsNext, is_asked};

use crate::console::Spot;
use script_commands::{CommandFault, LineReader, ScriptCommand, next_command};
use std::alloc::Global;
use std::io::{self, Read};

/// What reads the commands of an input.
#[derive(Drop)]
pub(crate) struct CommandInput<R: Read + Drop> {
    pub(crate) alloc: Global,
    lines: LineReader,
    pub(crate) input: R,
}

impl<R: Read + Drop> CommandInput<R> {
    /// Nothing is read yet. Where memory runs out, the input is given back.
    pub(crate) fn new(alloc: Global, input: R) -> Result<CommandInput<R>, R>
        ensures input { IfOk result (λ commands. commands.input ≡ input) }
        ensures kept { IfErr result (λ left. left ≡ input) }
    {
        match LineReader::new(alloc) {
            Ok(lines) => Ok(CommandInput {
                alloc,
                lines,
                input,
            }),
            Err(_) => Err(input),
        }
    }

    /// The next command, or why there is none in its place; none at the end.
    pub(crate) fn next(&mut self) -> io::Result<Option<Result<ScriptCommand, CommandFault>>>
        ensures next { IfOk result (λ next. (bytes : List ℕ) → R.remaining self.old.input ≡ Some bytes
            → IsNext bytes next (R.remaining self.new.input)) }
        ensures asked { IfOk result (λ next. IfSome next (λ request. is_asked request ≡ true)) }
    {
        next_command(self.alloc, &mut self.lines, &mut self.input)
    }

    /// Where the command stands that was read last.
    pub(crate) fn spot(&self) -> Spot<'_> {
        Spot::of(&self.lines)
    }
}

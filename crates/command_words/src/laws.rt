//! Laws of the definitions, each the contract of a function that does nothing.
ghost use Rattle.std.specs.Prelude.{◌≡◌, ◌≢◌, ◌↔◌, List, [], Ok, Err, true};
ghost use Rattle.clap.specs.Words.{Text, fault_of};
ghost use Rattle.word_app.specs.App.{dagsched};
ghost use Rattle.command_words.specs.Commands.{is_of_words};
ghost use Rattle.command_words.specs.Lines.{line_of};

use crate::commands::{CommandLine, UsageFault};

/// `Words` comes from clap alone: it is what words say exactly where clap finds a fault.
pub fn words_come_from_clap()
    ensures { (words : List Text) → (line_of words ≡ Err UsageFault.Words) ↔ (fault_of dagsched words ≢ []) }
{}

/// Words ask for no event but those of their commands: never for a report of a worker or a restart, whatever their bytes are.
pub fn words_ask_for_no_report()
    ensures { (words : List Text) (line : CommandLine) → line_of words ≡ Ok line → is_of_words line.command ≡ true }
{}

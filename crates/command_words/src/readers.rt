//! Words are read.
//!
//! Easy to get wrong: clap's command cannot be kept for the next words, since its contract wants words that live as long as the
//! command, so it is built for each list of words.
ghost use Rattle.std.specs.Prelude.{◌≡◌, ◌≢◌, IfOk, is_some, map, string_bytes, true};
ghost use Rattle.clap.specs.Words.{found_of, rows_of, subcommand_rows_of, matches_of, subcommand_of, fault_of, kind_of, FailsBy};
ghost use Rattle.word_app.specs.App.{IsListed, dagsched};
ghost use Rattle.command_words.specs.Lines as spec;
ghost use Rattle.command_words.specs.Lines.{IsRead, asks_for_help, is_refused};

use crate::commands::{CommandLine, UsageFault};
use crate::lines::line_in;
use clap::error::ErrorKind;
use clap::{ArgMatches, Error};
use std::alloc::{AllocError, Global};

static LISTED: [&str; 4] = ["dags", "runs", "tasks", "pools"];

/// What the words ask for, without the program's name before them.
///
/// `Words` is answered exactly where clap refuses the words; else the first word that should be a name or a moment and is none is
/// answered, in the order of the command's words. `NotHere` and `BadLine` never come from here. `Memory` may come in the place of any answer.
pub fn read_command(alloc: Global, words: &[String]) -> Result<CommandLine, UsageFault>
    ensures { IsRead (map string_bytes words.now) result }
{
    match parsed(alloc, listed(), words) {
        Ok(matches) => line_in(alloc, &matches),
        Err(error) => Err(usage_of(error.kind())),
    }
}

/// clap's text for words that it refuses, as it is shown to a user, with a newline at its end; `None` exactly where it takes them. An `Err` says
/// that memory ran out.
pub fn refusal_text(alloc: Global, words: &[String]) -> Result<Option<String>, AllocError>
    ensures { IfOk result (λ text. is_some text ≡ is_refused (map string_bytes words.now)) }
{
    match parsed(alloc, listed(), words) {
        Ok(_) => Ok(None),
        Err(error) => shown(alloc, &error),
    }
}

/// clap's text where it answers the words by help or by the version, as `--help`, `-h`, `--version` and `-V` ask for it, with a newline at its end;
/// `None` exactly where it does not. An `Err` says that memory ran out.
pub fn help_text(alloc: Global, words: &[String]) -> Result<Option<String>, AllocError>
    ensures { IfOk result (λ text. is_some text ≡ asks_for_help (map string_bytes words.now)) }
{
    match parsed(alloc, listed(), words) {
        Ok(_) => Ok(None),
        Err(error) => help_in(alloc, &error),
    }
}

// The words that `list` takes.
fn listed() -> &'static [&'static str]
    ensures { IsListed result }
{
    LISTED.as_slice()
}

// The text of a refusal that has another cause than memory.
fn shown(alloc: Global, error: &Error) -> Result<Option<String>, AllocError>
    ensures { IfOk result (λ text. (is_some text ≡ true) × (spec.usage_of (kind_of error.now) ≢ UsageFault.Memory)) }
{
    match usage_of(error.kind()) {
        UsageFault::Memory => Err(AllocError),
        _ => {
            let text = format!(in alloc; "{error}")?;
            Ok(Some(text))
        }
    }
}

// The text of an error that shows help or the version.
fn help_in(alloc: Global, error: &Error) -> Result<Option<String>, AllocError>
    ensures { IfOk result (λ text. (is_some text ≡ spec.shows_help (kind_of error.now)) × (kind_of error.now ≢ ErrorKind.OutOfMemory)) }
{
    match error.kind() {
        ErrorKind::OutOfMemory => Err(AllocError),
        ErrorKind::DisplayHelp | ErrorKind::DisplayVersion => {
            let text = format!(in alloc; "{error}")?;
            Ok(Some(text))
        }
        _ => Ok(None),
    }
}

// What clap makes of the words, where these are the words that `list` takes.
fn parsed<'a>(
    alloc: Global,
    names: &'a [&'a str],
    words: &'a [String],
) -> Result<ArgMatches<'a>, Error>
    requires { IsListed names }
    ensures rows { IfOk result (λ m. rows_of (found_of m) ≡ matches_of dagsched (map string_bytes words.entry.now)) }
    ensures subcommand { IfOk result (λ m. subcommand_rows_of m ≡ subcommand_of dagsched (map string_bytes words.entry.now)) }
    ensures kinds { FailsBy (fault_of dagsched (map string_bytes words.entry.now)) result }
{
    let command = word_app::command(alloc, names)?;
    command.try_get_matches_from(words)
}

// The fault of words that clap refuses.
fn usage_of(kind: ErrorKind) -> UsageFault
    ensures { result ≡ spec.usage_of kind }
{
    match kind {
        ErrorKind::OutOfMemory => UsageFault::Memory,
        _ => UsageFault::Words,
    }
}

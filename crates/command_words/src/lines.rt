//! What clap's matches say: the options before the command, and the command.
ghost use Rattle.std.specs.Prelude.{◌≡◌, ◌≢◌, Ok, Err, IfOk, IfErr, option_map, codes};
ghost use Rattle.clap.specs.Words.{first_of, found_of, rows_of, subcommand_rows_of};
ghost use Rattle.command_words.specs.Lines as spec;

use crate::commands::{Command, CommandLine, UsageFault};
use crate::kinds::CommandKind;
use crate::readings::command_in;
use crate::values::{some_path, value_at};
use clap::ArgMatches;
use std::alloc::Global;

// The command that was entered, with its matches.
fn subcommand_in<'m, 'a>(matches: &'m ArgMatches<'a>) -> Option<(&'a str, &'m ArgMatches<'a>)>
    ensures { option_map (λ p. (p.0.now, rows_of (found_of p.1.now))) result ≡ subcommand_rows_of matches.now }
{
    matches.subcommand()
}

fn command_at(alloc: Global, matches: &ArgMatches<'_>) -> Result<Command, UsageFault>
    ensures ok { IfOk result (λ c. spec.command_at (subcommand_rows_of matches.now) ≡ Ok c) }
    ensures refused { IfErr result (λ e. e ≢ UsageFault.Memory → spec.command_at (subcommand_rows_of matches.now) ≡ Err e) }
{
    match subcommand_in(matches) {
        Some((name, inner)) => match CommandKind::named(name) {
            Some(kind) => command_in(alloc, kind, inner),
            None => Err(UsageFault::Words),
        },
        None => Err(UsageFault::Words),
    }
}

/// What the matches say.
pub(crate) fn line_in(alloc: Global, matches: &ArgMatches<'_>) -> Result<CommandLine, UsageFault>
    ensures ok { IfOk result (λ line. spec.line_at (rows_of (found_of matches.now)) (subcommand_rows_of matches.now) ≡ Ok line) }
    ensures refused { IfErr result (λ e. e ≢ UsageFault.Memory
        → spec.line_at (rows_of (found_of matches.now)) (subcommand_rows_of matches.now) ≡ Err e) }
{
    let command = command_at(alloc, matches)?;
    let record_path = some_path(alloc, value_at(matches, "record"))?;
    Ok(CommandLine {
        record_path,
        command,
    })
}

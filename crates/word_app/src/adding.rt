//! What is added to a command, if both could be built. Only here commands and arguments are dropped where memory runs out.
ghost use Rattle.std.specs.Prelude.{◌≡◌, false, IfOk, IsOkAnd};
ghost use Rattle.clap.specs.Words.{app_of, rule_of, with_rule, with_subcommand};
ghost use Rattle.clap.specs.declared.builder.command.Command.TheViews.{out-Command as fields_of};

use clap::{Arg, Command};
use std::alloc::AllocError;

/// With an argument.
pub(crate) fn with_argument<'a>(
    built: Result<Command<'a>, AllocError>,
    arg: Arg<'a>,
) -> Result<Command<'a>, AllocError>
    requires globals { IfOk built (λ c. (fields_of c).has_globals ≡ false) }
    requires here { arg.global ≡ false }
    ensures app { IfOk result (λ r. IsOkAnd built.entry (λ c. app_of r ≡ with_rule (app_of c) (rule_of arg.entry))) }
    ensures globals { IfOk result (λ c. (fields_of c).has_globals ≡ false) }
{
    let command = built?;
    let command = command.arg(arg)?;
    Ok(command)
}

/// With a command under it.
pub(crate) fn with_command<'a>(
    built: Result<Command<'a>, AllocError>,
    added: Result<Command<'a>, AllocError>,
) -> Result<Command<'a>, AllocError>
    requires globals { IfOk built (λ c. (fields_of c).has_globals ≡ false) }
    requires local { IfOk added (λ c. (fields_of c).has_globals ≡ false) }
    ensures app { IfOk result (λ r. IsOkAnd built.entry (λ c. IsOkAnd added.entry (λ a. app_of r ≡ with_subcommand (app_of c) (app_of a).top))) }
    ensures globals { IfOk result (λ c. (fields_of c).has_globals ≡ false) }
{
    let command = built?;
    let added = added?;
    let command = command.subcommand(added)?;
    Ok(command)
}

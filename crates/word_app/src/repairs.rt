//! The commands that repair past days.
ghost use Rattle.std.specs.Prelude.{◌≡◌, false, IfOk};
ghost use Rattle.clap.specs.Words.{app_of};
ghost use Rattle.clap.specs.declared.builder.command.Command.TheViews.{out-Command as fields_of};
ghost use Rattle.word_app.specs.App as spec;

use crate::adding::with_argument;
use crate::commands::{of_dag, of_instance};
use crate::rules::{flag, option, word};
use clap::Command;
use std::alloc::{AllocError, Global};

/// `NAME DAG FROM TO`.
fn spanned<'a>(alloc: Global, name: &'a str, about: &'a str) -> Result<Command<'a>, AllocError>
    ensures app { IfOk result (λ c. app_of c ≡ spec.spanned name.entry.now) }
    ensures globals { IfOk result (λ c. (fields_of c).has_globals ≡ false) }
{
    let command = of_dag(alloc, name, about);
    let from = word(alloc, "from", "FROM", "The first moment of the span");
    let command = with_argument(command, from);
    let to = word(
        alloc,
        "to",
        "TO",
        "The last moment of the span, which is part of it",
    );
    with_argument(command, to)
}

/// `backfill DAG FROM TO [--reset]`.
pub(crate) fn backfill_command<'a>(alloc: Global) -> Result<Command<'a>, AllocError>
    ensures app { IfOk result (λ c. app_of c ≡ spec.backfill) }
    ensures globals { IfOk result (λ c. (fields_of c).has_globals ≡ false) }
{
    let command = spanned(
        alloc,
        "backfill",
        "Makes the runs of past intervals that a graph lacks",
    );
    let reset = flag(
        alloc,
        "reset",
        "Also sets back all task instances of the runs that are there",
    );
    with_argument(command, reset)
}

// The command that clears, but for its last two flags.
fn clear_span<'a>(alloc: Global) -> Result<Command<'a>, AllocError>
    ensures app { IfOk result (λ c. app_of c ≡ spec.clear_span) }
    ensures globals { IfOk result (λ c. (fields_of c).has_globals ≡ false) }
{
    let command = spanned(
        alloc,
        "clear",
        "Sets task instances back, with a fresh allowance of tries",
    );
    let task = option(
        alloc,
        "task",
        "TASK",
        "Only this task; without it all tasks",
    );
    let command = with_argument(command, task);
    let upstream = flag(
        alloc,
        "upstream",
        "With --task, also all that it depends on",
    );
    with_argument(command, upstream)
}

/// `clear DAG FROM TO [--task TASK] [--upstream] [--downstream] [--only-failed]`.
pub(crate) fn clear_command<'a>(alloc: Global) -> Result<Command<'a>, AllocError>
    ensures app { IfOk result (λ c. app_of c ≡ spec.clear) }
    ensures globals { IfOk result (λ c. (fields_of c).has_globals ≡ false) }
{
    let command = clear_span(alloc);
    let downstream = flag(
        alloc,
        "downstream",
        "With --task, also all that depends on it",
    );
    let command = with_argument(command, downstream);
    let only_failed = flag(
        alloc,
        "only-failed",
        "Of these the failed and upstream_failed alone",
    );
    with_argument(command, only_failed)
}

/// `mark DAG LOGICAL TASK STATE`.
pub(crate) fn mark_command<'a>(alloc: Global) -> Result<Command<'a>, AllocError>
    ensures app { IfOk result (λ c. app_of c ≡ spec.mark) }
    ensures globals { IfOk result (λ c. (fields_of c).has_globals ≡ false) }
{
    let command = of_instance(
        alloc,
        "mark",
        "Passes a task of one run over, and sets back what failed after it",
    );
    let state = word(alloc, "state", "STATE", "`skipped`");
    with_argument(command, state)
}

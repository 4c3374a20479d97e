//! What the matches of each command say.
ghost use Rattle.std.specs.Prelude.{◌≡◌, ◌≢◌, Ok, Err, IfOk, IfErr};
ghost use Rattle.clap.specs.Words.{found_of, rows_of};
ghost use Rattle.command_words.specs.Commands as spec;

use crate::commands::{
    Command, GraphSource, Listing, Question, ScriptOptions, TickTime, UsageFault,
};
use crate::kinds::CommandKind;
use crate::takings::Taking;
use crate::values::{
    flag_at, moment_at, moment_of, name_at, number_at, path_of, skipped_at, some_name, some_path,
    text_at, value_at,
};
use clap::ArgMatches;
use graph_file::Bounded;
use pool_book::Slots;
use sched_events::Event;
use sched_state::Clearing;
use std::alloc::Global;

fn listing_of(text: &str) -> Listing
    ensures { result ≡ spec.listing_of text.now }
{
    match text {
        "dags" => Listing::Dags,
        "runs" => Listing::Runs,
        "tasks" => Listing::Tasks,
        _ => Listing::Pools,
    }
}

fn source_of(alloc: Global, text: &str) -> Result<GraphSource, UsageFault>
    ensures ok { IfOk result (λ source. spec.source_of text.now ≡ source) }
    ensures refused { IfErr result (λ e. e ≡ UsageFault.Memory) }
{
    if text == "inline" {
        return Ok(GraphSource::Inline);
    }
    let path = path_of(alloc, text)?;
    Ok(GraphSource::File(path))
}

fn take_in(alloc: Global, matches: &ArgMatches<'_>, taking: Taking) -> Result<Command, UsageFault>
    ensures ok { IfOk result (λ c. spec.take_in taking (rows_of (found_of matches.now)) ≡ c) }
    ensures refused { IfErr result (λ e. e ≡ UsageFault.Memory) }
{
    let source = source_of(alloc, text_at(matches, "path"))?;
    Ok(Command::Take(taking, source))
}

fn time_of(text: &str) -> Result<TickTime, UsageFault>
    ensures { result ≡ spec.time_of text.now }
{
    if text == "now" {
        return Ok(TickTime::Now);
    }
    match moment_of(text) {
        Ok(moment) => Ok(TickTime::At(moment)),
        Err(fault) => Err(fault),
    }
}

fn run_in(alloc: Global, matches: &ArgMatches<'_>) -> Result<Command, UsageFault>
    ensures ok { IfOk result (λ c. spec.run_in (rows_of (found_of matches.now)) ≡ c) }
    ensures refused { IfErr result (λ e. e ≡ UsageFault.Memory) }
{
    let workers = Bounded::<1, 16>::new(number_at(matches, "workers", 1, 16));
    let lanes = Bounded::<0, 64>::new(number_at(matches, "lanes", 0, 64));
    let scratch = path_of(alloc, text_at(matches, "scratch"))?;
    let logs = some_path(alloc, value_at(matches, "logs"))?;
    Ok(Command::Run(ScriptOptions {
        workers,
        lanes,
        scratch,
        logs,
    }))
}

fn question_in(alloc: Global, matches: &ArgMatches<'_>) -> Result<Question, UsageFault>
    ensures ok { IfOk result (λ q. spec.question_in (rows_of (found_of matches.now)) ≡ Ok q) }
    ensures refused { IfErr result (λ e. e ≢ UsageFault.Memory → spec.question_in (rows_of (found_of matches.now)) ≡ Err e) }
{
    let graph = name_at(alloc, matches, "dag")?;
    let logical = moment_at(matches, "logical")?;
    let task = name_at(alloc, matches, "task")?;
    Ok(Question {
        graph,
        logical,
        task,
    })
}

fn explain_in(alloc: Global, matches: &ArgMatches<'_>) -> Result<Command, UsageFault>
    ensures ok { IfOk result (λ c. spec.explain_in (rows_of (found_of matches.now)) ≡ Ok c) }
    ensures refused { IfErr result (λ e. e ≢ UsageFault.Memory → spec.explain_in (rows_of (found_of matches.now)) ≡ Err e) }
{
    let question = question_in(alloc, matches)?;
    Ok(Command::Explain(question))
}

fn backfill_in(alloc: Global, matches: &ArgMatches<'_>) -> Result<Command, UsageFault>
    ensures ok { IfOk result (λ c. spec.backfill_in (rows_of (found_of matches.now)) ≡ Ok c) }
    ensures refused { IfErr result (λ e. e ≢ UsageFault.Memory → spec.backfill_in (rows_of (found_of matches.now)) ≡ Err e) }
{
    let graph = name_at(alloc, matches, "dag")?;
    let from = moment_at(matches, "from")?;
    let to = moment_at(matches, "to")?;
    let reset = flag_at(matches, "reset");
    Ok(Command::Step(Event::Backfill {
        graph,
        from,
        to,
        reset,
    }))
}

fn clear_in(alloc: Global, matches: &ArgMatches<'_>) -> Result<Command, UsageFault>
    ensures ok { IfOk result (λ c. spec.clear_in (rows_of (found_of matches.now)) ≡ Ok c) }
    ensures refused { IfErr result (λ e. e ≢ UsageFault.Memory → spec.clear_in (rows_of (found_of matches.now)) ≡ Err e) }
{
    let graph = name_at(alloc, matches, "dag")?;
    let from = moment_at(matches, "from")?;
    let to = moment_at(matches, "to")?;
    let task = some_name(alloc, value_at(matches, "task"))?;
    let upstream = flag_at(matches, "upstream");
    let downstream = flag_at(matches, "downstream");
    let only_failed = flag_at(matches, "only-failed");
    Ok(Command::Step(Event::Clear(Clearing {
        graph,
        from,
        to,
        task,
        upstream,
        downstream,
        only_failed,
    })))
}

fn mark_in(alloc: Global, matches: &ArgMatches<'_>) -> Result<Command, UsageFault>
    ensures ok { IfOk result (λ c. spec.mark_in (rows_of (found_of matches.now)) ≡ Ok c) }
    ensures refused { IfErr result (λ e. e ≢ UsageFault.Memory → spec.mark_in (rows_of (found_of matches.now)) ≡ Err e) }
{
    let marked = question_in(alloc, matches)?;
    skipped_at(matches, "state")?;
    Ok(Command::Step(Event::Mark {
        graph: marked.graph,
        logical: marked.logical,
        task: marked.task,
    }))
}

fn resize_in(alloc: Global, matches: &ArgMatches<'_>) -> Result<Command, UsageFault>
    ensures ok { IfOk result (λ c. spec.resize_in (rows_of (found_of matches.now)) ≡ Ok c) }
    ensures refused { IfErr result (λ e. e ≢ UsageFault.Memory → spec.resize_in (rows_of (found_of matches.now)) ≡ Err e) }
{
    let pool = name_at(alloc, matches, "pool")?;
    let size = Slots::of(number_at(matches, "size", 0, 1_000_000));
    Ok(Command::Step(Event::Resize(pool, size)))
}

/// What the matches of a command say.
pub(crate) fn command_in(
    alloc: Global,
    kind: CommandKind,
    matches: &ArgMatches<'_>,
) -> Result<Command, UsageFault>
    ensures ok { IfOk result (λ c. spec.command_in kind (rows_of (found_of matches.now)) ≡ Ok c) }
    ensures refused { IfErr result (λ e. e ≢ UsageFault.Memory → spec.command_in kind (rows_of (found_of matches.now)) ≡ Err e) }
{
    match kind {
        CommandKind::Run => run_in(alloc, matches),
        CommandKind::List => Ok(Command::List(listing_of(text_at(matches, "rows")))),
        CommandKind::Explain => explain_in(alloc, matches),
        CommandKind::Trigger => Ok(Command::Step(Event::Trigger(name_at(alloc, matches, "dag")?))),
        CommandKind::Pause => Ok(Command::Step(Event::Pause(name_at(alloc, matches, "dag")?))),
        CommandKind::Unpause => Ok(Command::Step(Event::Unpause(name_at(alloc, matches, "dag")?))),
        CommandKind::Backfill => backfill_in(alloc, matches),
        CommandKind::Clear => clear_in(alloc, matches),
        CommandKind::Mark => mark_in(alloc, matches),
        CommandKind::Resize => resize_in(alloc, matches),
        CommandKind::Load => take_in(alloc, matches, Taking::Load),
        CommandKind::Replace => take_in(alloc, matches, Taking::Replace),
        CommandKind::Tick => Ok(Command::Tick(time_of(text_at(matches, "moment"))?)),
        CommandKind::Drain => Ok(Command::Drain),
    }
}

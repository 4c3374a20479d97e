//! What words ask for, in one plain line.
use crate::events::write_event;
use command_words::{
    Command, CommandLine, GraphSource, Listing, Question, ScriptOptions, Taking, TickTime,
};
use std::io;

/// Writes a command, and the path of its record before it.
pub(crate) fn write_command_line(rt: &HostRuntime, line: &CommandLine) -> io::Result<()> {
    if let Some(path) = &line.record_path {
        let path = path.as_str();
        print!(rt; "record '{path}' ")?;
    }
    write_command(rt, &line.command)
}

fn write_command(rt: &HostRuntime, command: &Command) -> io::Result<()> {
    match command {
        Command::Run(options) => write_options(rt, options),
        Command::List(listing) => write_listing(rt, *listing),
        Command::Explain(question) => write_question(rt, question),
        Command::Step(event) => write_event(rt, event),
        Command::Take(taking, source) => write_source(rt, *taking, source),
        Command::Tick(time) => write_time(rt, time),
        Command::Drain => rt.print("drain"),
    }
}

fn write_options(rt: &HostRuntime, options: &ScriptOptions) -> io::Result<()> {
    let workers = options.workers.get();
    let lanes = options.lanes.get();
    let scratch = options.scratch.as_str();
    print!(rt; "run workers {workers} lanes {lanes} scratch '{scratch}'")?;
    match &options.logs {
        Some(logs) => print!(rt; " logs '{}'", logs.as_str()),
        None => Ok(()),
    }
}

fn write_listing(rt: &HostRuntime, listing: Listing) -> io::Result<()> {
    match listing {
        Listing::Dags => rt.print("list dags"),
        Listing::Runs => rt.print("list runs"),
        Listing::Tasks => rt.print("list tasks"),
        Listing::Pools => rt.print("list pools"),
    }
}

fn write_question(rt: &HostRuntime, question: &Question) -> io::Result<()> {
    let graph = question.graph.as_str();
    let logical = question.logical;
    let task = question.task.as_str();
    print!(rt; "explain {graph} {logical} {task}")
}

fn write_source(rt: &HostRuntime, taking: Taking, source: &GraphSource) -> io::Result<()> {
    let name = match taking {
        Taking::Load => "load",
        Taking::Replace => "replace",
    };
    match source {
        GraphSource::File(path) => {
            let path = path.as_str();
            print!(rt; "{name} file '{path}'")
        }
        GraphSource::Inline => print!(rt; "{name} inline"),
    }
}

fn write_time(rt: &HostRuntime, time: &TickTime) -> io::Result<()> {
    match time {
        TickTime::At(moment) => print!(rt; "tick at {moment}"),
        TickTime::Now => rt.print("tick now"),
    }
}

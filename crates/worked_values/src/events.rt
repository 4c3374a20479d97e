//! The events that words ask for.
use graph_file::Name;
use moment_core::Moment;
use sched_events::Event;
use sched_state::Clearing;
use std::io;

/// Writes an event.
pub(crate) fn write_event(rt: &HostRuntime, event: &Event) -> io::Result<()> {
    match event {
        Event::Trigger(graph) => write_named(rt, "trigger", graph),
        Event::Pause(graph) => write_named(rt, "pause", graph),
        Event::Unpause(graph) => write_named(rt, "unpause", graph),
        Event::Backfill {
            graph,
            from,
            to,
            reset,
        } => {
            write_span(rt, "backfill", graph, *from, *to)?;
            write_flag(rt, " reset", *reset)
        }
        Event::Clear(clearing) => write_clearing(rt, clearing),
        Event::Mark {
            graph,
            logical,
            task,
        } => {
            let (graph, task) = (graph.as_str(), task.as_str());
            print!(rt; "mark {graph} {logical} {task} skipped")
        }
        Event::Resize(pool, size) => {
            let pool = pool.as_str();
            let size = size.get();
            print!(rt; "resize {pool} {size}")
        }
        _ => rt.print("an event of no words"),
    }
}

fn write_named(rt: &HostRuntime, command: &str, graph: &Name) -> io::Result<()> {
    let graph = graph.as_str();
    print!(rt; "{command} {graph}")
}

fn write_span(
    rt: &HostRuntime,
    command: &str,
    graph: &Name,
    from: Moment,
    to: Moment,
) -> io::Result<()> {
    let graph = graph.as_str();
    print!(rt; "{command} {graph} {from} {to}")
}

fn write_clearing(rt: &HostRuntime, clearing: &Clearing) -> io::Result<()> {
    write_span(rt, "clear", &clearing.graph, clearing.from, clearing.to)?;
    if let Some(task) = &clearing.task {
        let task = task.as_str();
        print!(rt; " task {task}")?;
    }
    write_flag(rt, " upstream", clearing.upstream)?;
    write_flag(rt, " downstream", clearing.downstream)?;
    write_flag(rt, " only-failed", clearing.only_failed)
}

fn write_flag(rt: &HostRuntime, name: &str, is_given: bool) -> io::Result<()> {
    if is_given {
        return rt.print(name);
    }
    Ok(())
}

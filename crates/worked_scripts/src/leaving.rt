//! What an event leaves: `= CLOCK, N of LANES in flight, next SERIAL`, and for each run, by graph id and date, its phase and each task with
//! the state of its instance, in the order of the graph's places.
use graph_file::TaskSpec;
use sched_core::{Run, RunPhase, Schedule};
use std::io::{self, Write};

/// Writes what the schedule holds, in one line.
pub(crate) fn put_left<W: Write>(schedule: &Schedule, output: &mut W) -> io::Result<()> {
    put_clock(schedule, output)?;
    for run in schedule.runs() {
        put_run(schedule, run, output)?;
    }
    output.write_all(b"\n")
}

fn put_clock<W: Write>(schedule: &Schedule, output: &mut W) -> io::Result<()> {
    let now = schedule.now();
    let count = schedule.in_flight();
    let lanes = schedule.lanes();
    let next = schedule.next_serial();
    write!(output, "= {now}, {count} of {lanes} in flight, next {next}")
}

fn put_run<W: Write>(schedule: &Schedule, run: &Run, output: &mut W) -> io::Result<()> {
    let phase = phase_name(run.phase);
    write!(output, " | {phase}")?;
    let Some(graph) = schedule.graph_of(&run.graph) else {
        return Ok(());
    };
    for place in 0..graph.dag.len() {
        put_instance(schedule, run, graph.dag.task(place), output)?;
    }
    Ok(())
}

/// The name of a phase.
pub(crate) fn phase_name(phase: RunPhase) -> &'static str {
    match phase {
        RunPhase::Queued => "queued",
        RunPhase::Running => "running",
        RunPhase::Success => "success",
        RunPhase::Failed => "failed",
    }
}

fn put_instance<W: Write>(
    schedule: &Schedule,
    run: &Run,
    task: &TaskSpec,
    output: &mut W,
) -> io::Result<()> {
    let id = task.task_id.as_str();
    let instance = schedule.instance_of(&run.graph, run.logical, &task.task_id);
    let state = instance.map_or("missing", |found| found.state(task).name());
    write!(output, " {id}={state}")
}

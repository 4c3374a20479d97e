//! The lines of reasons why a task instance is where it is, and of questions that have no answer.
ghost use Rattle.std.specs.Prelude.{OnOk};
ghost use Rattle.std.specs.List.{flat_map};
ghost use Rattle.std.specs.Io.KnownBytes.{Appends};
ghost use Rattle.answer_lines.specs.Reasons as spec;
ghost use Rattle.answer_lines.specs.Reasons.{reason_line, reasons_text};

use crate::answers::put_ok;
use crate::runs::phase_name;
use explain::{ExplainFault, Reason};
use graph_file::Name;
use moment_core::{END, Moment};
use sched_state::RunPhase;
use std::io::{self, Write};
use trigger_rules::State;

/// Writes a line for each reason, and `ok`.
pub fn put_reasons<W: Write>(output: &mut W, reasons: &[Reason]) -> io::Result<()>
    ensures { OnOk result (Appends (W.contents output.old) (W.contents output.new)
        (reasons_text reasons.now)) }
{
    put_reason_lines(output, reasons)?;
    put_ok(output)
}

// Writes a line for each reason.
fn put_reason_lines<W: Write>(output: &mut W, reasons: &[Reason]) -> io::Result<()>
    ensures { OnOk result (Appends (W.contents output.old) (W.contents output.new)
        (flat_map reason_line reasons.now)) }
{
    for reason in reasons {
        put_reason(output, reason)?;
    }
    Ok(())
}

// Writes the line of a reason.
pub(crate) fn put_reason<W: Write>(output: &mut W, reason: &Reason) -> io::Result<()>
    ensures { OnOk result (Appends (W.contents output.old) (W.contents output.new)
        (reason_line reason.now)) }
{
    match reason {
        Reason::Finished(state) => put_finished(output, *state),
        Reason::HandedOut(serial) => writeln!(output, "handed-out {serial}"),
        Reason::RunQueued { active, limit } => put_run_queued(output, *active, *limit),
        Reason::Paused => output.write_all(b"paused\n"),
        Reason::RunFinished(phase) => put_run_finished(output, *phase),
        Reason::Upstream { task, state } => put_upstream(output, task, *state),
        Reason::Past { logical, state } => put_past(output, *logical, *state),
        Reason::RetryAt(seconds) => put_retry(output, *seconds),
        Reason::Pool { pool, needs, free } => put_pool_reason(output, pool, *needs, *free),
        Reason::GraphFull { active, limit } => put_graph_full(output, *active, *limit),
        Reason::Lanes(count) => writeln!(output, "lanes {count}"),
    }
}

fn put_finished<W: Write>(output: &mut W, state: State) -> io::Result<()>
    ensures { OnOk result (Appends (W.contents output.old) (W.contents output.new)
        (spec.finished_line state)) }
{
    let name = state.name();
    writeln!(output, "finished {name}")
}

fn put_run_queued<W: Write>(output: &mut W, active: usize, limit: u32) -> io::Result<()>
    ensures { OnOk result (Appends (W.contents output.old) (W.contents output.new)
        (spec.run_queued_line active limit)) }
{
    writeln!(output, "run-queued {active} limit {limit}")
}

fn put_run_finished<W: Write>(output: &mut W, phase: RunPhase) -> io::Result<()>
    ensures { OnOk result (Appends (W.contents output.old) (W.contents output.new)
        (spec.run_finished_line phase)) }
{
    let name = phase_name(phase);
    writeln!(output, "run-finished {name}")
}

fn put_upstream<W: Write>(output: &mut W, task: &Name, state: State) -> io::Result<()>
    ensures { OnOk result (Appends (W.contents output.old) (W.contents output.new)
        (spec.upstream_line task.now state)) }
{
    let task = task.as_str();
    let name = state.name();
    writeln!(output, "upstream {task} {name}")
}

fn put_past<W: Write>(output: &mut W, logical: Moment, state: State) -> io::Result<()>
    ensures { OnOk result (Appends (W.contents output.old) (W.contents output.new)
        (spec.past_line logical state)) }
{
    let name = state.name();
    writeln!(output, "past {logical} {name}")
}

fn put_pool_reason<W: Write>(output: &mut W, pool: &Name, needs: u32, free: i64) -> io::Result<()>
    ensures { OnOk result (Appends (W.contents output.old) (W.contents output.new)
        (spec.pool_reason_line pool.now needs free)) }
{
    let pool = pool.as_str();
    writeln!(output, "pool {pool} needs {needs} open {free}")
}

fn put_graph_full<W: Write>(output: &mut W, active: u64, limit: u32) -> io::Result<()>
    ensures { OnOk result (Appends (W.contents output.old) (W.contents output.new)
        (spec.graph_full_line active limit)) }
{
    writeln!(output, "graph-full {active} limit {limit}")
}

// Writes the moment of a retry: never, where it lies past the end of moments.
fn put_retry<W: Write>(output: &mut W, seconds: u64) -> io::Result<()>
    ensures { OnOk result (Appends (W.contents output.old) (W.contents output.new)
        (spec.retry_line seconds)) }
{
    if seconds < END {
        let moment = Moment::at(seconds);
        writeln!(output, "retry-at {moment}")
    } else {
        output.write_all(b"retry-at never\n")
    }
}

// Writes `explain N Name`, and `memory` for want of memory.
pub(crate) fn put_explain_fault<W: Write>(output: &mut W, fault: ExplainFault) -> io::Result<()>
    ensures { OnOk result (Appends (W.contents output.old) (W.contents output.new)
        (spec.explain_fault_text fault)) }
{
    match fault {
        ExplainFault::UnknownGraph => output.write_all(b"explain 1 UnknownGraph\n"),
        ExplainFault::UnknownRun => output.write_all(b"explain 2 UnknownRun\n"),
        ExplainFault::UnknownTask => output.write_all(b"explain 3 UnknownTask\n"),
        ExplainFault::Memory => output.write_all(b"memory\n"),
    }
}

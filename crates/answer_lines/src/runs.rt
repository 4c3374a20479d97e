//! The rows of runs.
ghost use Rattle.std.specs.Prelude.{◌≡◌, OnOk};
ghost use Rattle.std.specs.Io.KnownBytes.{Appends};
ghost use Rattle.answer_lines.specs.Runs as spec;
ghost use Rattle.answer_lines.specs.Runs.{run_line};

use sched_state::{Run, RunPhase};
use std::io::{self, Write};

// Writes `DAG RUNID START END PHASE`.
pub(crate) fn put_run<W: Write>(output: &mut W, run: &Run) -> io::Result<()>
    ensures { OnOk result (Appends (W.contents output.old) (W.contents output.new)
        (run_line run.now)) }
{
    let graph = run.graph.as_str();
    let kind = run.kind.name();
    let logical = run.logical;
    let start = run.interval.start;
    let end = run.interval.end;
    let phase = phase_name(run.phase);
    writeln!(output, "{graph} {kind}__{logical} {start} {end} {phase}")
}

// The name of a phase (Airflow 2, "DAG Runs").
pub(crate) fn phase_name(phase: RunPhase) -> &'static str
    ensures { result.now ≡ spec.phase_text phase }
{
    match phase {
        RunPhase::Queued => "queued",
        RunPhase::Running => "running",
        RunPhase::Success => "success",
        RunPhase::Failed => "failed",
    }
}

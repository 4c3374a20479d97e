//! The rows of `list dags`.
ghost use Rattle.std.specs.Prelude.{◌≡◌, OnOk};
ghost use Rattle.std.specs.Io.KnownBytes.{Appends};
ghost use Rattle.answer_lines.specs.Dags.{dag_line, pause_text};

use sched_state::LoadedGraph;
use sessions::Schedule;
use std::io::{self, Write};

// Writes `DAG PAUSED RUNNING MOST`.
pub(crate) fn put_dag<W: Write>(
    output: &mut W,
    schedule: &Schedule,
    graph: &LoadedGraph,
) -> io::Result<()>
    ensures { OnOk result (Appends (W.contents output.old) (W.contents output.new)
        (dag_line schedule.now.content graph.now)) }
{
    let spec = graph.dag.spec();
    let id = spec.dag_id.as_str();
    let paused = pause_word(graph.paused);
    let running = schedule.active_runs(&spec.dag_id);
    let most = spec.max_active_runs.get();
    writeln!(output, "{id} {paused} {running} {most}")
}

// Whether a graph is paused, as a word (Airflow 2, `airflow dags pause`).
fn pause_word(paused: bool) -> &'static str
    ensures { result.now ≡ pause_text paused }
{
    if paused { "paused" } else { "unpaused" }
}

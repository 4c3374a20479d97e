//! The rows of `list tasks`.
ghost use Rattle.std.specs.Prelude.{OnOk};
ghost use Rattle.std.specs.Io.KnownBytes.{Appends};
ghost use Rattle.answer_lines.specs.Tasks.{task_line};

use sched_events::InstanceRow;
use std::io::{self, Write};

// Writes `DAG RUNID TASK STATE TRIES`.
pub(crate) fn put_task<W: Write>(output: &mut W, row: &InstanceRow<'_>) -> io::Result<()>
    ensures { OnOk result (Appends (W.contents output.old) (W.contents output.new)
        (task_line row.now)) }
{
    let graph = row.graph.as_str();
    let kind = row.kind.name();
    let logical = row.logical;
    let task = row.task.as_str();
    let state = row.state.name();
    let tries = row.tries;
    writeln!(output, "{graph} {kind}__{logical} {task} {state} {tries}")
}

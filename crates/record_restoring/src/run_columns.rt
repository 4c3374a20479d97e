//! What the columns of a row of `run` say: one reading, for its rule and for the run.
ghost use Rattle.std.specs.Prelude.{◌≡◌};
ghost use Rattle.graph_file.specs.Lists.{when};
ghost use Rattle.record_restoring.specs.Columns.{are_columns_right, columns_in};

use cron_timetable::Interval;
use moment_core::Moment;
use record_rows::RunRow;
use record_rules::{kind_of, moment_of, phase_of};
use sched_state::{RunKind, RunPhase};

// What the columns say but the one that names the graph.
#[derive(Drop)]
pub(crate) struct RunColumns {
    pub logical: Moment,
    pub interval: Interval,
    pub kind: RunKind,
    pub phase: RunPhase,
}

// What the columns say, where each is in its range and the interval does not end before it starts.
pub(crate) fn columns_of(row: &RunRow) -> Option<RunColumns>
    ensures { result ≡ when (are_columns_right row.now) (columns_in row.now) }
{
    let logical = moment_of(row.logical)?;
    let start = moment_of(row.data_start)?;
    let end = moment_of(row.data_end)?;
    if row.data_end < row.data_start {
        return None;
    }
    let kind = kind_of(row.kind)?;
    let phase = phase_of(row.phase)?;
    Some(RunColumns {
        logical,
        interval: Interval { start, end },
        kind,
        phase,
    })
}

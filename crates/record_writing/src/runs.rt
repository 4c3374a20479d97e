//! The rows of runs that a record lacks.
ghost use Rattle.std.specs.Prelude.{◌≡◌, true, map, Some, slice_get, IfOk};
ghost use Rattle.std.specs.List.{list_any};
ghost use Rattle.record_rules.specs.Between.{lacked};
ghost use Rattle.record_rules.specs.Changes.{same_run_row};
ghost use Rattle.sched_draft.specs.run_lists.Overlays.{AreAllTouched};
ghost use Rattle.sched_model.specs.Lists.{rises};
ghost use Rattle.sched_model.specs.Schedule.{run_before};
ghost use Rattle.sched_model.specs.Tables.{run_row};

use crate::making::run_row;
use record_rows::RunRow;
use record_rules::{kind_code, phase_code, seconds};
use sched_draft::Draft;
use sched_state::Run;
use std::alloc::{AllocError, Global};

/// The rows of the draft's runs that the rows of the runs under it lack, in order. Only the touched runs are looked at.
pub(crate) fn runs_lacked(
    alloc: Global,
    draft: &Draft<'_>,
    touched: &[usize],
) -> Result<Vec<RunRow>, AllocError>
    requires before { rises run_before draft.now.base.runs ≡ true }
    requires order { rises run_before draft.now.content.runs ≡ true }
    requires touched { AreAllTouched touched.now draft.now.base.runs draft.now.content.runs }
    ensures { IfOk result (λ rows. rows.items ≡ lacked same_run_row (map run_row draft.now.base.runs)
        (map run_row draft.now.content.runs)) }
{
    let mut rows = Vec::new(alloc);
    for position in touched {
        let run = draft.run(*position);
        if !is_kept(draft, *position, run) {
            rows.push(run_row(alloc, run)?)?;
        }
    }
    Ok(rows)
}

// Whether the row of the run at a position is one of the runs under the draft.
fn is_kept(draft: &Draft<'_>, position: usize, run: &Run) -> bool
    requires before { rises run_before draft.now.base.runs ≡ true }
    requires order { rises run_before draft.now.content.runs ≡ true }
    requires run { slice_get draft.now.content.runs position ≡ Some run.now }
    ensures { result ≡ list_any (same_run_row (run_row run.now)) (map run_row draft.now.base.runs) }
{
    match draft.before(position) {
        Some(old) => is_same(run, old),
        None => false,
    }
}

// Whether the runs have the same row.
fn is_same(run: &Run, other: &Run) -> bool
    ensures { result ≡ same_run_row (run_row run.now) (run_row other.now) }
{
    run.graph == other.graph
        && seconds(run.logical) == seconds(other.logical)
        && seconds(run.interval.start) == seconds(other.interval.start)
        && seconds(run.interval.end) == seconds(other.interval.end)
        && kind_code(run.kind) == kind_code(other.kind)
        && phase_code(run.phase) == phase_code(other.phase)
}

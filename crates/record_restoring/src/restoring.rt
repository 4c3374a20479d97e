//! The parts of the schedule that rows of the record say.
ghost use Rattle.std.specs.Prelude.{◌≡◌, ◌≤◌, ℕ, List, None, true, IfOk, IfErr};
ghost use Rattle.pool_book.specs.Limits.{most_taken};
ghost use Rattle.sched_model.specs.States.{occupied};
ghost use Rattle.sched_draft.specs.Books.{Takes, pools_in};
ghost use Rattle.record_rules.specs.Keys.{IsByKey};
ghost use Rattle.record_rules.specs.Reading.{schedule_of, first_or, no_meta};
ghost use Rattle.record_rules.specs.Faults.{record_fault};
ghost use Rattle.record_restoring.specs.Keyed.{is_one_meta};
ghost use Rattle.record_restoring.specs.Parts.{IsRestored};
ghost use Rattle.record_restoring.specs.Results.{IsFault};

use crate::checking::{Checked, check_rows};
use crate::end_rules::end_fault;
use crate::faults::RestoreFault;
use crate::keyed::KeyedRows;
use crate::numbers::{lanes_of, serial_of};
use crate::occupying::occupy_by_runs;
use crate::parts::ScheduleParts;
use crate::pool_making::read_pools;
use crate::run_making::read_runs;
use pool_book::Pools;
use record_rows::{MetaRow, Rows, Table};
use record_rules::moment_of;
use sched_state::{Limits, LoadedGraph, Run};
use std::alloc::{AllocError, Global};

// The graphs and the runs of a schedule.
#[derive(Drop)]
struct GraphsAndRuns {
    // By id.
    graphs: Vec<LoadedGraph>,
    // By graph and logical date.
    runs: Vec<Run>,
}

/// The parts of the schedule that the rows are read as, where they break no rule, or the first fault.
pub fn restore_parts(
    alloc: Global,
    limits: Limits,
    rows: &KeyedRows,
) -> Result<ScheduleParts, RestoreFault>
    ensures restored { IfOk result (IsRestored limits rows.now) }
    ensures fault { IfErr result (IsFault (record_fault limits rows.now)) }
{
    parts_of(alloc, limits, rows.rows())
}

fn parts_of(alloc: Global, limits: Limits, rows: &Rows) -> Result<ScheduleParts, RestoreFault>
    requires { IsByKey rows.now }
    ensures restored { IfOk result (IsRestored limits rows.now) }
    ensures fault { IfErr result (IsFault (record_fault limits rows.now)) }
{
    let GraphsAndRuns { graphs, runs } = made_of(alloc, limits, rows)?;
    let pools = book_of(alloc, limits, rows, &graphs, &runs)?;
    let meta = first_meta(&rows.metas);
    let Some(clock) = moment_of(meta.now) else {
        unreachable!();
    };
    Ok(ScheduleParts {
        limits,
        graphs,
        pools,
        clock,
        lanes: lanes_of(limits.lanes(), meta.lanes),
        next: serial_of(meta.next_serial),
        runs,
    })
}

fn made_of(alloc: Global, limits: Limits, rows: &Rows) -> Result<GraphsAndRuns, RestoreFault>
    requires { IsByKey rows.now }
    ensures free { IfOk result (λ _. record_fault limits rows.now ≡ None) }
    ensures graphs { IfOk result (λ made. made.graphs.items
        ≡ (schedule_of limits rows.now).graphs) }
    ensures runs { IfOk result (λ made. made.runs.items ≡ (schedule_of limits rows.now).runs) }
    ensures fault { IfErr result (IsFault (record_fault limits rows.now)) }
{
    let Checked { graphs, buckets } = check_rows(alloc, limits, rows)?;
    let runs = read_runs(alloc, limits, rows, &buckets, &graphs, &rows.runs)?;
    match end_fault(&graphs, rows, &rows.runs, &runs) {
        Some(row) => Err(RestoreFault::Inconsistent(Table::Run, row)),
        None => Ok(GraphsAndRuns { graphs, runs }),
    }
}

// The pools of rows that break no rule, with what the tries without an end of their runs take.
fn book_of(
    alloc: Global,
    limits: Limits,
    rows: &Rows,
    graphs: &[LoadedGraph],
    runs: &[Run],
) -> Result<Pools, AllocError>
    requires keyed { IsByKey rows.now }
    requires free { record_fault limits rows.now ≡ None }
    requires graphs { graphs.now ≡ (schedule_of limits rows.now).graphs }
    requires runs { runs.now ≡ (schedule_of limits rows.now).runs }
    ensures pools { IfOk result (λ book. pools_in book.pools
        ≡ (schedule_of limits rows.now).pools) }
    ensures taken { IfOk result (λ book. Takes (occupied (schedule_of limits rows.now))
        book.pools) }
    ensures counted { IfOk result (λ _. (name : List ℕ) → occupied (schedule_of limits rows.now)
        name ≤ most_taken) }
{
    // No more pools than a book may have, and so few runs that they cannot take more slots than it counts.
    let _most_pools = limits.pools();
    let _most_runs = limits.runs();
    let mut book = read_pools(alloc, &rows.pools)?;
    occupy_by_runs(&mut book, graphs, runs);
    Ok(book)
}

fn first_meta(rows: &[MetaRow]) -> &MetaRow
    requires { is_one_meta rows.now ≡ true }
    ensures { result.now ≡ first_or no_meta rows.now }
{
    &rows[0]
}

//! The schedule that rows of the record say.
ghost use Rattle.std.specs.Prelude.{◌≡◌, None, IfOk, IfErr};
ghost use Rattle.sched_creation.specs.Dates.{HaveDates};
ghost use Rattle.sched_model.specs.Sound.{IsSound};
ghost use Rattle.sched_model.specs.Tables.{tables};
ghost use Rattle.record_restoring.specs.record_rules.Reading.{schedule_of};
ghost use Rattle.record_restoring.specs.record_rules.Faults.{record_fault};
ghost use Rattle.record_restoring.specs.Results.{IsFault};
ghost use Rattle.sched_ready.specs.Held.{AreShelvesOf};

use crate::counting::count_open;
use crate::schedules::Schedule;
use record_restoring::{KeyedRows, RestoreFault, ScheduleParts, restore_parts};
use run_lists::Runs;
use run_planner::RunIndex;
use sched_creation::dates_of_all;
use sched_draft::{Base, Draft};
use sched_handout::Occupied;
use sched_ready::{Shelf, shelves_of};
use sched_state::Limits;
use std::alloc::{AllocError, Global};

impl Schedule {
    /// The schedule that the rows are read as, where they break no rule of the record (docs/RECORD.md), or the first fault. Its tables are
    /// the rows. It need not be settled: the next event is planned from it as it is.
    pub fn restore(
        alloc: Global,
        limits: Limits,
        rows: &KeyedRows,
    ) -> Result<Schedule, RestoreFault>
        ensures free { IfOk result (λ _. record_fault limits rows.now ≡ None) }
        ensures content { IfOk result (λ schedule. schedule.content
            ≡ schedule_of limits rows.now) }
        ensures back { IfOk result (λ schedule. tables schedule.content ≡ rows.now) }
        ensures fault { IfErr result (IsFault (record_fault limits rows.now)) }
    {
        let ScheduleParts {
            limits,
            graphs,
            pools,
            clock,
            lanes,
            next,
            runs,
        } = restore_parts(alloc, limits, rows)?;
        let counted = count_open(alloc, &runs)?;
        let runs = Runs::of(alloc, runs)?;
        let base = Base {
            limits,
            graphs: graphs.as_slice(),
            pools: &pools,
            clock,
            lanes,
            next,
            runs: &runs,
        };
        let (dates, shelves) = kept_beside(alloc, base)?;
        Ok(Schedule {
            limits,
            graphs,
            shelves,
            dates,
            occupied: Occupied {
                in_flight: counted.in_all,
                pools,
                active: counted.by_graph,
            },
            clock,
            lanes,
            next,
            runs,
            is_settled: false,
        })
    }
}

// The logical dates of the runs of each graph, and the shelves of the graphs, with what is due in their runs.
fn kept_beside(alloc: Global, base: Base<'_>) -> Result<(Vec<RunIndex>, Vec<Shelf>), AllocError>
    requires { IsSound base }
    ensures dates { IfOk result (λ kept. HaveDates base.entry.graphs base.entry.runs kept.0.items) }
    ensures shelves { IfOk result (λ kept. AreShelvesOf base.entry.now base.entry.graphs base.entry.runs kept.1.items) }
{
    let draft = Draft::over(alloc, base, None, false);
    let dates = dates_of_all(alloc, &draft)?;
    let shelves = shelves_of(alloc, &draft)?;
    Ok((dates, shelves))
}

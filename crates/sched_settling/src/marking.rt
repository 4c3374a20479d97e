//! Which runs are to be looked at after a change.
ghost use Rattle.std.specs.Prelude.{◌≡◌, None, true, length, nat_lt, IfOk, OnOk};
ghost use Rattle.dag_check.specs.Orders.{is_in};
ghost use Rattle.sched_draft.specs.Drafts.{SameDags};
ghost use Rattle.sched_model.specs.Lists.{rises};
ghost use Rattle.sched_model.specs.Schedule.{Schedule};
ghost use Rattle.sched_model.specs.Settle.{move, settle};
ghost use Rattle.sched_laws.specs.Stages.{IsOrdered, CoversEnds};
ghost use Rattle.sched_settling.specs.Marks.{CoversRuns, IsCovered, IsKeyed, are_within};
ghost use Rattle.sched_settling.specs.Touched.{is_near};

use crate::counting::{lines_of, lines_of_touched};
use crate::deciding::mark_next;
use crate::settling::settle_from;
use sched_draft::Draft;
use std::alloc::{AllocError, Global};
use std::collections::VecDeque;

// The positions of so many runs.
fn every_run(alloc: Global, count: usize) -> Result<VecDeque<usize>, AllocError>
    ensures { IfOk result (λ marks. (a : Schedule) → count ≡ length a.runs
        → IsCovered marks.items a) }
{
    let mut marks = VecDeque::new(alloc);
    let mut position = count;
    while position > 0 {
        position -= 1;
        marks.push_front(position)?;
    }
    Ok(marks)
}

// The touched positions and those that follow them, of so many runs.
fn marks_from(alloc: Global, touched: &[usize], count: usize) -> Result<VecDeque<usize>, AllocError>
    requires rising { rises nat_lt touched.now ≡ true }
    requires within { are_within count touched.now ≡ true }
    ensures { IfOk result (λ marks. (a : Schedule) → count ≡ length a.runs
        → CoversRuns (is_near (is_in touched.now)) a → CoversEnds (is_in touched.now) a
        → IsCovered marks.items a) }
{
    let mut marks = VecDeque::new(alloc);
    let mut index = touched.len();
    while index > 0 {
        index -= 1;
        mark_next(&mut marks, count, touched[index])?;
        marks.push_front(touched[index])?;
    }
    Ok(marks)
}

/// Makes moves until none is possible: instances are decided, finished runs end and queued runs start (Airflow 2, "DAG Runs").
///
/// It looks at all runs. Without memory the draft is half settled.
pub fn settle(alloc: Global, draft: &mut Draft<'_>) -> Result<(), AllocError>
    requires { IsKeyed draft.old.content }
    ensures base { OnOk result (draft.new.base ≡ draft.old.base) }
    ensures settled { OnOk result (draft.new.content ≡ settle draft.old.content) }
{
    let marks = every_run(alloc, draft.run_count())?;
    let mut lines = lines_of(alloc, draft)?;
    settle_from(alloc, draft, marks, &mut lines)
}

/// The same, over a schedule in which no move is possible: it looks at the runs that were touched and at those that follow them.
pub fn settle_touched(alloc: Global, draft: &mut Draft<'_>) -> Result<(), AllocError>
    requires keyed { IsKeyed draft.old.content }
    requires still { move draft.old.base ≡ None }
    requires ordered { IsOrdered draft.old.base }
    requires dags { SameDags draft.old.base draft.old.content }
    ensures base { OnOk result (draft.new.base ≡ draft.old.base) }
    ensures settled { OnOk result (draft.new.content ≡ settle draft.old.content) }
{
    let touched = draft.touched(alloc)?;
    let marks = marks_from(alloc, touched.as_slice(), draft.run_count())?;
    let mut lines = lines_of_touched(alloc, draft, touched.as_slice())?;
    settle_from(alloc, draft, marks, &mut lines)
}

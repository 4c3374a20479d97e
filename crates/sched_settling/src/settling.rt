//! Settling by stages, from marked runs.
ghost use Rattle.std.specs.Prelude.{◌≡◌, OnOk, [], ◌∷◌};
ghost use Rattle.sched_model.specs.Settle.{settle};
ghost use Rattle.sched_laws.specs.Sweep.{sweep};
ghost use Rattle.sched_laws.specs.Stages.{finish_every};
ghost use Rattle.sched_settling.specs.Marks.{AreLines, IsCovered, IsKeyed};

use crate::deciding::decide_marked;
use crate::ending::end_marked;
use crate::lines::GraphRuns;
use crate::starting::start_first;
use sched_draft::Draft;
use std::alloc::{AllocError, Global};
use std::collections::VecDeque;

// All decisions, then all ends.
fn decide_and_end<'a>(
    alloc: Global,
    draft: &mut Draft<'a>,
    marks: VecDeque<usize>,
    lines: &mut Vec<GraphRuns<'a>>,
) -> Result<(), AllocError>
    requires keyed { IsKeyed draft.old.content }
    requires covered { IsCovered marks.items draft.old.content }
    requires lines { AreLines lines.old.items draft.old.content }
    ensures base { OnOk result (draft.new.base ≡ draft.old.base) }
    ensures ended { OnOk result (draft.new.content ≡ finish_every (sweep draft.old.content)) }
    ensures lines { OnOk result (AreLines lines.new.items draft.new.content) }
{
    let seen = decide_marked(alloc, draft, marks)?;
    end_marked(alloc, draft, lines, seen.as_slice())
}

// The same, where the run at the position is the marked one.
fn decide_and_end_at<'a>(
    alloc: Global,
    draft: &mut Draft<'a>,
    position: usize,
    lines: &mut Vec<GraphRuns<'a>>,
) -> Result<(), AllocError>
    requires keyed { IsKeyed draft.old.content }
    requires covered { IsCovered (position ∷ []) draft.old.content }
    requires lines { AreLines lines.old.items draft.old.content }
    ensures base { OnOk result (draft.new.base ≡ draft.old.base) }
    ensures ended { OnOk result (draft.new.content ≡ finish_every (sweep draft.old.content)) }
    ensures lines { OnOk result (AreLines lines.new.items draft.new.content) }
{
    let mut marks = VecDeque::new(alloc);
    marks.push_front(position)?;
    decide_and_end(alloc, draft, marks, lines)
}

// Moves are made until none is possible, beginning at the marked runs.
pub(crate) fn settle_from<'a>(
    alloc: Global,
    draft: &mut Draft<'a>,
    marks: VecDeque<usize>,
    lines: &mut Vec<GraphRuns<'a>>,
) -> Result<(), AllocError>
    requires keyed { IsKeyed draft.old.content }
    requires covered { IsCovered marks.items draft.old.content }
    requires lines { AreLines lines.old.items draft.old.content }
    ensures base { OnOk result (draft.new.base ≡ draft.old.base) }
    ensures settled { OnOk result (draft.new.content ≡ settle draft.old.content) }
    ensures lines { OnOk result (AreLines lines.new.items draft.new.content) }
{
    decide_and_end(alloc, draft, marks, lines)?;
    while let Some(position) = start_first(alloc, draft, lines)? {
        decide_and_end_at(alloc, draft, position, lines)?;
    }
    Ok(())
}

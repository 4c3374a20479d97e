//! Tries that were lost: those that had no end when a scheduler stopped.
ghost use Rattle.std.specs.Prelude.{◌≡◌, ◌<◌, OnOk, length};
ghost use Rattle.instance_machine.specs.Reports.{lost_try};
ghost use Rattle.sched_draft.specs.Drafts.{IsOwn};
ghost use Rattle.sched_model.specs.Changes.{map_all_tries, map_tries_of};
ghost use Rattle.sched_model.specs.Lists.{at};

use run_lists::has_open;
use sched_draft::Draft;
use std::alloc::{AllocError, Global};

// The tries without an end of the run at a position, which is the draft's own, are lost.
fn lose_in(draft: &mut Draft<'_>, position: usize)
    requires within { position < length draft.old.content.runs }
    requires own { IsOwn position draft.old }
    ensures base { draft.new.base ≡ draft.old.base }
    ensures draft { draft.new.content ≡ record draft.old.content
        { runs = at (map_tries_of (lost_try draft.old.content.now)) position draft.old.content.runs } }
{
    for place in 0..draft.run(position).instances.len() {
        draft.lose_at(position, place);
    }
}

// All tries without an end are lost.
pub(crate) fn lose_all(alloc: Global, draft: &mut Draft<'_>) -> Result<(), AllocError>
    ensures base { OnOk result (draft.new.base ≡ draft.old.base) }
    ensures draft { OnOk result (draft.new.content
        ≡ map_all_tries (lost_try draft.old.content.now) draft.old.content) }
{
    for position in 0..draft.run_count() {
        if has_open(draft.run(position)) {
            draft.own(alloc, position)?;
            lose_in(draft, position);
        }
    }
    Ok(())
}

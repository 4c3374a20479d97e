//! The row of the clock that a record lacks.
ghost use Rattle.std.specs.Prelude.{◌≡◌, ◌≤◌, ◌+◌, IfOk};
ghost use Rattle.record_rules.specs.Between.{lacked};
ghost use Rattle.record_rules.specs.Changes.{same_meta_row};
ghost use Rattle.sched_model.specs.Handout.{last_serial};
ghost use Rattle.sched_model.specs.Tables.{tables, meta_row};

use crate::making::meta_row;
use record_rows::MetaRow;
use sched_draft::{Base, Draft};
use std::alloc::{AllocError, Global};

/// The row of `meta` that a draft has and a schedule lacks: none where both have seen the same moment and the same serials, and have as
/// many lanes.
pub(crate) fn metas_lacked(
    alloc: Global,
    before: &Base<'_>,
    draft: &Draft<'_>,
) -> Result<Vec<MetaRow>, AllocError>
    requires { draft.now.content.next ≤ last_serial + 1 }
    ensures { IfOk result (λ rows. rows.items ≡ lacked same_meta_row (tables before.now).metas
        (tables draft.now.content).metas) }
{
    let mut rows = Vec::new(alloc);
    if !is_same(before, draft) {
        rows.push(meta_row(draft.clock(), draft.next_serial(), draft.lanes()))?;
    }
    Ok(rows)
}

fn is_same(before: &Base<'_>, draft: &Draft<'_>) -> bool
    ensures { result ≡ same_meta_row (meta_row draft.now.content) (meta_row before.now) }
{
    draft.clock().secs() == before.clock.secs()
        && draft.next_serial() == before.next
        && draft.lanes() == before.lanes
}

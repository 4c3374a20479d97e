//! The rule of `meta`.
ghost use Rattle.std.specs.Prelude.{◌≡◌, ◌+◌, ◌&&◌};
ghost use Rattle.sched_model.specs.Handout.{last_serial};
ghost use Rattle.record_rules.specs.Numbers.{is_moment_column, is_between as spec_between};
ghost use Rattle.record_rules.specs.Faults as spec;

use crate::columns::is_between;
use record_rows::MetaRow;
use record_rules::moment_of;
use sched_state::{LAST_SERIAL, Limits};

// The first row of `meta` at fault.
pub(crate) fn meta_fault(limits: Limits, rows: &[MetaRow]) -> Option<usize>
    ensures { result ≡ spec.first_bad (spec.is_meta_row_right limits) rows.now }
{
    for (position, row) in rows.iter().enumerate() {
        if !is_right(limits, row.now, row.next_serial, row.lanes) {
            return Some(position);
        }
    }
    None
}

fn is_right(limits: Limits, now: i64, next_serial: i64, lanes: i64) -> bool
    ensures { result ≡ (is_moment_column now && (spec_between 1 (last_serial + 1) next_serial
        && spec_between 0 limits.lanes lanes)) }
{
    moment_of(now).is_some()
        && is_between(1, LAST_SERIAL as i64 + 1, next_serial)
        && is_between(0, i64::from(limits.lanes()), lanes)
}

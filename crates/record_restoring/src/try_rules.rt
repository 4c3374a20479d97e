//! The rule of `attempt` for one row, beside the row of its instance, its task and the tries of the instance.
ghost use Rattle.std.specs.Prelude.{◌≡◌, ◌≤ℤ◌, ◌+◌, ◌+ℤ◌, ◌&&◌, ◌||◌, not, true, if◌then◌else◌, pos, length, filter, is_some, is_none, int_le, int_lt};
ghost use Rattle.std.specs.Ordering.{int_eq};
ghost use Rattle.record_rules.specs.Keys.{attempt_row_before};
ghost use Rattle.record_rules.specs.Numbers.{is_moment_column, is_between as spec_between, passes_if};
ghost use Rattle.record_rules.specs.Faults as spec;
ghost use Rattle.sched_model.specs.Lists.{rises};

use crate::buckets::Bucket;
use graph_file::TaskSpec;
use record_rows::{AttemptRow, InstanceRow};
use record_rules::{moment_of, outcome_of};

// Whether the row of a try is right.
pub(crate) fn is_try_right(
    next: i64,
    instance: &InstanceRow,
    task: &TaskSpec,
    tries: &Bucket<'_>,
    row: &AttemptRow,
) -> bool
    requires order { rises attempt_row_before tries.now ≡ true }
    requires since { pos 0 ≤ℤ instance.now.since }
    ensures { result ≡ spec.is_attempt_of next instance.now task.now tries.now row.now }
{
    is_serial_right(next, row) && (is_end_right(row) && is_place_right(instance, task, tries, row))
}

// Whether the serial is one that was given out.
fn is_serial_right(next: i64, row: &AttemptRow) -> bool
    ensures { result ≡ (int_le (pos 1) row.now.serial && int_lt row.now.serial next) }
{
    1 <= row.serial && row.serial < next
}

// Whether the number, the slots and the turn are right.
fn is_place_right(
    instance: &InstanceRow,
    task: &TaskSpec,
    tries: &Bucket<'_>,
    row: &AttemptRow,
) -> bool
    requires order { rises attempt_row_before tries.now ≡ true }
    requires since { pos 0 ≤ℤ instance.now.since }
    ensures { result ≡ (spec.is_number_right tries.now row.now
        && (int_eq row.now.slots (pos task.now.pool_slots)
        && spec.is_turn_row_right instance.now task.now tries.now row.now)) }
{
    is_number_right(tries, row)
        && (are_slots_right(task, row) && is_turn_right(instance, task, tries, row))
}

fn are_slots_right(task: &TaskSpec, row: &AttemptRow) -> bool
    ensures { result ≡ int_eq row.now.slots (pos task.now.pool_slots) }
{
    row.slots == i64::from(task.pool_slots.get())
}

// Whether start, end and outcome are right.
fn is_end_right(row: &AttemptRow) -> bool
    ensures { result ≡ spec.is_end_row_right row.now.started row.now.ended row.now.outcome }
{
    are_columns_right(row.started, row.ended, row.outcome)
        && are_together(row.started, row.ended, row.outcome)
}

// Whether the times are moments and the outcome is a code, where they are there.
fn are_columns_right(started: Option<i64>, ended: Option<i64>, outcome: Option<i64>) -> bool
    ensures { result ≡ (passes_if is_moment_column started && (passes_if is_moment_column ended
        && passes_if (spec_between 0 3) outcome)) }
{
    is_moment_if(started) && (is_moment_if(ended) && is_code_if(outcome))
}

fn is_moment_if(column: Option<i64>) -> bool
    ensures { result ≡ passes_if is_moment_column column }
{
    match column {
        Some(number) => moment_of(number).is_some(),
        None => true,
    }
}

fn is_code_if(column: Option<i64>) -> bool
    ensures { result ≡ passes_if (spec_between 0 3) column }
{
    match column {
        Some(code) => outcome_of(code).is_some(),
        None => true,
    }
}

// Whether end and outcome are both there or both absent, and a try that has ended has a start, unless it was lost.
fn are_together(started: Option<i64>, ended: Option<i64>, outcome: Option<i64>) -> bool
    ensures { result ≡ ((is_some ended && is_some outcome || is_none ended && is_none outcome)
        && (is_none ended || (spec.is_lost outcome || is_some started))) }
{
    match (ended, outcome) {
        (None, None) => true,
        (Some(_), Some(code)) => code == 3 || started.is_some(),
        _ => false,
    }
}

// Whether the number is that of the row's place among the tries.
fn is_number_right(tries: &Bucket<'_>, row: &AttemptRow) -> bool
    requires { rises attempt_row_before tries.now ≡ true }
    ensures { result ≡ spec.is_number_right tries.now row.now }
{
    row.try_number >= 1 && row.try_number as u64 - 1 == tries.count_before(row.serial) as u64
}

// Whether the row is at its turn: one that another follows has an end, and so has one from before the last clearing; one since then is of an
// instance that runs, within its retries, and where another follows has failed.
fn is_turn_right(
    instance: &InstanceRow,
    task: &TaskSpec,
    tries: &Bucket<'_>,
    row: &AttemptRow,
) -> bool
    requires order { rises attempt_row_before tries.now ≡ true }
    requires since { pos 0 ≤ℤ instance.now.since }
    ensures { result ≡ spec.is_turn_row_right instance.now task.now tries.now row.now }
{
    let is_last = !tries.has_after(row.serial);
    (is_last || row.ended.is_some()) && is_time_right(instance, task, is_last, row)
}

fn is_time_right(instance: &InstanceRow, task: &TaskSpec, is_last: bool, row: &AttemptRow) -> bool
    requires { pos 0 ≤ℤ instance.now.since }
    ensures { result ≡ (if int_le row.now.try_number instance.now.since then is_some row.now.ended
        else (int_eq instance.now.verdict (pos 1)
        && (int_le row.now.try_number (instance.now.since +ℤ pos (1 + task.now.retries))
        && (is_last || spec.is_failure_code row.now.outcome)))) }
{
    if row.try_number <= instance.since {
        row.ended.is_some()
    } else {
        instance.verdict == 1
            && (row.try_number - instance.since <= 1 + i64::from(task.retries.get())
                && (is_last || is_failure(row.outcome)))
    }
}

// Whether the outcome is failed or lost.
fn is_failure(outcome: Option<i64>) -> bool
    ensures { result ≡ spec.is_failure_code outcome }
{
    match outcome {
        Some(code) => code == 1 || code == 3,
        None => false,
    }
}

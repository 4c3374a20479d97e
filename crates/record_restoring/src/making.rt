//! Task instances made of their rows.
ghost use Rattle.std.specs.Prelude.{◌≡◌, ◌&&◌, true, false, length, map, pos, option_map, int_le, IfOk};
ghost use Rattle.std.specs.List.{list_all};
ghost use Rattle.std.specs.Ordering.{int_eq};
ghost use Rattle.record_rules.specs.Numbers.{natural, is_moment_column, is_between, passes_if};
ghost use Rattle.record_rules.specs.Reading as spec;
ghost use Rattle.record_rules.specs.Faults.{is_end_row_right};
ghost use Rattle.record_restoring.specs.Making.{instance_of, is_readable};

use crate::buckets::{Bucket, TryEntry};
use crate::numbers::count_of;
use graph_file::{Bounded, TaskSpec};
use instance_machine::{End, Instance, Try};
use moment_core::Moment;
use record_rows::{AttemptRow, InstanceRow};
use record_rules::{moment_of, outcome_of, verdict_of};
use std::alloc::{AllocError, Global};

// The instance of a row with the rows of its tries, which are right.
pub(crate) fn read_instance(
    alloc: Global,
    row: &InstanceRow,
    tries: &Bucket<'_>,
    task: &TaskSpec,
) -> Result<Instance, AllocError>
    requires verdict { is_between 0 3 row.now.verdict ≡ true }
    requires since { is_between 0 (length tries.now) row.now.since ≡ true }
    requires tries { list_all (is_readable task.now.pool_slots) tries.now ≡ true }
    ensures { IfOk result (λ instance. instance ≡ instance_of row.now tries.now) }
{
    let Some(verdict) = verdict_of(row.verdict) else {
        unreachable!()
    };
    let tries = read_tries(alloc, tries.entries(), task.pool_slots)?;
    Ok(Instance::of(verdict, count_of(row.since), tries))
}

// The tries of rows, in their order.
fn read_tries(
    alloc: Global,
    entries: &[TryEntry<'_>],
    slots: Bounded<1, 1_000>,
) -> Result<Vec<Try>, AllocError>
    requires { list_all (is_readable slots) entries.now ≡ true }
    ensures { IfOk result (λ tries. tries.items ≡ map spec.try_of entries.now) }
{
    let mut tries = Vec::with_capacity(alloc, entries.len())?;
    for entry in entries {
        let one = entry.read(slots);
        // Rattle's borrow checker, of the kit 13f, fails at `push(one)`: it has to meet the types of the fields here.
        tries.push(Try {
            ended: one.ended,
            ..one
        })?;
    }
    Ok(tries)
}

impl<'a> TryEntry<'a> {
    // The try of the row.
    fn read(&self, slots: Bounded<1, 1_000>) -> Try
        requires { is_readable slots self.now ≡ true }
        ensures { result ≡ spec.try_of self.now }
    {
        read_try(self.row, slots)
    }
}

fn read_try(row: &AttemptRow, slots: Bounded<1, 1_000>) -> Try
    requires { is_readable slots row.now ≡ true }
    ensures { result ≡ spec.try_of row.now }
{
    Try {
        serial: row.serial as u64,
        slots,
        started: moment_if(row.started),
        ended: end_of(row.ended, row.outcome),
    }
}

fn moment_if(column: Option<i64>) -> Option<Moment>
    requires { passes_if is_moment_column column ≡ true }
    ensures { result ≡ option_map natural column }
{
    match column {
        Some(number) => moment_of(number),
        None => None,
    }
}

fn end_of(ended: Option<i64>, outcome: Option<i64>) -> Option<End>
    requires ended { passes_if is_moment_column ended ≡ true }
    requires outcome { passes_if (is_between 0 3) outcome ≡ true }
    ensures { result ≡ spec.end_of ended outcome }
{
    match (ended, outcome) {
        (Some(moment), Some(code)) => Some(End {
            moment: moment_of(moment)?,
            outcome: outcome_of(code)?,
        }),
        _ => None,
    }
}

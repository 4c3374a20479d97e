//! The rule of `attempt`.
ghost use Rattle.std.specs.Prelude.{◌≡◌, true, map};
ghost use Rattle.std.specs.List.{list_all};
ghost use Rattle.sched_model.specs.Lists.{rises};
ghost use Rattle.sched_model.specs.Schedule.{graph_before};
ghost use Rattle.record_rules.specs.Keys.{IsByKey};
ghost use Rattle.record_rules.specs.Reading.{meta_of};
ghost use Rattle.record_rules.specs.Faults as spec;
ghost use Rattle.record_restoring.specs.Dealing.{tries_among};

use crate::buckets::Bucket;
use crate::finding::{instance_at, task_named};
use crate::try_rules::is_try_right;
use record_rows::{AttemptRow, Rows};
use sched_state::LoadedGraph;

// The first row of `attempt` at fault, where the rows of `instance` are right. `buckets` are the tries of each of these.
pub(crate) fn attempt_fault(
    graphs: &[LoadedGraph],
    rows: &Rows,
    attempts: &[AttemptRow],
    buckets: &[Bucket<'_>],
) -> Option<usize>
    requires order { rises graph_before graphs.now ≡ true }
    requires keyed { IsByKey rows.now }
    requires dealt { buckets.now ≡ map (tries_among rows.now.attempts) rows.now.instances }
    requires right { list_all (spec.is_instance_row_right graphs.now rows.now) rows.now.instances
        ≡ true }
    ensures { result ≡ spec.first_bad (spec.is_attempt_row_right graphs.now
        (meta_of rows.now).next_serial rows.now) attempts.now }
{
    for (position, row) in attempts.iter().enumerate() {
        if !is_right(graphs, rows, buckets, row) {
            return Some(position);
        }
    }
    None
}

fn is_right(graphs: &[LoadedGraph], rows: &Rows, buckets: &[Bucket<'_>], row: &AttemptRow) -> bool
    requires order { rises graph_before graphs.now ≡ true }
    requires keyed { IsByKey rows.now }
    requires dealt { buckets.now ≡ map (tries_among rows.now.attempts) rows.now.instances }
    requires right { list_all (spec.is_instance_row_right graphs.now rows.now) rows.now.instances
        ≡ true }
    ensures { result ≡ spec.is_attempt_row_right graphs.now (meta_of rows.now).next_serial
        rows.now row.now }
{
    let place = instance_at(
        &rows.instances,
        row.dag_id.as_str(),
        row.logical,
        row.task_id.as_str(),
    );
    let Some(place) = place else {
        return false;
    };
    match task_named(graphs, row.dag_id.as_str(), row.task_id.as_str()) {
        Some(task) => is_try_right(
            next_serial(rows),
            &rows.instances[place],
            task,
            &buckets[place],
            row,
        ),
        None => false,
    }
}

// The serial of the next try.
fn next_serial(rows: &Rows) -> i64
    ensures { result ≡ (meta_of rows.now).next_serial }
{
    match rows.metas.first() {
        Some(meta) => meta.next_serial,
        None => 1,
    }
}

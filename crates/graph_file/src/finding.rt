//! Finding the fault of a table: the first class that stands in it, at its first place.
ghost use Rattle.std.specs.Prelude.{◌≡◌, ◌≤◌, length, map, sum_by, nat_lt, position};
ghost use Rattle.toml.specs.View.{table_view, view};
ghost use Rattle.graph_file.specs.Lists.{first_some};
ghost use Rattle.graph_file.specs.Tables.{tasks_of};
ghost use Rattle.graph_file.specs.Classes as classes;
ghost use Rattle.graph_file.specs.Faults as spec;
ghost use Rattle.graph_file.specs.Faults.{place_limit};

use crate::classes::{CLASSES, Class, has_fault, task_has_fault};
use crate::keys::{Key, TOP_KEYS};
use crate::schedules::cron_fault;
use crate::tables::{items_at, tasks};
use crate::{GraphFault, Place};
use toml::{Table, Value};

/// The most tasks that a graph may have.
const TASK_LIMIT: usize = 256;

/// The most upstream names that the tasks of a graph may have in all.
const UPSTREAM_LIMIT: usize = 4_096;

/// The most tasks whose places a fault can tell.
const PLACE_LIMIT: usize = 4_294_967_295;

// The fault of a table, if it has one.
pub(crate) fn fault_of(table: &Table) -> Option<GraphFault>
    ensures { result ≡ spec.fault_of (table_view table.now) }
{
    let count = tasks(table).len();
    if count > PLACE_LIMIT {
        return Some(GraphFault::TooMany);
    }
    if let Some(fault) = first_fault(&CLASSES, table) {
        return Some(fault);
    }
    if let Some(fault) = cron_fault(&TOP_KEYS, table) {
        return Some(GraphFault::Cron(fault));
    }
    if count == 0 {
        Some(GraphFault::NoTask)
    } else if count > TASK_LIMIT || have_more_upstreams(tasks(table), UPSTREAM_LIMIT) {
        Some(GraphFault::TooMany)
    } else {
        None
    }
}

// Whether the tasks have more upstream names than this in all.
fn have_more_upstreams(tasks: &[Value], most: usize) -> bool
    ensures { result ≡ nat_lt most (sum_by (λ v. spec.upstream_count (view v)) tasks.now) }
{
    let mut left = most;
    for task in tasks {
        let count = upstream_count(task);
        if count > left {
            return true;
        }
        left -= count;
    }
    false
}

// How many upstream names the task has.
fn upstream_count(task: &Value) -> usize
    ensures { result ≡ spec.upstream_count (view task.now) }
{
    match task.as_table() {
        Some(table) => items_at(table, Key::Upstream).len(),
        None => 0,
    }
}

// The fault of the first of these classes that stands in the table.
fn first_fault(classes: &[Class], table: &Table) -> Option<GraphFault>
    requires { length (tasks_of (table_view table.now)) ≤ place_limit }
    ensures { result ≡ first_some (map (spec.fault_in (table_view table.now)) classes.now) }
{
    for class in classes {
        if let Some(place) = first_place(*class, table) {
            return Some(fault_at(*class, place));
        }
    }
    None
}

// The first place of a fault of the class.
fn first_place(class: Class, table: &Table) -> Option<Place>
    requires { length (tasks_of (table_view table.now)) ≤ place_limit }
    ensures { result ≡ spec.first_place class (table_view table.now) }
{
    if has_fault(class, &TOP_KEYS, table) {
        return Some(Place::Top);
    }
    match faulty_task(class, tasks(table)) {
        Some(at) => Some(Place::Task(at as u32)),
        None => None,
    }
}

// The first task with a fault of the class.
fn faulty_task(class: Class, tasks: &[Value]) -> Option<usize>
    ensures { result ≡ position (λ v. classes.task_has_fault class (view v)) tasks.now }
{
    tasks.iter().position(|task| task_has_fault(class, task))
}

fn fault_at(class: Class, place: Place) -> GraphFault
    ensures { result ≡ spec.fault_at class place }
{
    match class {
        Class::UnknownKey => GraphFault::UnknownKey(place),
        Class::WrongType => GraphFault::WrongType(place),
        Class::MissingKey => GraphFault::MissingKey(place),
        Class::BadName => GraphFault::BadName(place),
        Class::BadValue => GraphFault::BadValue(place),
    }
}

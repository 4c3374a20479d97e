//! The classes of faults that have a place, each one test over the rows of the keys.
//!
//! A class speaks of a table only: that the first class that stands anywhere in the file is answered, and at its first
//! place, is the business of `finding.rt`. So a value of the wrong type is no bad name and no bad value here.
ghost use Rattle.std.specs.Prelude.{◌≡◌, not, string_bytes};
ghost use Rattle.std.specs.List.{list_all, list_any};
ghost use Rattle.std.specs.BTreeMap.{keys as entry_keys};
ghost use Rattle.toml.specs.View.{table_view, view};
ghost use Rattle.graph_file.specs.Lists.{holds_at};
ghost use Rattle.graph_file.specs.Keys.{row_of};
ghost use Rattle.graph_file.specs.Tables.{member_at};
ghost use Rattle.graph_file.specs.Classes as spec;

use crate::arguments::{takes, takes_timeout};
use crate::keys::{Absent, Key, Kind, Role, TASK_KEYS};
use crate::names::is_name;
use crate::schedules::{CronTimetable, lacks_ticks};
use crate::tables::{items_at, text_at, value_at};
use crate::{Operator, Rule, WeightRule};
use moment_core::Moment;
use toml::{Table, Value};

/// A class of faults that have a place, in the order in which they are answered.
#[derive(Clone, Copy)]
pub enum Class {
    UnknownKey,
    WrongType,
    MissingKey,
    BadName,
    BadValue,
}

/// The classes, in the order in which they are answered.
pub const CLASSES: [Class; 5] = [
    Class::UnknownKey,
    Class::WrongType,
    Class::MissingKey,
    Class::BadName,
    Class::BadValue,
];

// Whether the table, which may have these keys, has a fault of the class.
pub(crate) fn has_fault(class: Class, keys: &[Key], table: &Table) -> bool
    ensures { result ≡ spec.has_fault class keys.now (table_view table.now) }
{
    has_unknown(class, keys, table) || has_faulty(class, keys, table)
}

// Whether a fault of the class stands at one of these keys.
fn has_faulty(class: Class, keys: &[Key], table: &Table) -> bool
    ensures { result ≡ list_any (λ key. spec.is_faulty class key (table_view table.now)) keys.now }
{
    keys.iter().any(|key| is_faulty(class, *key, table))
}

// Whether a fault of the class stands at the key. An unknown key is none of these.
pub(crate) fn is_faulty(class: Class, key: Key, table: &Table) -> bool
    ensures { result ≡ spec.is_faulty class key (table_view table.now) }
{
    match class {
        Class::UnknownKey => false,
        Class::WrongType => is_wrong(key, table),
        Class::MissingKey => is_missing(key, table),
        Class::BadName => is_misnamed(key, table),
        Class::BadValue => is_bad(key, table),
    }
}

// Whether the class is that of unknown keys, and the table has one.
fn has_unknown(class: Class, keys: &[Key], table: &Table) -> bool
    ensures { result ≡ spec.has_unknown class keys.now (table_view table.now) }
{
    match class {
        Class::UnknownKey => has_unknown_key(keys, table),
        Class::WrongType | Class::MissingKey | Class::BadName | Class::BadValue => false,
    }
}

// Whether the task is a table with a fault of the class.
pub(crate) fn task_has_fault(class: Class, task: &Value) -> bool
    ensures { result ≡ spec.task_has_fault class (view task.now) }
{
    match task.as_table() {
        Some(table) => has_fault(class, &TASK_KEYS, table),
        None => false,
    }
}

fn has_unknown_key(keys: &[Key], table: &Table) -> bool
    ensures { result ≡ spec.has_unknown Class.UnknownKey keys.now (table_view table.now) }
{
    has_other_name(keys, table)
}

fn has_other_name(keys: &[Key], table: &Table) -> bool
    ensures { result ≡ list_any (λ name. not (spec.is_key keys.now (string_bytes name)))
        (entry_keys table.now) }
{
    table.keys().any(|name| !is_key(keys, name.as_str()))
}

// Whether the name is one of these keys.
pub(crate) fn is_key(keys: &[Key], name: &str) -> bool
    ensures { result ≡ spec.is_key keys.now name.now }
{
    keys.iter().any(|key| key.name() == name)
}

fn is_wrong(key: Key, table: &Table) -> bool
    ensures { result ≡ spec.is_wrong key (table_view table.now) }
{
    match value_at(table, key) {
        Some(value) => !is_kind(key.kind(), value),
        None => false,
    }
}

// Whether the value is of the kind.
fn is_kind(kind: Kind, value: &Value) -> bool
    ensures { result ≡ spec.is_kind kind (view value.now) }
{
    match kind {
        Kind::Text => value.as_str().is_some(),
        Kind::Flag => value.as_bool().is_some(),
        Kind::Whole => value.as_integer().is_some(),
        Kind::Texts => match value.as_array() {
            Some(items) => are_texts(items.as_slice()),
            None => false,
        },
        Kind::Tables => match value.as_array() {
            Some(items) => are_tables(items.as_slice()),
            None => false,
        },
    }
}

fn are_texts(items: &[Value]) -> bool
    ensures { result ≡ list_all (λ v. spec.is_text (view v)) items.now }
{
    items.iter().all(|item| item.as_str().is_some())
}

fn are_tables(items: &[Value]) -> bool
    ensures { result ≡ list_all (λ v. spec.is_table (view v)) items.now }
{
    items.iter().all(|item| item.as_table().is_some())
}

fn is_missing(key: Key, table: &Table) -> bool
    ensures { result ≡ spec.is_missing key (table_view table.now) }
{
    matches!(key.absent(), Absent::Refused) && value_at(table, key).is_none()
}

fn is_misnamed(key: Key, table: &Table) -> bool
    ensures { result ≡ spec.is_misnamed key (table_view table.now) }
{
    match value_at(table, key) {
        Some(value) => names_none(key.role(), value),
        None => false,
    }
}

// Whether a name is wanted, and the text, or one of the texts, is none.
fn names_none(role: Role, value: &Value) -> bool
    ensures { result ≡ spec.names_none role (view value.now) }
{
    match role {
        Role::Name => is_no_name(value),
        Role::Names => match value.as_array() {
            Some(items) => has_no_name(items.as_slice()),
            None => false,
        },
        _ => false,
    }
}

fn is_no_name(value: &Value) -> bool
    ensures { result ≡ spec.is_no_name (view value.now) }
{
    match value.as_str() {
        Some(text) => !is_name(text),
        None => false,
    }
}

fn has_no_name(items: &[Value]) -> bool
    ensures { result ≡ list_any (λ v. spec.is_no_name (view v)) items.now }
{
    items.iter().any(|item| is_no_name(item))
}

fn is_bad(key: Key, table: &Table) -> bool
    ensures { result ≡ spec.is_bad key (table_view table.now) }
{
    is_value_outside(key, table) || is_unfit(key.role(), table)
}

// Whether the value at the key is none of those that its role has.
fn is_value_outside(key: Key, table: &Table) -> bool
    ensures { result ≡ holds_at (spec.is_outside (row_of key).role)
        (member_at key (table_view table.now)) }
{
    match value_at(table, key) {
        Some(value) => is_outside(key.role(), value),
        None => false,
    }
}

// Whether the value is a number that is less than the first or more than the second.
fn is_past(low: i64, high: i64, value: &Value) -> bool
    ensures { result ≡ spec.is_past low high (view value.now) }
{
    match value.as_integer() {
        Some(number) => number < low || high < number,
        None => false,
    }
}

// Whether the value is none of those that the role has.
fn is_outside(role: Role, value: &Value) -> bool
    ensures { result ≡ spec.is_outside role (view value.now) }
{
    match role {
        Role::Moment => match value.as_str() {
            Some(text) => Moment::read(text).is_err(),
            None => false,
        },
        Role::Range(low, high) => is_past(low, high, value),
        Role::Timeout(low, high) => is_past(low, high, value),
        Role::Operator => match value.as_str() {
            Some(text) => Operator::read(text).is_none(),
            None => false,
        },
        Role::Rule => match value.as_str() {
            Some(text) => Rule::read(text).is_none(),
            None => false,
        },
        Role::WeightRule => match value.as_str() {
            Some(text) => WeightRule::read(text).is_none(),
            None => false,
        },
        Role::Timetable => match value.as_str() {
            Some(text) => CronTimetable::read(text).is_none(),
            None => false,
        },
        _ => false,
    }
}

// Whether arguments are wanted, and the operator beside them does not take those of the table; or how long a try may take is said of an
// operator that does not take it; or a run at each tick is wanted, and the schedule of the table has no ticks.
fn is_unfit(role: Role, table: &Table) -> bool
    ensures { result ≡ spec.is_unfit role (table_view table.now) }
{
    match role {
        Role::Arguments => match operator_at(table) {
            Some(operator) => !takes(operator, items_at(table, Key::Argv)),
            None => false,
        },
        Role::Timeout(_, _) => match operator_at(table) {
            Some(operator) => {
                !takes_timeout(operator, value_at(table, Key::ExecutionTimeout).is_some())
            }
            None => false,
        },
        Role::Timetable => lacks_ticks(
            CronTimetable::read(text_at(table, Key::Timetable)),
            text_at(table, Key::Schedule),
        ),
        _ => false,
    }
}

// The operator of a task, if its word is one.
fn operator_at(table: &Table) -> Option<Operator>
    ensures { result ≡ spec.operator_at (table_view table.now) }
{
    match value_at(table, Key::Operator) {
        Some(value) => match value.as_str() {
            Some(text) => Operator::read(text),
            None => None,
        },
        None => None,
    }
}

//! Which key of a table a fault is of, for who explains it to a person.
ghost use Rattle.std.specs.Prelude.{◌≡◌, find, not, option_map, string_bytes};
ghost use Rattle.std.specs.Option.{option_copied};
ghost use Rattle.std.specs.BTreeMap.{keys as entry_keys};
ghost use Rattle.toml.specs.View.{table_view};
ghost use Rattle.graph_file.specs.Classes.{is_key};
ghost use Rattle.graph_file.specs.Tables.{keys_in};
ghost use Rattle.graph_file.specs.Mistakes as spec;

use crate::classes::{Class, is_faulty, is_key};
use crate::keys::{Key, TASK_KEYS, TOP_KEYS};
use crate::tables::tasks;
use crate::{GraphFault, Place};
use toml::Table;

impl Place {
    /// The keys that may stand there.
    pub fn keys(self) -> &'static [Key]
        ensures { result.now ≡ spec.keys_at self }
    {
        match self {
            Place::Top => &TOP_KEYS,
            Place::Task(_) => &TASK_KEYS,
        }
    }

    /// The table that stands there, in the table of a whole file.
    pub fn table_in<'a>(self, file: &'a Table) -> Option<&'a Table>
        ensures { option_map (λ t. table_view t.now) result ≡ spec.table_at self (table_view file.now) }
    {
        match self {
            Place::Top => Some(file),
            Place::Task(number) => match tasks(file).get(number as usize) {
                Some(task) => task.as_table(),
                None => None,
            },
        }
    }
}

/// The first key at which a fault of a file's table stands, in the order of the table of keys; none of a fault that is of no such key.
pub fn faulty_key(fault: GraphFault, file: &Table) -> Option<Key>
    ensures { result ≡ spec.faulty_key fault (table_view file.now) }
{
    match fault {
        GraphFault::WrongType(place) => faulty_at(Class::WrongType, place, file),
        GraphFault::MissingKey(place) => faulty_at(Class::MissingKey, place, file),
        GraphFault::BadName(place) => faulty_at(Class::BadName, place, file),
        GraphFault::BadValue(place) => faulty_at(Class::BadValue, place, file),
        GraphFault::NotToml
        | GraphFault::UnknownKey(_)
        | GraphFault::Cron(_)
        | GraphFault::NoTask
        | GraphFault::TooMany
        | GraphFault::Memory => None,
    }
}

// The first key at which a fault of the class stands at a place.
fn faulty_at(class: Class, place: Place, file: &Table) -> Option<Key>
    ensures { result ≡ spec.faulty_at class place (table_view file.now) }
{
    match place.table_in(file) {
        Some(table) => first_faulty(class, place.keys(), table),
        None => None,
    }
}

fn first_faulty(class: Class, keys: &[Key], table: &Table) -> Option<Key>
    ensures { result ≡ spec.first_faulty class keys.now (table_view table.now) }
{
    keys.iter()
        .copied()
        .find(|key| is_faulty(class, *key, table))
}

/// The first name, in the order of names, that stands at a place of a file's table and is none of the keys there.
pub fn unknown_name<'a>(place: Place, file: &'a Table) -> Option<&'a str>
    ensures { option_map (λ name. name.now) result ≡ spec.unknown_name place (table_view file.now) }
{
    match place.table_in(file) {
        Some(table) => other_name(place.keys(), table),
        None => None,
    }
}

// The first name that is none of these keys.
fn other_name<'a>(keys: &[Key], table: &'a Table) -> Option<&'a str>
    ensures { option_map (λ name. name.now) result
        ≡ find (λ name. not (is_key keys.now name)) (keys_in (table_view table.now)) }
{
    match other_key(keys, table) {
        Some(name) => Some(name.as_str()),
        None => None,
    }
}

fn other_key<'a>(keys: &[Key], table: &'a Table) -> Option<&'a String>
    ensures { option_copied result
        ≡ find (λ name. not (is_key keys.now (string_bytes name))) (entry_keys table.now) }
{
    table.keys().find(|name| !is_key(keys, name.as_str()))
}

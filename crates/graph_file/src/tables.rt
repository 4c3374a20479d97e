//! A table of TOML: what stands at a key, a text or its default there, the items of an array, and the tasks.
ghost use Rattle.std.specs.Prelude.{◌≡◌, map, option_map, option_and_then};
ghost use Rattle.toml.specs.Data.{as_array};
ghost use Rattle.toml.specs.View.{table_view, array_view, view};
ghost use Rattle.graph_file.specs.Tables.{member_at, items_of, tasks_of};
ghost use Rattle.graph_file.specs.Values.{value_of, text_in};
ghost use Rattle.graph_file.specs.Values as spec;

use crate::keys::Key;
use toml::value::Array;
use toml::{Table, Value};

// What the table has at the key.
pub(crate) fn value_at<'a>(table: &'a Table, key: Key) -> Option<&'a Value>
    ensures { option_map (λ v. view v.now) result ≡ member_at key (table_view table.now) }
{
    table.get(key.name())
}

// The array at the key.
fn array_at<'a>(table: &'a Table, key: Key) -> Option<&'a Array>
    ensures { option_map (λ v. array_view v.now) result
        ≡ option_and_then as_array (member_at key (table_view table.now)) }
{
    match value_at(table, key) {
        Some(value) => value.as_array(),
        None => None,
    }
}

// The items of the array at the key.
pub(crate) fn items_at(table: &Table, key: Key) -> &[Value]
    ensures { map view result.now ≡ items_of key (table_view table.now) }
{
    match array_at(table, key) {
        Some(items) => items.as_slice(),
        None => &[],
    }
}

// The tasks, in the order of the file.
pub(crate) fn tasks(table: &Table) -> &[Value]
    ensures { map view result.now ≡ tasks_of (table_view table.now) }
{
    items_at(table, Key::Task)
}

// The text at a key, or the one that stands where it is absent.
pub(crate) fn text_at(table: &Table, key: Key) -> &str
    ensures { result.now ≡ text_in (value_of key (table_view table.now)) }
{
    match value_at(table, key) {
        Some(value) => match value.as_str() {
            Some(text) => text,
            None => "",
        },
        None => key.absent().text(),
    }
}

// The text of a value.
pub(crate) fn text_of(value: &Value) -> &str
    ensures { result.now ≡ spec.text_of (view value.now) }
{
    match value.as_str() {
        Some(text) => text,
        None => "",
    }
}

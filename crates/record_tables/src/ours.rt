//! Whether a database has the tables of a record.
ghost use Rattle.std.specs.Prelude.{◌≡◌};
ghost use Rattle.record_tables.specs.Forms.{form_of};
ghost use Rattle.record_tables.specs.Ours as spec;
ghost use Rattle.sqlite_schema.specs.Names.{same_name};

use crate::Stored;
use record_rows::{AttemptRow, DagLimitRow, DagRow, InstanceRow, MetaRow, PoolRow, RunRow};
use sqlite_schema::names::same_name;
use sqlite_schema::schema::{Schema, Table};

pub(crate) fn is_named(table: &Table, name: &str) -> bool
    ensures { result ≡ same_name table.now.name name.now }
{
    same_name(table.name.as_slice(), name.as_bytes())
}

pub(crate) fn has_column(table: &Table, name: &str) -> bool
    ensures { result ≡ spec.has_column table.now name.now }
{
    table.columns.as_slice().iter().any(|column| same_name(column.name.as_slice(), name.as_bytes()))
}

fn has_table<X: Stored>(schema: &Schema) -> bool
    ensures { result ≡ spec.has_table (form_of X.which) schema.now }
{
    schema
        .tables
        .as_slice()
        .iter()
        .any(|table| X::is_kept_in(table))
}

/// Whether there is a table named `dag_limit`, which version 1 has not; case does not count.
pub fn has_limits(schema: &Schema) -> bool
    ensures { result ≡ spec.has_limits schema.now }
{
    schema
        .tables
        .as_slice()
        .iter()
        .any(|table| is_named(table, "dag_limit"))
}

fn has_first_tables(schema: &Schema) -> bool
    ensures { result ≡ spec.has_first_tables schema.now }
{
    has_table::<MetaRow>(schema)
        && has_table::<PoolRow>(schema)
        && has_table::<DagRow>(schema)
        && has_table::<RunRow>(schema)
        && has_table::<InstanceRow>(schema)
        && has_table::<AttemptRow>(schema)
}

/// Whether the tables of the record are there, with each of their columns: the six of version 1, and `dag_limit` where a table has that
/// name; case does not count.
pub fn is_ours(schema: &Schema) -> bool
    ensures { result ≡ spec.is_ours schema.now }
{
    has_first_tables(schema) && (!has_limits(schema) || has_table::<DagLimitRow>(schema))
}

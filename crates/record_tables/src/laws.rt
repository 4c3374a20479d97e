//! The laws of what a database stores, and of the tables of a record.
ghost use Rattle.std.specs.Prelude.{◌≡◌, pos, true, false, IsTrue};
ghost use Rattle.sqlite.specs.Effect.{Database, IsDatabase};
ghost use Rattle.record_rows.specs.Rows.{Rows};
ghost use Rattle.record_rows.specs.declared.tables.Table.{Table};
ghost use Rattle.record_rules.specs.Keys.{IsByKey};
ghost use Rattle.record_tables.specs.Empties.{IsEmpty};
ghost use Rattle.record_rules.specs.Keys.{rises_in};
ghost use Rattle.record_tables.specs.Holds.{Stores};
ghost use Rattle.record_rules.specs.Changes.{no_rows};
ghost use Rattle.record_tables.specs.Loads.{is_version};
ghost use Rattle.record_tables.specs.Others.{Others, with_others};
ghost use Rattle.record_tables.specs.Ours.{has_limits, is_ours};
ghost use Rattle.record_tables.specs.Schema.{first_schema, record_schema};

/// The rows that a database stores are determined.
pub fn stored_rows_are_determined()
    ensures { (db : Database) (s t : Rows) → Stores db s → Stores db t → s ≡ t }
{}

/// The empty tables of the record, in a database that SQLite has, store no rows.
pub fn empty_tables_store_no_rows()
    ensures { (db : Database) → IsEmpty record_schema db → IsDatabase db → Stores db no_rows }
{}

/// Rows that are a record's by key rise by key.
pub fn rows_by_key_rise()
    ensures { (rows : Rows) → IsByKey rows → (t : Table) → IsTrue (rises_in t rows) }
{}

/// The schema of a record has its tables, with each of their columns, whatever is beside them; that of version 2 has `dag_limit`, and that of
/// version 1 has not.
pub fn the_record_is_ours()
    ensures second { (o : Others) → IsTrue (is_ours (with_others o))
        × IsTrue (has_limits (with_others o)) }
    ensures first { IsTrue (is_ours first_schema) × (has_limits first_schema ≡ false) }
{}

/// The rows that a database stores are by key, where `meta` is one row of version 2.
pub fn stored_rows_are_by_key()
    ensures { (db : Database) (rows : Rows) → Stores db rows
        → is_version (pos 2) rows.metas ≡ true → IsByKey rows }
{}

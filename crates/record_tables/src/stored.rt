//! How a table is kept, and its rows put into it.
ghost use Rattle.std.specs.Prelude.{List, ◌≡◌, false, OnOk, OnErr, IfOk, IfErr};
ghost use Rattle.sqlite.specs.Held.{state};
ghost use Rattle.record_rows.specs.Rows.{Rows};
ghost use Rattle.record_rows.specs.declared.tables.Table.{Table as Which};
ghost use Rattle.record_rules.specs.Cells.{AreText, Cell};
ghost use Rattle.record_tables.specs.Forms.{first_of, form_of, values_of};
ghost use Rattle.record_tables.specs.Errors.{is_memory};
ghost use Rattle.record_tables.specs.Given.{Tells};
ghost use Rattle.record_tables.specs.Kept.{IsKept};
ghost use Rattle.record_tables.specs.Loads.{IsRowOf};
ghost use Rattle.record_tables.specs.Ours.{is_table_of};
ghost use Rattle.record_tables.specs.Puts.{GoesBy, PutsIn, RunsInside, Stops, put_in};

use record_rules::Keyed;
use sqlite::{Alter, Error, Row, Transaction};
use sqlite_schema::schema::Table;

/// Rows of a table of the record.
pub trait Stored: Keyed + Drop {
    ghost which: { Which };

    ghost cells: { Self → List Cell };

    ghost among: { Rows → List Self };

    ghost with_rows: { Rows → List Self → Rows };

    /// The statement that makes the table.
    fn create_text() -> &'static str
        ensures { result.now ≡ (form_of which).create };

    /// Whether this is the table, by its name and columns; case does not count.
    fn is_kept_in(table: &Table) -> bool
        ensures { result ≡ is_table_of (form_of which) table.now };

    /// Puts the row into its table by key.
    fn put<S: Alter>(&self, tx: &mut Transaction<'_, S>) -> Result<usize, Error>
        ensures same_reference { tx.new.conn.ghost_name ≡ tx.old.conn.ghost_name }
        ensures runs { RunsInside (state S.Store tx.old.conn.now) (state S.Store tx.new.conn.now)
            (form_of which).put (values_of (cells self.now)) result };

    /// The query of all its rows.
    fn select_text() -> &'static str
        ensures { result.now ≡ (form_of which).select };

    /// Reads a row that the query shows.
    fn read(row: &Row) -> Result<Self, Error>
        ensures ok { IfOk result (λ x. values_of (cells x) ≡ first_of (form_of which) row.now) }
        ensures texts { IfOk result (λ x. AreText (cells x)) }
        ensures kind { IfErr result (λ e. is_memory e ≡ false → ¬ IsRowOf cells row.now) };

    /// What is so of the table.
    fn kept()
        ensures { IsKept which cells Self.before among with_rows };
}

/// Puts rows into their table by key, one after another, inside a transaction.
pub fn put_all<S: Alter, X: Stored>(tx: &mut Transaction<'_, S>, rows: &[X]) -> Result<(), Error>
    ensures same_reference { tx.new.conn.ghost_name ≡ tx.old.conn.ghost_name }
    ensures ok { OnOk result (GoesBy (PutsIn (put_in X.among X.with_rows X.before rows.now))
        (state S.Store tx.old.conn.now) (state S.Store tx.new.conn.now)) }
    ensures err { OnErr result (Stops (state S.Store tx.old.conn.now)
        (state S.Store tx.new.conn.now)) }
    ensures given { Tells (state S.Store tx.old.conn.now) (state S.Store tx.new.conn.now) result }
{
    X::kept();
    for row in rows {
        row.put(tx)?;
    }
    Ok(())
}

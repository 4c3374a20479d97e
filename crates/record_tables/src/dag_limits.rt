//! The table `dag_limit`.
ghost use Rattle.record_rows.specs.declared.tables.Table.TheVariants as one_of;
ghost use Rattle.record_rules.specs.Cells.{dag_limit_cells};

use crate::Stored;
use crate::ours::{has_column, is_named};
use record_rows::DagLimitRow;
use sqlite::{Alter, Error, Row, Transaction};
use sqlite_schema::schema::Table;
use sqlite_value::value::ValueRef;

impl Stored for DagLimitRow {
    ghost which = { one_of.DagLimit };

    ghost cells = { dag_limit_cells };

    ghost among = { λ rows. rows.dag_limits };

    ghost with_rows = { λ rows these. record rows { dag_limits = these } };

    fn create_text() -> &'static str {
        "CREATE TABLE dag_limit (dag_id TEXT NOT NULL PRIMARY KEY REFERENCES dag, max_active_tasks INTEGER NOT NULL) STRICT"
    }

    fn is_kept_in(table: &Table) -> bool {
        is_named(table, "dag_limit")
            && has_column(table, "dag_id")
            && has_column(table, "max_active_tasks")
    }

    fn put<S: Alter>(&self, tx: &mut Transaction<'_, S>) -> Result<usize, Error> {
        let max_active_tasks = self.max_active_tasks;
        tx.execute(
            "INSERT OR REPLACE INTO dag_limit VALUES (?1, ?2)",
            &[
                ValueRef::Text(self.dag_id.as_bytes()),
                ValueRef::Int(max_active_tasks),
            ],
        )
    }

    fn select_text() -> &'static str {
        "SELECT dag_id, max_active_tasks FROM dag_limit"
    }

    fn read(row: &Row) -> Result<DagLimitRow, Error> {
        let dag_id = row.get(0)?;
        let max_active_tasks = row.get(1)?;
        Ok(DagLimitRow {
            dag_id,
            max_active_tasks,
        })
    }

    fn kept() {}
}

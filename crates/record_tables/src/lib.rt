//! The record's tables in a SQLite database: made, rows put into them by key, and read from them.
//!
//! All calls work inside a transaction that the caller began and commits, or drops. A type of rows says by [`Stored`] how its table is kept,
//! and `put_all` and `load_all` work at each such type; `put_rows` and `load_rows` work at all seven tables. `make_tables` makes them in a
//! database that has nothing, and `add_limits` the one that a record of version 1 lacks. `Stores` (specs/Holds.antt) says which rows a database
//! has, each table by its key, beside what others have put there (`Others`); what a call does is said of every record that the database may
//! store (`PutsIn`, `Stays`). `is_ours` says whether the tables are there.
//! Easy to get wrong: rows come parents first, or SQLite refuses them; and where a call fails the transaction is to be dropped, not committed.
//!
//! ```text
//! let mut tx = conn.transaction();
//! put_rows(&mut tx, &rows)?;
//! tx.commit()?;
//! ```
#![tactic(auto)]

mod attempts;
mod creating;
mod dag_limits;
mod dags;
mod faults;
mod instances;
mod laws;
mod loading;
mod metas;
mod nulls;
mod ours;
mod pools;
mod queries;
mod rows;
mod runs;
mod stored;
mod versions;

pub use creating::{add_limits, make_tables};
pub use faults::{LoadFault, refused};
pub use laws::{
    empty_tables_store_no_rows, rows_by_key_rise, stored_rows_are_by_key,
    stored_rows_are_determined, the_record_is_ours,
};
pub use loading::load_all;
pub use ours::{has_limits, is_ours};
pub use rows::{load_rows, put_rows};
pub use stored::{Stored, put_all};
pub use versions::is_version;

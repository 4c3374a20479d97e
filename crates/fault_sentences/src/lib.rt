//! Sentences for a person: what is wrong, where it stands, and what would be right.
//!
//! The lines of standard output are for programs, and `answer_lines` has them. [`note_of`] makes a sentence of the same fault, [`one_line`] lays it out as
//! a line that is safe on a terminal, and [`SentenceConsole`] tells them of a script: of its commands, of tries that failed, and, on a terminal, how a drain
//! goes on.
//!
//! ```text
//! line 3: shop.toml:14: task "load": its upstream "extrakt" is no task of this file
//! line 9: the moment lies before 2024-03-04T00:00:00+00:00, which the record's clock has reached: it never goes back
//! 2 failed: shop 2024-03-01T00:00:00+00:00 load, shop 2024-03-02T00:00:00+00:00 load; 1 up for a retry, from 2024-03-04T00:05:00+00:00 on
//! ```
//!
//! What a sentence says is shown by stored runs and not proved. Proved is that making one stops at nothing: no index out of range, no number too great, and
//! it ends. Easy to get wrong: where memory runs out there is no sentence, and that is no fault of the command.
#![tactic(auto)]

mod airflow;
mod asked;
mod changes;
mod commands;
mod console;
mod doubts;
mod due;
mod fields;
mod graphs;
mod held;
mod idle;
mod keys;
mod lines;
mod loads;
mod logs;
mod moments;
mod notes;
mod parts;
mod places;
mod pools;
mod programs;
mod records;
mod refusals;
mod totals;
mod tries;

pub use asked::Asked;
pub use console::SentenceConsole;
pub use lines::one_line;
pub use notes::{Note, note_of};

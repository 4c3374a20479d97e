//! Words: the parts of a text between blanks, from left to right, without memory.
//!
//! Blanks are spaces and tabs alone; a newline is part of a word.
//!
//! ```text
//! let (first, rest) = next_word(b" tick  2024-01-01")?;
//! first            // b"tick"
//! next_word(rest)  // b"2024-01-01", and what follows it
//! ```
#![tactic(auto)]

mod words;

pub use words::{is_blank, next_word};

//! A sentence as a line.
//!
//! No contract holds this file: the sections `told` of `worked_scripts` show what it writes.
use std::alloc::{AllocError, Global};

// The most bytes of a line, with its newline.
const MOST_BYTES: usize = 300;

/// The text as a line of at most 300 bytes with its newline, without control characters: each becomes a blank, and what is too long ends in `...`.
pub fn one_line(alloc: Global, text: &str) -> Result<String, AllocError> {
    let mut line = String::new(alloc);
    push_letters(&mut line, text)?;
    line.push('\n')?;
    Ok(line)
}

fn push_letters(line: &mut String, text: &str) -> Result<(), AllocError> {
    for letter in text.chars() {
        // the three points and the newline
        if line.len().saturating_add(letter.len_utf8()) > MOST_BYTES - 4 {
            return line.push_str("...");
        }
        line.push(if letter.is_control() { ' ' } else { letter })?;
    }
    Ok(())
}

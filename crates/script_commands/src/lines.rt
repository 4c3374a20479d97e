//! The next line of a reader, of bounded length.
//!
//! Easy to get wrong: a last line without a newline is a line, and an empty line is not the end.
ghost use Rattle.std.specs.Prelude.{◌≡◌, ◌≢◌, ◌&&◌, ℕ, ◌≤◌, List, [], ◌∷◌, ◌++◌, length, take, Some, IfOk, IfErr};
ghost use Rattle.std.specs.IoError.{error_kind};
ghost use Rattle.text_words.specs.Words as spec;
ghost use Rattle.script_commands.specs.Lines.{line_limit, found_of, next_number, IsNextLine};

use crate::bytes::{MOST_READS, next_byte};
use std::alloc::{AllocError, Global};
use std::io::{self, ErrorKind, Read};
use std::marker::Model;

/// The most bytes of a line, without its newline.
pub const LINE_LIMIT: usize = 65_536;

/// What a call of [`LineReader::read`] has found.
#[derive(Clone, Copy, Debug, PartialEq, Eq)]
pub enum Found {
    /// A line of at most [`LINE_LIMIT`] bytes, which the reader holds.
    Line,
    /// A longer line, which was passed over; the reader holds its first bytes. It may be one of blanks alone.
    LongLine { is_blank: bool },
    /// No byte is left.
    End,
}

impl Found {
    // What is found of a line of this length, which may be one of blanks alone.
    fn of(length: u64, is_blank: bool) -> Found
        ensures { result ≡ found_of length is_blank }
    {
        if length <= LINE_LIMIT as u64 {
            Found::Line
        } else {
            Found::LongLine { is_blank }
        }
    }
}

/// A line at a time, in memory that is taken once. Contracts see the line that it holds, and its number.
#[derive(Drop)]
pub struct LineReader {
    line: Vec<u8>,
    number: u64,
}

impl Model for LineReader {
    ghost use Rattle.std.specs.Prelude.{◌≤◌, length, vec_capacity};
    ghost use Rattle.script_commands.specs.Lines.{Held, line_limit};

    ghost Value = { Held };

    ghost view = { λ r. record { line = r.line.items; number = r.number } };

    ghost invariant = { λ r. (length r.line.items ≤ line_limit) × (line_limit ≤ vec_capacity r.line) };
}

impl LineReader {
    /// Takes the memory for a line, so that reading needs none.
    pub fn new(alloc: Global) -> Result<LineReader, AllocError>
        ensures { IfOk result (λ r. r ≡ record { line = []; number = 0 }) }
    {
        let line = Vec::with_capacity(alloc, LINE_LIMIT)?;
        Ok(LineReader { line, number: 0 })
    }

    /// The line that was read last.
    pub fn line(&self) -> &[u8]
        ensures value { result.now ≡ self.now.line }
        ensures bound { length result.now ≤ line_limit }
    {
        self.line.as_slice()
    }

    /// The number of the line that was read last, from 1. The end has one too, and so does a line that could not be read. Past 2^64 - 1 it stands.
    pub fn number(&self) -> u64
        ensures { result ≡ self.now.number }
    {
        self.number
    }

    /// Reads the next line, and says what was found; the lines after it stay in the input.
    ///
    /// After an error a part of a line may be lost. A line of 2^40 bytes ends in an error, and so do 2^40 interrupted reads.
    pub fn read<R: Read>(&mut self, input: &mut R) -> io::Result<Found>
        ensures next { IfOk result (λ found. (bytes : List ℕ) → R.remaining input.old ≡ Some bytes
            → IsNextLine bytes found self.new.line (R.remaining input.new)) }
        ensures number { self.new.number ≡ next_number self.old.number }
        ensures retried { IfErr result (λ e. error_kind e ≢ ErrorKind.Interrupted) }
    {
        self.begin();
        let mut is_blank = true;
        for length in 0..MOST_READS {
            match next_byte(input)? {
                None if length == 0 => return Ok(Found::End),
                None => return Ok(Found::of(length, is_blank)),
                Some(b'\n') => return Ok(Found::of(length, is_blank)),
                Some(byte) => {
                    is_blank = is_blank_after(is_blank, byte);
                    self.keep(byte);
                }
            }
        }
        Err(io::Error::from(ErrorKind::Other))
    }

    // Holds nothing of the next line.
    fn begin(&mut self)
        ensures { self.new ≡ record { line = []; number = next_number self.old.number } }
    {
        self.line.clear();
        self.number = self.number.saturating_add(1);
    }

    // Adds a byte, where there is room.
    fn keep(&mut self, byte: u8)
        ensures line { self.new.line ≡ take line_limit (self.old.line ++ byte ∷ []) }
        ensures number { self.new.number ≡ self.old.number }
    {
        if self.line.len() < LINE_LIMIT {
            self.line.push_reserved(byte);
        }
    }
}

// Whether a line is of blanks alone, with one more byte.
fn is_blank_after(is_blank: bool, byte: u8) -> bool
    ensures { result ≡ (is_blank && spec.is_blank byte) }
{
    is_blank && text_words::is_blank(byte)
}

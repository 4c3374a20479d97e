//! What a script is made of.
use crate::console::Console;
use crate::sources::Sources;
use std::io::{Read, Write};

/// A script: where its lines come from, where their answers go, where the texts of `load PATH` and `replace PATH` come from, and what tells
/// a person what they do not say.
#[derive(Drop)]
pub struct Script<R: Read + Drop, W: Write + Drop, F: Sources, P: Console> {
    /// Its lines. They are read byte by byte, so it should have a buffer.
    pub input: R,
    /// The answers.
    pub output: W,
    /// The texts of `load PATH` and `replace PATH`.
    pub sources: F,
    /// What a person is told beside the answers.
    pub console: P,
}

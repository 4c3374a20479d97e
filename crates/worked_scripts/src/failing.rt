//! A reader and a writer that fail after so many calls.
use std::alloc::Global;
use std::io::{self, ErrorKind, Read, Write};

/// How many reads of a script, and how many writes of its answers, do not fail.
#[derive(Clone, Copy)]
pub(crate) struct Calls {
    pub reads: usize,
    pub writes: usize,
}

impl Calls {
    /// Nothing fails.
    pub fn all() -> Calls {
        Calls {
            reads: usize::MAX,
            writes: usize::MAX,
        }
    }
}

fn call(calls: &mut usize) -> io::Result<()> {
    if *calls == 0 {
        return Err(io::Error::from(ErrorKind::BrokenPipe));
    }
    *calls -= 1;
    Ok(())
}

/// A reader of a text whose reads fail after so many.
#[derive(Drop)]
pub(crate) struct Source<'a> {
    pub text: &'a [u8],
    pub calls: usize,
}

impl Read for Source<'_> {
    fn read(&mut self, buffer: &mut [u8]) -> io::Result<usize> {
        call(&mut self.calls)?;
        self.text.read(buffer)
    }
}

/// A writer that takes a byte at each write, and keeps it; its writes fail after so many.
#[derive(Drop)]
pub(crate) struct Sink {
    pub bytes: Vec<u8>,
    pub calls: usize,
}

impl Sink {
    /// A writer that has taken nothing.
    pub fn new(alloc: Global, calls: usize) -> Sink {
        Sink {
            bytes: Vec::new(alloc),
            calls,
        }
    }
}

impl Write for Sink {
    fn write(&mut self, bytes: &[u8]) -> io::Result<usize> {
        call(&mut self.calls)?;
        match bytes.first() {
            Some(byte) => {
                self.bytes.push(*byte)?;
                Ok(1)
            }
            None => Ok(0),
        }
    }

    fn flush(&mut self) -> io::Result<()> {
        call(&mut self.calls)
    }
}

//! Files by their paths.
ghost use Rattle.std.specs.Prelude.{◌≡◌, ◌≢◌, ◌<◌, ◌≤◌, IfErr, IfOk, IsOk, length, string_bytes};
ghost use Rattle.std.specs.Str.{IsUtf8};
ghost use Rattle.std.specs.IoError.{error_kind};
ghost use Rattle.script_commands.specs.declared.commands.SourceFault.TheVariants.{NoEnd, NotText, TooLong};
ghost use Rattle.script_runner.specs.SystemFaults.{file_fault};

use graph_file::TEXT_LIMIT;
use script_commands::SourceFault;
use script_reader::Sources;
use std::alloc::Global;
use std::fs;
use std::io::{self, ErrorKind, Read};
use std::rt::Files;

/// The files of the system. A path is one from the folder in which the program was started on, or begins with `/`.
#[derive(Drop)]
pub struct FileSources<R: Files + Drop> {
    rt: R,
    alloc: Global,
}

impl<R: Files + Drop> FileSources<R> {
    /// The files of this runtime.
    pub fn new(rt: R, alloc: Global) -> FileSources<R> {
        FileSources { rt, alloc }
    }
}

impl<R: Files + Drop> Sources for FileSources<R> {
    ghost gives = { λ s given later. Unit {0} };

    ghost begins = { λ s. tt };

    fn text(&mut self, path: &str) -> Result<String, SourceFault> {
        match read_file(&self.rt, self.alloc, path) {
            Ok(bytes) => text_of(bytes),
            Err(error) => Err(fault_of(&error)),
        }
    }
}

// The text of a file that has these bytes, if it is one.
fn text_of(bytes: Vec<u8>) -> Result<String, SourceFault>
    ensures text { IfOk result (λ text. (string_bytes text ≡ bytes.items) × (length bytes.items ≤ 1_048_576)) }
    ensures taken { length bytes.items ≤ 1_048_576 → IsUtf8 bytes.items → IsOk result }
    ensures long { 1_048_576 < length bytes.items → result ≡ Err TooLong }
    ensures fault { length bytes.items ≤ 1_048_576 → IfErr result (λ f. f ≡ NotText) }
    ensures file { IfErr result (λ f. f ≢ NoEnd) }
{
    if bytes.len() > TEXT_LIMIT {
        return Err(SourceFault::TooLong);
    }
    match String::from_utf8(bytes) {
        Ok(text) => Ok(text),
        Err(_) => Err(SourceFault::NotText),
    }
}

// Why the system gave no bytes.
fn fault_of(error: &io::Error) -> SourceFault
    ensures fault { result ≡ file_fault (error_kind error.now) }
    ensures file { result ≢ NoEnd }
{
    match error.kind() {
        ErrorKind::OutOfMemory => SourceFault::Memory,
        _ => SourceFault::Unreadable,
    }
}

// The bytes of a file, and of a longer one one more than it may have.
fn read_file<R: Files>(rt: &R, alloc: Global, path: &str) -> io::Result<Vec<u8>> {
    let mut bytes = Vec::new(alloc);
    let file = fs::open(rt, path)?;
    file.take(TEXT_LIMIT as u64 + 1).read_to_end(&mut bytes)?;
    Ok(bytes)
}

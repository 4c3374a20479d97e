//! The next byte of a reader.
ghost use Rattle.std.specs.Prelude.{◌≡◌, ◌≢◌, ℕ, List, Some, IfOk, IfErr};
ghost use Rattle.std.specs.IoError.{error_kind};
ghost use Rattle.script_commands.specs.Lines.{IsNextByte};

use std::io::{self, ErrorKind, Read};

// How often a byte is asked for, and how many bytes a line may have, before reading ends in an error.
pub(crate) const MOST_READS: u64 = 1 << 40;

// The next byte, or `None` at the end. An interrupted read is tried again.
pub(crate) fn next_byte<R: Read>(input: &mut R) -> io::Result<Option<u8>>
    ensures next { IfOk result (λ byte. (bytes : List ℕ) → R.remaining input.old ≡ Some bytes
        → IsNextByte bytes byte (R.remaining input.new)) }
    ensures retried { IfErr result (λ e. error_kind e ≢ ErrorKind.Interrupted) }
{
    let mut buffer = [0];
    for _ in 0..MOST_READS {
        match input.read(&mut buffer) {
            Ok(0) => return Ok(None),
            Ok(_) => return Ok(Some(buffer[0])),
            Err(e) if e.kind() == ErrorKind::Interrupted => {}
            Err(e) => return Err(e),
        }
    }
    Err(io::Error::from(ErrorKind::Other))
}

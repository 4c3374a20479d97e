//! What the program prints, and ends with, where it could not do what it was to do.
ghost use Rattle.std.specs.Prelude.{◌≡◌};
ghost use Rattle.script_reader.specs.Statuses.{failure_status};
ghost use Rattle.dagsched.specs.Scripts.{UnlessFailed};

use crate::telling::tell_fault;
use answer_lines::{Shown, put};
use director::Fault;
use script_reader::failure_status;
use std::io::{self, ErrorKind};

/// Prints that memory ran out; the status.
pub fn out_of_memory(rt: &HostRuntime) -> u8
    ensures { result ≡ 4 }
{
    let _ = println!(rt; "memory");
    4
}

/// The status of what the system stopped by an error. If that is that memory ran out, it is printed.
pub fn put_error(rt: &HostRuntime, error: io::Error) -> u8
    ensures { result ≡ 4 }
{
    if error.kind() == ErrorKind::OutOfMemory {
        return out_of_memory(rt);
    }
    4
}

/// Prints why a record is not opened, and tells it; the status.
pub fn put_failure(rt: &HostRuntime, fault: &Fault) -> u8
    ensures { UnlessFailed (failure_status fault.now) result }
{
    match put(&mut rt.stdout(), Shown::Failure(fault)) {
        Ok(()) => {
            tell_fault(rt, &[], Shown::Failure(fault));
            failure_status(fault)
        }
        Err(error) => put_error(rt, error),
    }
}

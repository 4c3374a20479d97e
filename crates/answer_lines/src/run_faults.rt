//! The lines of a clock that gives no moment, and of a run that ended with a fault.
ghost use Rattle.std.specs.Prelude.{OnOk};
ghost use Rattle.std.specs.Io.KnownBytes.{Appends};
ghost use Rattle.answer_lines.specs.RunFaults.{clock_text, end_text};

use sessions::{ClockFault, ConductFault};
use std::io::{self, Write};

// Writes `clock N Name`, and `memory` for want of memory.
pub(crate) fn put_clock_fault<W: Write>(output: &mut W, fault: ClockFault) -> io::Result<()>
    ensures { OnOk result (Appends (W.contents output.old) (W.contents output.new) (clock_text fault)) }
{
    match fault {
        ClockFault::NoClock => output.write_all(b"clock 1 NoClock\n"),
        ClockFault::OutOfRange => output.write_all(b"clock 2 OutOfRange\n"),
        ClockFault::Memory => output.write_all(b"memory\n"),
    }
}

// Writes `conduct N Name`, and `memory` for want of memory.
pub(crate) fn put_end<W: Write>(output: &mut W, fault: &ConductFault) -> io::Result<()>
    ensures { OnOk result (Appends (W.contents output.old) (W.contents output.new) (end_text fault.now)) }
{
    match fault {
        ConductFault::NoWorker => output.write_all(b"conduct 1 NoWorker\n"),
        ConductFault::SpawnRefused => output.write_all(b"conduct 2 SpawnRefused\n"),
        ConductFault::StoreThrice(_) => output.write_all(b"conduct 3 StoreThrice\n"),
        ConductFault::ReadFault => output.write_all(b"conduct 4 ReadFault\n"),
        ConductFault::Memory => output.write_all(b"memory\n"),
        ConductFault::Unequal => output.write_all(b"conduct 6 Unequal\n"),
    }
}

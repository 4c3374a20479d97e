//! The lines of lines that are no command, and of texts that could not be had.
ghost use Rattle.std.specs.Prelude.{◌≡◌, OnOk};
ghost use Rattle.std.specs.Io.KnownBytes.{Appends};
ghost use Rattle.answer_lines.specs.CommandFaults as spec;

use command_words::UsageFault;
use moment_core::MomentFault;
use script_commands::{CommandFault, SourceFault};
use std::io::{self, Write};

// Writes `usage N Name` or `source N Name`, and `memory` for want of memory.
pub(crate) fn put_command_fault<W: Write>(output: &mut W, fault: CommandFault) -> io::Result<()>
    ensures { OnOk result (Appends (W.contents output.old) (W.contents output.new)
        (spec.command_fault_text fault)) }
{
    match fault {
        CommandFault::Usage(fault) => put_usage_fault(output, fault),
        CommandFault::Source(fault) => put_source_fault(output, fault),
    }
}

fn put_usage_fault<W: Write>(output: &mut W, fault: UsageFault) -> io::Result<()>
    ensures { OnOk result (Appends (W.contents output.old) (W.contents output.new)
        (spec.usage_text fault)) }
{
    match fault {
        UsageFault::Words => output.write_all(b"usage 1 Words\n"),
        UsageFault::BadName => output.write_all(b"usage 2 BadName\n"),
        UsageFault::BadMoment(fault) => {
            let name = moment_fault_name(fault);
            writeln!(output, "usage 3 BadMoment {name}")
        }
        UsageFault::NotHere => output.write_all(b"usage 4 NotHere\n"),
        UsageFault::BadLine => output.write_all(b"usage 5 BadLine\n"),
        UsageFault::BadState => output.write_all(b"usage 6 BadState\n"),
        UsageFault::Memory => output.write_all(b"memory\n"),
    }
}

fn put_source_fault<W: Write>(output: &mut W, fault: SourceFault) -> io::Result<()>
    ensures { OnOk result (Appends (W.contents output.old) (W.contents output.new)
        (spec.source_text fault)) }
{
    match fault {
        SourceFault::Unreadable => output.write_all(b"source 1 Unreadable\n"),
        SourceFault::NotText => output.write_all(b"source 2 NotText\n"),
        SourceFault::TooLong => output.write_all(b"source 3 TooLong\n"),
        SourceFault::Memory => output.write_all(b"memory\n"),
        SourceFault::NoEnd => output.write_all(b"source 5 NoEnd\n"),
    }
}

fn moment_fault_name(fault: MomentFault) -> &'static str
    ensures { result.now ≡ spec.moment_fault_text fault }
{
    match fault {
        MomentFault::Shape => "1 Shape",
        MomentFault::NoSuchDate => "2 NoSuchDate",
        MomentFault::OutOfRange => "3 OutOfRange",
    }
}

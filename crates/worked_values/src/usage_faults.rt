//! Why words are no command, as a script's answer has it.
use command_words::UsageFault;
use moment_core::MomentFault;
use std::io;

/// Writes `usage` with a fault's number and name.
pub(crate) fn write_fault(rt: &HostRuntime, fault: UsageFault) -> io::Result<()> {
    match fault {
        UsageFault::Words => rt.print("usage 1 Words"),
        UsageFault::BadName => rt.print("usage 2 BadName"),
        UsageFault::BadMoment(fault) => write_moment_fault(rt, fault),
        UsageFault::NotHere => rt.print("usage 4 NotHere"),
        UsageFault::BadLine => rt.print("usage 5 BadLine"),
        UsageFault::BadState => rt.print("usage 6 BadState"),
        UsageFault::Memory => rt.print("memory"),
    }
}

fn write_moment_fault(rt: &HostRuntime, fault: MomentFault) -> io::Result<()> {
    rt.print("usage 3 BadMoment ")?;
    match fault {
        MomentFault::Shape => rt.print("1 Shape"),
        MomentFault::NoSuchDate => rt.print("2 NoSuchDate"),
        MomentFault::OutOfRange => rt.print("3 OutOfRange"),
    }
}

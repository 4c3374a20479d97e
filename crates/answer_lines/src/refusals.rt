//! The lines of refusals.
ghost use Rattle.std.specs.Prelude.{◌++◌, codes, OnOk};
ghost use Rattle.std.specs.Fmt.{decimal};
ghost use Rattle.std.specs.Io.KnownBytes.{Appends};
ghost use Rattle.moment_core.specs.Printing.{text_of};
ghost use Rattle.answer_lines.specs.Refusals as spec;

use crate::dag_faults::put_dag_fault;
use crate::graph_faults::put_graph_fault;
use graph_file::Name;
use moment_core::Moment;
use pool_book::PoolFault;
use sched_events::Refusal;
use std::io::{self, Write};

// Writes `refused N Name` with what the refusal carries, and `memory` for want of memory.
pub(crate) fn put_refusal<W: Write>(output: &mut W, refusal: &Refusal) -> io::Result<()>
    ensures { OnOk result (Appends (W.contents output.old) (W.contents output.new)
        (spec.refusal_text refusal.now)) }
{
    match refusal {
        Refusal::GraphFault(fault) => {
            output.write_all(b"refused 1 GraphFault ")?;
            put_graph_fault(output, *fault)?;
            output.write_all(b"\n")
        }
        Refusal::DagFault(fault) => {
            output.write_all(b"refused 2 DagFault ")?;
            put_dag_fault(output, fault)?;
            output.write_all(b"\n")
        }
        Refusal::UnknownPool(pool) => put_named(output, "refused 3 UnknownPool ", pool),
        Refusal::TooManyGraphs => output.write_all(b"refused 4 TooManyGraphs\n"),
        Refusal::GraphDiffers => output.write_all(b"refused 5 GraphDiffers\n"),
        Refusal::UnknownGraph => output.write_all(b"refused 6 UnknownGraph\n"),
        Refusal::UnknownTask => output.write_all(b"refused 7 UnknownTask\n"),
        Refusal::ClockBack(moment) => put_dated(output, "refused 8 ClockBack ", *moment),
        Refusal::BadSpan => output.write_all(b"refused 9 BadSpan\n"),
        Refusal::RunExists => output.write_all(b"refused 10 RunExists\n"),
        Refusal::NoInterval => output.write_all(b"refused 11 NoInterval\n"),
        Refusal::InFlight(serial) => put_numbered(output, "refused 12 InFlight ", *serial),
        Refusal::NotInFlight(serial) => put_numbered(output, "refused 13 NotInFlight ", *serial),
        Refusal::OutOfTurn(serial) => put_numbered(output, "refused 14 OutOfTurn ", *serial),
        Refusal::PoolFault(fault) => put_pool_fault(output, *fault),
        Refusal::LanesTooMany => output.write_all(b"refused 16 LanesTooMany\n"),
        Refusal::RecordFull => output.write_all(b"refused 17 RecordFull\n"),
        Refusal::OtherTasks(task) => put_named(output, "refused 18 OtherTasks ", task),
        Refusal::OtherSlots(task) => put_named(output, "refused 19 OtherSlots ", task),
        Refusal::Redoes(moment) => put_dated(output, "refused 20 Redoes ", *moment),
        Refusal::UnknownRun => output.write_all(b"refused 21 UnknownRun\n"),
        Refusal::Memory => output.write_all(b"memory\n"),
    }
}

// Writes the words, and a name.
fn put_named<W: Write>(output: &mut W, words: &str, name: &Name) -> io::Result<()>
    ensures { OnOk result (Appends (W.contents output.old) (W.contents output.new)
        (words.now ++ name.now ++ codes "\n")) }
{
    let name = name.as_str();
    writeln!(output, "{words}{name}")
}

// Writes the words, and a moment.
fn put_dated<W: Write>(output: &mut W, words: &str, moment: Moment) -> io::Result<()>
    ensures { OnOk result (Appends (W.contents output.old) (W.contents output.new)
        (words.now ++ text_of moment ++ codes "\n")) }
{
    writeln!(output, "{words}{moment}")
}

// Writes the words, and the serial of a try.
fn put_numbered<W: Write>(output: &mut W, words: &str, serial: u64) -> io::Result<()>
    ensures { OnOk result (Appends (W.contents output.old) (W.contents output.new)
        (words.now ++ decimal serial ++ codes "\n")) }
{
    writeln!(output, "{words}{serial}")
}

fn put_pool_fault<W: Write>(output: &mut W, fault: PoolFault) -> io::Result<()>
    ensures { OnOk result (Appends (W.contents output.old) (W.contents output.new)
        (spec.pool_fault_text fault)) }
{
    match fault {
        PoolFault::TooManyPools => output.write_all(b"refused 15 PoolFault 1 TooManyPools\n"),
        PoolFault::Memory => output.write_all(b"memory\n"),
    }
}

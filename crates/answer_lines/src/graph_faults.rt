//! The faults of files that are no graph files.
ghost use Rattle.std.specs.Prelude.{◌≡◌, ◌++◌, OnOk};
ghost use Rattle.std.specs.Io.KnownBytes.{Appends};
ghost use Rattle.answer_lines.specs.GraphFaults as spec;

use cron_timetable::CronFault;
use graph_file::{GraphFault, Place};
use std::io::{self, Write};

// Writes the number and the name of a graph's fault, with its place or its cron fault.
pub(crate) fn put_graph_fault<W: Write>(output: &mut W, fault: GraphFault) -> io::Result<()>
    ensures { OnOk result (Appends (W.contents output.old) (W.contents output.new)
        (spec.graph_fault_text fault)) }
{
    match fault {
        GraphFault::NotToml => output.write_all(b"1 NotToml"),
        GraphFault::UnknownKey(place) => put_placed(output, "2 UnknownKey ", place),
        GraphFault::WrongType(place) => put_placed(output, "3 WrongType ", place),
        GraphFault::MissingKey(place) => put_placed(output, "4 MissingKey ", place),
        GraphFault::BadName(place) => put_placed(output, "5 BadName ", place),
        GraphFault::BadValue(place) => put_placed(output, "6 BadValue ", place),
        GraphFault::Cron(fault) => {
            let name = cron_fault_name(fault);
            write!(output, "7 Cron {name}")
        }
        GraphFault::NoTask => output.write_all(b"8 NoTask"),
        GraphFault::TooMany => output.write_all(b"9 TooMany"),
        GraphFault::Memory => output.write_all(b"10 Memory"),
    }
}

// Writes a fault's name and its place.
fn put_placed<W: Write>(output: &mut W, name: &str, place: Place) -> io::Result<()>
    ensures { OnOk result (Appends (W.contents output.old) (W.contents output.new)
        (name.now ++ spec.place_text place)) }
{
    match place {
        Place::Top => write!(output, "{name}top"),
        Place::Task(number) => write!(output, "{name}task {number}"),
    }
}

fn cron_fault_name(fault: CronFault) -> &'static str
    ensures { result.now ≡ spec.cron_fault_text fault }
{
    match fault {
        CronFault::FieldCount => "1 FieldCount",
        CronFault::BadNumber => "2 BadNumber",
        CronFault::OutOfField => "3 OutOfField",
        CronFault::BadRange => "4 BadRange",
        CronFault::BadStep => "5 BadStep",
        CronFault::NeverFires => "6 NeverFires",
        CronFault::UnknownPreset => "7 UnknownPreset",
    }
}

//! The faults of files that are no graphs.
ghost use Rattle.std.specs.Prelude.{OnOk};
ghost use Rattle.std.specs.List.{flat_map};
ghost use Rattle.std.specs.Io.KnownBytes.{Appends};
ghost use Rattle.answer_lines.specs.Runs.{after_blank};
ghost use Rattle.answer_lines.specs.DagFaults.{dag_fault_text};

use dag_check::DagFault;
use graph_file::Name;
use std::io::{self, Write};

// Writes the number and the name of a fault, with the task's position or the names of a cycle.
pub(crate) fn put_dag_fault<W: Write>(output: &mut W, fault: &DagFault) -> io::Result<()>
    ensures { OnOk result (Appends (W.contents output.old) (W.contents output.new)
        (dag_fault_text fault.now)) }
{
    match fault {
        DagFault::DoubleTask(position) => write!(output, "1 DoubleTask {position}"),
        DagFault::UnknownUpstream(position) => write!(output, "2 UnknownUpstream {position}"),
        DagFault::DoubleEdge(position) => write!(output, "3 DoubleEdge {position}"),
        DagFault::Cycle(names) => {
            output.write_all(b"4 Cycle")?;
            put_names(output, names.as_slice())
        }
        DagFault::Memory => output.write_all(b"5 Memory"),
    }
}

// Writes each name after a blank.
fn put_names<W: Write>(output: &mut W, names: &[Name]) -> io::Result<()>
    ensures { OnOk result (Appends (W.contents output.old) (W.contents output.new)
        (flat_map after_blank names.now)) }
{
    for name in names {
        put_name(output, name)?;
    }
    Ok(())
}

fn put_name<W: Write>(output: &mut W, name: &Name) -> io::Result<()>
    ensures { OnOk result (Appends (W.contents output.old) (W.contents output.new)
        (after_blank name.now)) }
{
    let name = name.as_str();
    write!(output, " {name}")
}

//! The lines of events that are not stepped, and of records that are not opened.
ghost use Rattle.std.specs.Prelude.{◌≡◌, OnOk};
ghost use Rattle.std.specs.Io.KnownBytes.{Appends};
ghost use Rattle.answer_lines.specs.RecordFaults as spec;

use crate::refusals::put_refusal;
use record_rows::Table;
use sessions::{Fault, StoreFault};
use std::io::{self, Write};

// Writes the line of a fault: `refused N Name`, `store N Name`, or `memory`.
pub(crate) fn put_failure<W: Write>(output: &mut W, fault: &Fault) -> io::Result<()>
    ensures { OnOk result (Appends (W.contents output.old) (W.contents output.new)
        (spec.failure_text fault.now)) }
{
    match fault {
        Fault::Refused(refusal) => put_refusal(output, refusal),
        Fault::Store(fault) => put_store_fault(output, fault),
        Fault::Memory => output.write_all(b"memory\n"),
    }
}

fn put_store_fault<W: Write>(output: &mut W, fault: &StoreFault) -> io::Result<()>
    ensures { OnOk result (Appends (W.contents output.old) (W.contents output.new)
        (spec.store_text fault.now)) }
{
    match fault {
        StoreFault::Refused(_) => output.write_all(b"store 1 Refused\n"),
        StoreFault::NotOurs => output.write_all(b"store 2 NotOurs\n"),
        StoreFault::Inconsistent(table, row) => put_inconsistent(output, *table, *row),
        StoreFault::Memory => output.write_all(b"memory\n"),
    }
}

fn put_inconsistent<W: Write>(output: &mut W, table: Table, row: usize) -> io::Result<()>
    ensures { OnOk result (Appends (W.contents output.old) (W.contents output.new)
        (spec.inconsistent_text table row)) }
{
    let table = table_name(table);
    writeln!(output, "store 3 Inconsistent {table} {row}")
}

fn table_name(table: Table) -> &'static str
    ensures { result.now ≡ spec.table_name table }
{
    match table {
        Table::Meta => "meta",
        Table::Pool => "pool",
        Table::Dag => "dag",
        Table::DagLimit => "dag_limit",
        Table::Run => "run",
        Table::Instance => "instance",
        Table::Attempt => "attempt",
    }
}

//! The rows of `list pools`.
ghost use Rattle.std.specs.Prelude.{OnOk};
ghost use Rattle.std.specs.Io.KnownBytes.{Appends};
ghost use Rattle.answer_lines.specs.Pools.{pool_line};

use sched_events::PoolRow;
use std::io::{self, Write};

// Writes `NAME SIZE OCCUPIED OPEN`.
pub(crate) fn put_pool<W: Write>(output: &mut W, row: &PoolRow<'_>) -> io::Result<()>
    ensures { OnOk result (Appends (W.contents output.old) (W.contents output.new)
        (pool_line row.now)) }
{
    let name = row.name.as_str();
    let size = row.size;
    let occupied = row.occupied;
    let open_slots = row.open_slots;
    writeln!(output, "{name} {size} {occupied} {open_slots}")
}

//! Holds as words: `SERIAL:SLOTS`, of `default_pool`.
ghost use Rattle.std.specs.Prelude.{◌≤◌};

use graph_file::{Bounded, Name};
use slot_desk::{DeskFault, Hold};
use std::alloc::{AllocError, Global};
use std::io;

/// The serial and the slots that a word says, if it does.
pub(crate) fn read_hold(word: &str) -> Option<(u64, u32)> {
    let (serial, slots) = word.split_once(':')?;
    Some((serial.parse().ok()?, slots.parse().ok()?))
}

/// A hold of `default_pool`.
pub(crate) fn hold_of(alloc: Global, serial: u64, slots: u32) -> Result<Hold, AllocError>
    requires { (1 ≤ slots) × (slots ≤ 1_000) }
{
    match Name::read(alloc, "default_pool") {
        Ok(pool) => Ok(Hold {
            serial,
            pool,
            slots: Bounded::new(slots),
        }),
        Err(_) => Err(AllocError),
    }
}

/// Writes its serial and its slots.
pub(crate) fn write_hold<R: Print>(rt: &R, hold: &Hold) -> io::Result<()> {
    let serial = hold.serial;
    let slots = hold.slots.get();
    print!(rt; "{serial}:{slots}")
}

/// Writes a hold behind this word.
pub(crate) fn write_named<R: Print>(rt: &R, word: &str, hold: &Hold) -> io::Result<()> {
    rt.print(word)?;
    write_hold(rt, hold)
}

/// Writes why a hold came back, and the hold.
pub(crate) fn write_refused<R: Print>(rt: &R, hold: &Hold, fault: DeskFault) -> io::Result<()> {
    print!(rt; " {fault:?}:")?;
    write_hold(rt, hold)
}

/// Writes the slots of all holds, and the holds.
pub(crate) fn write_total<R: Print>(rt: &R, slots: u64, holds: &[Hold]) -> io::Result<()> {
    print!(rt; ", slots: {slots}, holds:")?;
    write_holds(rt, holds)
}

/// Writes the holds, in their order.
pub(crate) fn write_holds<R: Print>(rt: &R, holds: &[Hold]) -> io::Result<()> {
    if holds.is_empty() {
        return rt.print(" none");
    }
    for hold in holds {
        rt.print(" ")?;
        write_hold(rt, hold)?;
    }
    Ok(())
}

//! A book with room for three holds does one word after another: `add:SERIAL:SLOTS` adds a hold, `remove:SERIAL:SLOTS` takes one out.
use crate::holds::{hold_of, read_hold, write_named, write_refused, write_total};
use slot_desk::{Hold, LimitedBook};
use std::alloc::Global;
use std::io;

/// Writes what comes of each word, and what the book has in the end.
pub(crate) fn write_answer<R: Print>(rt: &R, alloc: Global, words: &str) -> io::Result<()> {
    let mut book = LimitedBook::<3>::new(alloc);
    write_turns(rt, alloc, &mut book, words)?;
    write_total(rt, book.slots(), &book.into_holds())
}

fn write_turns<R: Print>(
    rt: &R,
    alloc: Global,
    book: &mut LimitedBook<3>,
    words: &str,
) -> io::Result<()> {
    for word in words.split(' ') {
        write_turn(rt, alloc, book, word)?;
    }
    Ok(())
}

// Does a word, and writes what comes of it.
fn write_turn<R: Print>(
    rt: &R,
    alloc: Global,
    book: &mut LimitedBook<3>,
    word: &str,
) -> io::Result<()> {
    let (verb, rest) = word.split_once(':').unwrap_or((word, ""));
    let Some((serial, slots)) = read_hold(rest) else {
        return rt.print(" no such hold");
    };
    if slots == 0 || slots > 1_000 {
        return rt.print(" no such slots");
    }
    let hold = hold_of(alloc, serial, slots)?;
    match verb {
        "add" => write_added(rt, book, hold),
        "remove" => write_removed(rt, book, &hold),
        _ => rt.print(" no such word"),
    }
}

fn write_added<R: Print>(rt: &R, book: &mut LimitedBook<3>, hold: Hold) -> io::Result<()> {
    match book.add(hold) {
        Ok(()) => rt.print(" added"),
        Err((hold, fault)) => write_refused(rt, &hold, fault),
    }
}

fn write_removed<R: Print>(rt: &R, book: &mut LimitedBook<3>, hold: &Hold) -> io::Result<()> {
    match book.remove(hold) {
        Some(hold) => write_named(rt, " removed:", &hold),
        None => rt.print(" none"),
    }
}

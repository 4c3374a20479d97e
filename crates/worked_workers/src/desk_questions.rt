//! Questions to the slot desk and its book.
//!
//! `turns SHARES WORD..` is one thread that enters and leaves with each of so many shares, `book WORD..` a book with room for three holds,
//! and `round SHARES COUNT` has each share, on a thread of its own, enter and leave so many holds.
use crate::{books, desk_rounds, desk_turns};
use std::alloc::Global;
use std::io;
use std::sync::Wait;
use std::thread::Threads;

/// Writes the answer to a question.
pub(crate) fn write_answer<R: Threads + Wait + Print + Sync>(
    rt: &R,
    alloc: Global,
    subject: &str,
    rest: &str,
) -> io::Result<()> {
    if subject == "book" {
        return books::write_answer(rt, alloc, rest);
    }
    let (shares, rest) = rest.split_once(' ').unwrap_or((rest, ""));
    let Ok(shares) = shares.parse::<usize>() else {
        return rt.print(" no such shares");
    };
    if shares == 0 || shares > 16 {
        return rt.print(" no such shares");
    }
    match subject {
        "turns" => desk_turns::write_answer(rt, alloc, shares, rest),
        "round" => desk_rounds::write_answer(rt, alloc, shares, rest),
        _ => rt.print(" no such subject"),
    }
}

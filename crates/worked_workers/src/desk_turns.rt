//! One thread does one word after another: `enter:SHARE:SERIAL:SLOTS` enters a hold with a share, `leave:SHARE:SERIAL` leaves one.
ghost use Rattle.std.specs.Prelude.{◌≡◌, ◌<◌, vec_len};

use crate::holds::{hold_of, read_hold, write_named, write_refused, write_total};
use slot_desk::{Share, SlotDesk};
use std::alloc::{AllocError, Global};
use std::io;
use std::marker::Brand;
use std::sync::Wait;
use std::sync::ledger::{Blank, Ledger};

/// What a word asks of a share.
#[derive(Clone, Copy, Debug, PartialEq, Eq)]
enum Ask {
    Enter(u64, u32),
    Leave(u64),
}

/// A word: the number of the share, from 0, and what is asked of it.
#[derive(Clone, Copy, Debug, PartialEq, Eq)]
struct Turn {
    share: usize,
    ask: Ask,
}

/// Writes what comes of each word, and what the desk holds in the end.
pub(crate) fn write_answer<R: Wait + Print>(
    rt: &R,
    alloc: Global,
    shares: usize,
    words: &str,
) -> io::Result<()>
    requires { 0 < shares }
{
    match read_turns(alloc, words)? {
        Some(turns) => {
            write_turns::<Brand, R>(rt, alloc, Blank::new(shares as u64), shares, &turns)
        }
        None => rt.print(" no such word"),
    }
}

// What the words ask, if each is one.
fn read_turns(alloc: Global, words: &str) -> Result<Option<Vec<Turn>>, AllocError> {
    let mut turns = Vec::new(alloc);
    for word in words.split(' ') {
        let Some(turn) = read_turn(word) else {
            return Ok(None);
        };
        turns.push(turn)?;
    }
    Ok(Some(turns))
}

// What a word asks, if it is one.
fn read_turn(word: &str) -> Option<Turn> {
    let (verb, rest) = word.split_once(':')?;
    let (share, rest) = rest.split_once(':')?;
    let ask = match verb {
        "enter" => {
            let (serial, slots) = read_hold(rest)?;
            Ask::Enter(serial, slots)
        }
        "leave" => Ask::Leave(rest.parse().ok()?),
        _ => return None,
    };
    Some(Turn {
        share: share.parse().ok()?,
        ask,
    })
}

// Opens a desk and does the turns. It takes no text: where a call names a desk by `Brand`, what it calls has none.
fn write_turns<L: Ledger, R: Wait + Print>(
    rt: &R,
    alloc: Global,
    blank: Blank,
    shares: usize,
    turns: &Vec<Turn>,
) -> io::Result<()>
    requires name { blank.name ≡ L.name }
    requires parts { (blank.parts ≡ L.parts) × (blank.parts ≡ shares) }
    requires some { 0 < shares }
{
    let (desk, mut shares) = SlotDesk::<L>::open(alloc, blank, shares)?;
    write_each(rt, alloc, &desk, &mut shares, turns)?;
    let total = desk.gather(shares);
    write_total(rt, total.slots, &total.holds)
}

// Does the turns, and writes what comes of each.
fn write_each<L: Ledger, R: Wait + Print>(
    rt: &R,
    alloc: Global,
    desk: &SlotDesk<L>,
    shares: &mut Vec<Share<L>>,
    turns: &Vec<Turn>,
) -> io::Result<()>
    ensures { vec_len shares.new ≡ vec_len shares.old }
{
    for turn in turns {
        write_turn(rt, alloc, desk, shares, *turn)?;
    }
    Ok(())
}

// Does a turn, and writes what comes of it.
fn write_turn<L: Ledger, R: Wait + Print>(
    rt: &R,
    alloc: Global,
    desk: &SlotDesk<L>,
    shares: &mut Vec<Share<L>>,
    turn: Turn,
) -> io::Result<()>
    ensures { vec_len shares.new ≡ vec_len shares.old }
{
    if turn.share >= shares.len() {
        return rt.print(" no such share");
    }
    let share = &mut shares[turn.share];
    match turn.ask {
        Ask::Enter(serial, slots) => write_entering(rt, alloc, desk, share, serial, slots),
        Ask::Leave(serial) => write_leaving(rt, desk, share, serial),
    }
}

// Enters a hold, and writes whether it was entered, or why it came back.
fn write_entering<L: Ledger, R: Wait + Print>(
    rt: &R,
    alloc: Global,
    desk: &SlotDesk<L>,
    share: &mut Share<L>,
    serial: u64,
    slots: u32,
) -> io::Result<()> {
    if slots == 0 || slots > 1_000 {
        return rt.print(" no such slots");
    }
    let hold = hold_of(alloc, serial, slots)?;
    match desk.enter(rt, alloc, share, hold) {
        Ok(()) => rt.print(" entered"),
        Err((hold, fault)) => write_refused(rt, &hold, fault),
    }
}

// Leaves a hold, and writes which one, or why not.
fn write_leaving<L: Ledger, R: Wait + Print>(
    rt: &R,
    desk: &SlotDesk<L>,
    share: &mut Share<L>,
    serial: u64,
) -> io::Result<()> {
    match desk.leave(rt, share, serial) {
        Ok(left) => write_named(rt, " left:", left.left().hold()),
        Err(fault) => print!(rt; " {fault:?}"),
    }
}

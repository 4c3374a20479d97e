//! A round: each share, on a thread of its own where one can be made, enters and leaves so many holds, one after another.
ghost use Rattle.std.specs.Prelude.{◌≡◌, ◌<◌, IfOk, vec_len};

use crate::holds::{hold_of, write_total};
use slot_desk::{Share, SlotDesk, Total};
use std::alloc::{AllocError, Global};
use std::marker::Brand;
use std::sync::Wait;
use std::sync::ledger::{Blank, Ledger};
use std::thread::Threads;
use std::{io, thread};

/// A share, with the holds that it is to enter and how many of them it has entered and left.
#[derive(Drop)]
struct Visitor<L: Ledger> {
    share: Share<L>,
    first_serial: u64,
    entered: u64,
    left: u64,
}

/// Writes how many holds were entered and left, and what the desk holds in the end.
pub(crate) fn write_answer<R: Threads + Wait + Print + Sync>(
    rt: &R,
    alloc: Global,
    shares: usize,
    count: &str,
) -> io::Result<()>
    requires { 0 < shares }
{
    let Ok(count) = count.parse::<u64>() else {
        return rt.print(" no such count");
    };
    write_round::<Brand, R>(rt, alloc, Blank::new(shares as u64), shares, count)
}

fn write_round<L: Ledger + Send + Sync, R: Threads + Wait + Print + Sync>(
    rt: &R,
    alloc: Global,
    blank: Blank,
    shares: usize,
    count: u64,
) -> io::Result<()>
    requires name { blank.name ≡ L.name }
    requires parts { (blank.parts ≡ L.parts) × (blank.parts ≡ shares) }
    requires some { 0 < shares }
{
    let (desk, shares) = SlotDesk::<L>::open(alloc, blank, shares)?;
    let shared = &desk;
    let visitors = thread::map_vec(
        rt,
        visitors_of(alloc, shares, count)?,
        &|visitor| visit(rt, alloc, shared, visitor, count),
    )?;
    let (entered, left, shares) = ended(alloc, visitors)?;
    write_ended(rt, entered, left, &desk.gather(shares))
}

fn write_ended<R: Print>(rt: &R, entered: u64, left: u64, total: &Total) -> io::Result<()> {
    print!(rt; " entered: {entered}, left: {left}")?;
    write_total(rt, total.slots, &total.holds)
}

// A visitor for each share, with serials of its own.
fn visitors_of<L: Ledger>(
    alloc: Global,
    shares: Vec<Share<L>>,
    count: u64,
) -> Result<Vec<Visitor<L>>, AllocError>
    ensures { IfOk result (λ v. vec_len v ≡ vec_len shares) }
{
    let mut visitors = Vec::new(alloc);
    let mut first_serial = 1;
    for share in shares {
        visitors.push(Visitor {
            share,
            first_serial,
            entered: 0,
            left: 0,
        })?;
        first_serial = first_serial.saturating_add(count);
    }
    Ok(visitors)
}

// Enters and leaves so many holds.
fn visit<L: Ledger, R: Wait>(
    rt: &R,
    alloc: Global,
    desk: &SlotDesk<L>,
    visitor: Visitor<L>,
    count: u64,
) -> Visitor<L> {
    let mut visitor = visitor;
    visit_each(rt, alloc, desk, &mut visitor, count);
    visitor
}

fn visit_each<L: Ledger, R: Wait>(
    rt: &R,
    alloc: Global,
    desk: &SlotDesk<L>,
    visitor: &mut Visitor<L>,
    count: u64,
) {
    for before in 0..count {
        let serial = visitor.first_serial.saturating_add(before);
        visit_once(rt, alloc, desk, visitor, serial);
    }
}

// Enters and leaves the hold with this serial.
fn visit_once<L: Ledger, R: Wait>(
    rt: &R,
    alloc: Global,
    desk: &SlotDesk<L>,
    visitor: &mut Visitor<L>,
    serial: u64,
) {
    let Ok(hold) = hold_of(alloc, serial, 2) else {
        return;
    };
    if desk.enter(rt, alloc, &mut visitor.share, hold).is_ok() {
        visitor.entered = visitor.entered.saturating_add(1);
    }
    if desk.leave(rt, &mut visitor.share, serial).is_ok() {
        visitor.left = visitor.left.saturating_add(1);
    }
}

// How many holds were entered and left by all, and their shares.
fn ended<L: Ledger>(
    alloc: Global,
    visitors: Vec<Visitor<L>>,
) -> Result<(u64, u64, Vec<Share<L>>), AllocError>
    ensures { IfOk result (λ r. vec_len r.2 ≡ vec_len visitors) }
{
    let mut shares = Vec::new(alloc);
    let mut entered: u64 = 0;
    let mut left: u64 = 0;
    for visitor in visitors {
        entered = entered.saturating_add(visitor.entered);
        left = left.saturating_add(visitor.left);
        shares.push(visitor.share)?;
    }
    Ok((entered, left, shares))
}

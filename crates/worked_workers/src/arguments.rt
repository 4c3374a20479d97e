//! What arguments a program gets. It writes them to a file in its folder, each with a NUL behind it, and they are compared byte by byte.
use crate::actions::read_action;
use crate::folders::path_of;
use crate::hands::Hand;
use crate::jobs::job_of;
use graph_file::{Action, Argument};
use instance_machine::Outcome;
use operators::{Operator, Program};
use std::alloc::{AllocError, Global};
use std::fs::{self, File};
use std::io;
use std::process::Processes;
use std::rt::Files;

// The arguments before those that are looked at: a shell that writes those behind its folder.
const BEFORE: usize = 4;

const SHELL: &str =
    "[\"sh\", \"-c\", 'for text in \"$@\"; do printf \"%s\\0\" \"$text\"; done > \"$0/got\"', \"@scratch\", ";

// How many bytes they have in all.
const BEFORE_BYTES: usize = 71;

/// Writes whether a program gets these arguments, which are TOML's items of an array and its end, as they are.
pub(crate) fn write_answer<R: Files<File = File> + Processes + Print + Alloc + Copy + Drop>(
    rt: &R,
    alloc: Global,
    base: &str,
    items: &str,
) -> io::Result<()> {
    let argv = format!(in alloc; "{SHELL}{items}")?;
    let Some(action) = read_action(alloc, "command", argv.as_str())? else {
        return rt.print(" no such action");
    };
    write_compared(rt, alloc, base, &action)
}

/// The same of one long argument, by which all have so many bytes.
pub(crate) fn write_long<R: Files<File = File> + Processes + Print + Alloc + Copy + Drop>(
    rt: &R,
    alloc: Global,
    base: &str,
    bytes: &str,
) -> io::Result<()> {
    let Ok(bytes) = bytes.parse::<usize>() else {
        return rt.print(" no such number");
    };
    let items = long_item(alloc, bytes)?;
    write_answer(rt, alloc, base, items.as_str())
}

// One item, by which all arguments have so many bytes, and the array's end.
fn long_item(alloc: Global, bytes: usize) -> Result<String, AllocError> {
    let mut items = String::from_str(alloc, "'")?;
    add_dollars(&mut items, bytes)?;
    items.push_str("']")?;
    Ok(items)
}

fn add_dollars(items: &mut String, bytes: usize) -> Result<(), AllocError> {
    for _ in BEFORE_BYTES..bytes {
        items.push_str("$")?;
    }
    Ok(())
}

fn write_compared<R: Files<File = File> + Processes + Print + Alloc + Copy + Drop>(
    rt: &R,
    alloc: Global,
    base: &str,
    action: &Action,
) -> io::Result<()> {
    fs::create_dir(rt, base)?;
    let program = Program::new(*rt, alloc, String::from_str(alloc, base)?, None);
    let mut hand = Hand::new(program);
    write_performed(rt, alloc, base, &mut hand, action)
}

// Performs the action, and writes what its program got while its folder is there.
fn write_performed<R: Files<File = File> + Print + Alloc, O: Operator>(
    rt: &R,
    alloc: Global,
    base: &str,
    hand: &mut Hand<O>,
    action: &Action,
) -> io::Result<()> {
    if hand.begin(job_of(alloc, 1, 1, action)?).is_err() {
        return rt.print(" not begun");
    }
    if hand.perform() != Some(Outcome::Success) {
        return rt.print(" no success");
    }
    let path = path_of(alloc, base, "try-1/got")?;
    write_file(rt, path.as_str(), action.argv())
}

// Writes how many arguments a program got that wrote them to this file.
fn write_file<R: Files<File = File> + Print + Alloc>(
    rt: &R,
    path: &str,
    argv: &[Argument],
) -> io::Result<()> {
    let got = fs::read(rt, path)?;
    write_got(rt, got.as_slice(), argv)
}

fn write_got<R: Print>(rt: &R, got: &[u8], argv: &[Argument]) -> io::Result<()> {
    let given = argv.get(BEFORE..).unwrap_or(&[]);
    let (count, total) = (given.len(), length_of(argv));
    print!(rt; " {count} of {total} bytes in all")?;
    rt.print(if are_equal(got, given) {
        ", as they are"
    } else {
        ", changed"
    })
}

fn length_of(argv: &[Argument]) -> usize {
    let mut total: usize = 0;
    for argument in argv {
        total = total.saturating_add(argument.as_str().len());
    }
    total
}

// Whether these are the bytes of the arguments, each with a NUL behind it.
fn are_equal(got: &[u8], given: &[Argument]) -> bool {
    let mut rest = got;
    for argument in given {
        let Some(after) = rest.strip_prefix(argument.as_str().as_bytes()) else {
            return false;
        };
        let Some(after) = after.strip_prefix(&[0u8]) else {
            return false;
        };
        rest = after;
    }
    rest.is_empty()
}

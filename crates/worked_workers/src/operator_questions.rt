//! Questions to the operators, with real programs and folders.
//!
//! `OPERATOR ARGV : WORDS` does one word after another with a new operator, `arguments ARGV` and `long BYTES` look at what arguments a
//! program gets, `kit OPERATOR ..` makes a kit of operators, and `starts TRIES` has 1 and 4 threads start a program so often. Folders are made
//! in the base folder, and what a question left there is removed before the next one.
use crate::{arguments, kits, operator_turns, starts};
use std::alloc::Global;
use std::rt::{Clock, Files};
use std::thread::Threads;
use std::{fs, io};

/// Writes the answer to a question.
pub(crate) fn write_answer<R: Threads + Print + Clock + Sync>(
    rt: &R,
    host: &HostRuntime,
    alloc: Global,
    base: &str,
    subject: &str,
    rest: &str,
) -> io::Result<()> {
    match subject {
        "kit" => kits::write_answer(host, alloc, base, rest),
        "arguments" => arguments::write_answer(host, alloc, base, rest),
        "long" => arguments::write_long(host, alloc, base, rest),
        "starts" => starts::write_answer(rt, host, alloc, base, rest),
        _ => operator_turns::write_answer(host, alloc, base, subject, rest),
    }?;
    let _ = fs::remove_file(host, base);
    let _ = host.remove_dir_all(alloc, base);
    Ok(())
}

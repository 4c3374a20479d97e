//! Worked records: what each event writes, what a disk that fails leaves, what a script says of it, and that two workers run at once.
//!
//! A question is a line of standard input; it is printed with its answer behind ` =>`. A line that begins with `#` and an empty line are printed as they are.
//! `rows` steps a list of events with a record, and prints the rows that each writes and those that are read at the end. `stop` stops a round at each call of its
//! files in turn, and says for each step whether the schedule before it or after it was found, in the rows and in what a director makes of them; `stop retried` does so
//! with events by which a task is tried again. `refuse N` runs a script of one task over a new record, of whose log N writes in a row are refused, after 0, 1, 2 ..
//! that are not, until a run meets none. `fuse` runs it over files that fail each call after the first 0, 1, 2 .., and says how many events were accepted, which were
//! refused since, and what the record is opened as then: after the accepted events, or after these and one of the refused. Runs that print the same share a line.
//! `beside` steps events with a record beside which others have put an index, a view and a table. `meet` has two workers wait for one another at their gates.
#![tactic(auto)]

mod alike;
mod asking;
mod beside;
mod drains;
mod events;
mod files;
mod flaky;
mod meetings;
mod parties;
mod playing;
mod printed;
mod refusals;
mod rounds;
mod scripts;
mod states;
mod stopping;
mod stops;
mod tallies;
mod teams;

use crate::asking::write_line;
use std::io;
use std::sync::Wait;
use std::thread::Threads;

fn main(rt: HostRuntime) -> io::Result<()> {
    write_page(&rt, &rt)
}

fn write_page<T: Threads + Wait + Sync>(rt: &T, host: &HostRuntime) -> io::Result<()> {
    let text = io::read_to_string(host.alloc(), host.reader())?;
    for line in text.as_str().lines() {
        write_line(rt, host, line)?;
    }
    Ok(())
}

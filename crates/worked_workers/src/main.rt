//! Worked workers: what the queues between threads, the slot desk and the operators answer to questions that are lines of standard input.
//!
//! A question is printed with its answer behind ` =>`: below the line
//! `[queues]`, `turns 0 1 stop take` as `turns 0 1 stop take => sent took:stop, left: jobs 0, reports 0`. The answers
//! are the same whatever the schedule of the threads is. With the word `time` no question is read: printed is how many jobs are sent and taken
//! a second, and how many tries are performed; with `time queues` or `time operators` one of the two.
#![tactic(auto)]

mod actions;
mod arguments;
mod books;
mod desk_questions;
mod desk_rounds;
mod desk_turns;
mod folders;
mod hands;
mod holds;
mod job_threads;
mod jobs;
mod kits;
mod operator_questions;
mod operator_turns;
mod page;
mod plain_starts;
mod queue_questions;
mod queue_rounds;
mod queue_times;
mod queue_turns;
mod report_rounds;
mod report_threads;
mod reports;
mod seats;
mod starts;
mod times;
mod tries;

use crate::page::write_page;
use crate::times::write_times;
use std::{env, io};

fn main(rt: HostRuntime) -> io::Result<()> {
    let mut words = env::args(&rt)?;
    if words.nth(1).is_some_and(|word| word.as_str() == "time") {
        return write_times(&rt, &rt, words.next());
    }
    write_page(&rt, &rt)
}

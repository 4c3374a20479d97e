//! How many tries 1 and 4 threads perform that start the program `true`, by operators of `command` and by ones that do no more than start
//! it.
use crate::actions::read_action;
use crate::plain_starts::Plain;
use crate::times::a_second;
use crate::tries::{Turn, jobs_of, perform_all};
use graph_file::Action;
use operators::{Operator, Program};
use sched_state::Job;
use std::alloc::{AllocError, Global};
use std::rt::Clock;
use std::thread::Threads;
use std::time::Instant;
use std::{fs, io};

/// Writes how many of so many tries of each thread ended with success.
pub(crate) fn write_answer<R: Threads + Print + Clock + Sync>(
    rt: &R,
    host: &HostRuntime,
    alloc: Global,
    base: &str,
    each: &str,
) -> io::Result<()> {
    let Ok(each) = each.parse() else {
        return rt.print(" no such count");
    };
    rt.println("")?;
    write_starts(rt, host, alloc, base, each, false)
}

/// Writes lines that say how many of so many tries of each thread ended with success, and where they are timed how many a second.
pub(crate) fn write_starts<R: Threads + Print + Clock + Sync>(
    rt: &R,
    host: &HostRuntime,
    alloc: Global,
    base: &str,
    each: u64,
    is_timed: bool,
) -> io::Result<()> {
    let Some(action) = read_action(alloc, "command", "[\"true\"]")? else {
        return rt.print("no action");
    };
    fs::create_dir(host, base)?;
    write_starts_of(rt, host, alloc, base, &action, each, 1, is_timed)?;
    rt.println("")?;
    write_starts_of(rt, host, alloc, base, &action, each, 4, is_timed)?;
    fs::remove_dir(host, base)
}

// Writes the lines of so many threads.
fn write_starts_of<R: Threads + Print + Clock + Sync>(
    rt: &R,
    host: &HostRuntime,
    alloc: Global,
    base: &str,
    action: &Action,
    each: u64,
    threads: u64,
    is_timed: bool,
) -> io::Result<()> {
    let tries = commands(host, alloc, base, action, each, threads)?;
    write_tries(rt, "tries", threads, is_timed, tries)?;
    rt.println("")?;
    let starts = plains(host, alloc, action, each, threads)?;
    write_tries(rt, "plain starts", threads, is_timed, starts)
}

// Operators of `command`, each with so many jobs.
fn commands(
    host: &HostRuntime,
    alloc: Global,
    base: &str,
    action: &Action,
    each: u64,
    threads: u64,
) -> Result<Vec<Turn<Program<HostRuntime>>>, AllocError> {
    let mut turns = Vec::new(alloc);
    for thread in 0..threads {
        let jobs = jobs_of(alloc, action, thread, each)?;
        turns.push(command(host, alloc, base, jobs)?)?;
    }
    Ok(turns)
}

fn command(
    host: &HostRuntime,
    alloc: Global,
    base: &str,
    jobs: Vec<Job>,
) -> Result<Turn<Program<HostRuntime>>, AllocError> {
    let base = String::from_str(alloc, base)?;
    Ok(Turn {
        operator: Program::new(*host, alloc, base, None),
        jobs,
    })
}

// Operators that only start the program, each with so many jobs.
fn plains(
    host: &HostRuntime,
    alloc: Global,
    action: &Action,
    each: u64,
    threads: u64,
) -> Result<Vec<Turn<Plain<HostRuntime>>>, AllocError> {
    let mut turns = Vec::new(alloc);
    for thread in 0..threads {
        let jobs = jobs_of(alloc, action, thread, each)?;
        turns.push(Turn {
            operator: Plain::new(*host, alloc),
            jobs,
        })?;
    }
    Ok(turns)
}

// Has the threads perform their jobs, and writes how many succeeded, and where they are timed how many a second.
fn write_tries<O: Operator + Send, R: Threads + Print + Clock + Sync>(
    rt: &R,
    what: &str,
    threads: u64,
    is_timed: bool,
    turns: Vec<Turn<O>>,
) -> io::Result<()> {
    let start = Instant::now(rt)?;
    let succeeded = perform_all(rt, turns)?;
    let time = start.elapsed(rt)?;
    print!(rt; "threads {threads}: {succeeded} {what} with success")?;
    if is_timed {
        let rate = a_second(succeeded, time);
        print!(rt; ", {rate} a second")?;
    }
    Ok(())
}

//! Worked values: what the crates below the schedule, and the reader of commands, answer to questions that are lines of standard input.
//!
//! A question is `SUBJECT WORD REST`; it is printed with its answer behind ` => `. A line that begins with `#` and an empty line are printed
//! as they are, so that the output reads as a page. Each subject has a file. With the word `time` no question is read: the searches for
//! ticks are timed.
#![tactic(auto)]

mod books;
mod commands;
mod cuts;
mod dag_files;
mod dags;
mod events;
mod expressions;
mod graphs;
mod moments;
mod rows;
mod searches;
mod tasks;
mod terms;
mod texts;
mod turns;
mod usage_faults;
mod words;

use std::{env, io};

fn main(rt: HostRuntime) -> io::Result<()> {
    if env::args(&rt)?.any(|word| word.as_str() == "time") {
        return searches::write_rates(&rt);
    }
    let text = io::read_to_string(rt.alloc(), rt.reader())?;
    for line in text.as_str().lines() {
        write_line(&rt, line)?;
    }
    Ok(())
}

// Writes a line of the page.
fn write_line(rt: &HostRuntime, line: &str) -> io::Result<()> {
    if line.is_empty() || line.starts_with('#') {
        return rt.println(line);
    }
    print!(rt; "{line} => ")?;
    write_answer(rt, line)?;
    rt.println("")
}

// Writes the answer to a question.
fn write_answer(rt: &HostRuntime, line: &str) -> io::Result<()> {
    let (subject, rest) = line.split_once(' ').unwrap_or((line, ""));
    let (word, rest) = rest.split_once(' ').unwrap_or((rest, ""));
    match subject {
        "moment" => moments::write_answer(rt, word, rest),
        "cron" => expressions::write_answer(rt, word, rest),
        "term" => terms::write_answer(rt, word, rest),
        "file" => graphs::write_answer(rt, word, rest),
        "dag" => dags::write_answer(rt, word, rest),
        "text" => texts::write_answer(rt, word, rest),
        "book" => books::write_answer(rt, word, rest),
        "instance" => turns::write_answer(rt, word, rest),
        "words" => words::write_answer(rt, word, rest),
        _ => rt.print("no such subject"),
    }
}

//! The graph files of tasks that are told in words: `'TASK' < 'UPSTREAM', ..` for each and `; ` between them, with ` weighs WEIGHT by 'RULE'`
//! behind a task that has a weight. Layers are made by number.
use crate::graphs::replaced;
use std::alloc::{AllocError, Global};
use std::fmt;

// What the words of a task stand for in TOML.
const WORDS: [(&str, &str); 4] = [
    ("; ", "]}, {operator = 'noop', task_id = "),
    (" <", ", upstream = ["),
    (" weighs ", ", priority_weight = "),
    (" by ", ", weight_rule = "),
];

const TOP: &str = "dag_id = 'one'\nschedule = 'None'\nstart_date = '2024-01-01'\n";

/// The file of tasks.
pub(crate) fn file_of(alloc: Global, tasks: &str) -> Result<String, AllocError> {
    let rows = replaced(alloc, tasks, &WORDS)?;
    format!(in alloc; "{TOP}task = [{{operator = 'noop', task_id = {rows}]}}]\n")
}

/// So many tasks in layers of so many, the last one first: each comes after all of the layer before.
pub(crate) fn layers(alloc: Global, count: u16, width: u16) -> Result<String, fmt::Error> {
    let mut tasks = String::new(alloc);
    for number in (0..count).rev() {
        let in_layer = number.checked_rem(width).unwrap_or(0);
        let start = number.saturating_sub(in_layer);
        add_task(&mut tasks, number, start.saturating_sub(width), start)?;
    }
    Ok(tasks)
}

// Adds a task by number with the upstreams from one number to before another.
fn add_task(tasks: &mut String, number: u16, from: u16, to: u16) -> Result<(), fmt::Error> {
    let blank = if tasks.is_empty() { "" } else { "; " };
    write!(tasks, "{blank}'t{number}' weighs 1000000 by 'downstream' <")?;
    for other in from..to {
        write!(tasks, " 't{other}',")?;
    }
    Ok(())
}

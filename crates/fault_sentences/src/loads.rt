//! What is said of a text that was taken in, and which graphs a script has taken in at which lines.
//!
//! No contract holds this file: the sections `told` of `worked_scripts` show what it writes.
use crate::changes::push_reach;
use crate::doubts::push_doubt;
use crate::due::push_due;
use crate::notes::push_slots;
use crate::parts::Part::Number;
use crate::parts::say_more;
use graph_file::{GraphSpec, Name, TaskSpec};
use script_reader::Schedule;
use std::alloc::{AllocError, Global};

/// A text that was taken in. The schedule has read it, so it is not read again.
#[derive(Drop)]
pub(crate) struct Taken {
    text: String,
    // Whether it replaced the text of a graph that has runs.
    is_change: bool,
    // The line of the script that had taken in another text of the graph.
    before: Option<u64>,
}

impl Taken {
    // This text, of which nothing is known.
    pub fn new(alloc: Global, text: &str, is_change: bool) -> Result<Taken, AllocError> {
        let text = String::from_str(alloc, text)?;
        Ok(Taken {
            text,
            is_change,
            before: None,
        })
    }

    // Adds what its graph has and cannot mean, and what comes of it.
    pub fn push(&self, sentence: &mut String, schedule: &Schedule) -> Result<(), AllocError> {
        let Some(spec) = self.spec(schedule) else {
            return Ok(());
        };
        push_doubt(sentence, spec)?;
        if let Some(before) = self.before {
            push_place(sentence, before)?;
        }
        push_slots(sentence, schedule, &spec.dag_id)?;
        if self.is_change {
            push_reach(sentence, schedule, &spec.dag_id)
        } else {
            push_due(sentence, schedule, &spec.dag_id)
        }
    }

    // The tasks of its graph.
    pub fn tasks<'a>(&self, schedule: &'a Schedule) -> &'a [TaskSpec] {
        match self.spec(schedule) {
            Some(spec) => spec.tasks.as_slice(),
            None => &[],
        }
    }

    // What it says, as the schedule has it.
    fn spec<'a>(&self, schedule: &'a Schedule) -> Option<&'a GraphSpec> {
        for graph in schedule.graphs() {
            if graph.text.as_str() == self.text.as_str() {
                return Some(graph.dag.spec());
            }
        }
        None
    }
}

// The graphs whose texts a script has taken in.
#[derive(Drop)]
pub(crate) struct Loads {
    rows: Vec<Row>,
}

// A graph, the line that has taken in its text, and a sum over it.
#[derive(Drop)]
struct Row {
    graph: Name,
    line: u64,
    sum: u64,
}

impl Loads {
    // With no graph yet.
    pub fn new(alloc: Global) -> Loads {
        Loads {
            rows: Vec::new(alloc),
        }
    }

    // Notes a text that was taken in at a line, and in it the line of the other text whose place a load took.
    pub fn take(
        &mut self,
        alloc: Global,
        line: u64,
        taken: &mut Taken,
        schedule: &Schedule,
    ) -> Result<(), AllocError> {
        let Some(spec) = taken.spec(schedule) else {
            return Ok(());
        };
        let before = self.line_before(alloc, &spec.dag_id, line, sum_of(taken.text.as_str()))?;
        if !taken.is_change {
            taken.before = before;
        }
        Ok(())
    }

    // Notes the text of a graph; the line that had taken in another.
    fn line_before(
        &mut self,
        alloc: Global,
        graph: &Name,
        line: u64,
        sum: u64,
    ) -> Result<Option<u64>, AllocError> {
        for row in self.rows.as_mut_slice() {
            if row.graph == *graph {
                return Ok(row.change(line, sum));
            }
        }
        let graph = graph.copy(alloc)?;
        self.rows.push(Row { graph, line, sum })?;
        Ok(None)
    }
}

impl Row {
    fn change(&mut self, line: u64, sum: u64) -> Option<u64> {
        if self.sum == sum {
            return None;
        }
        let before = self.line;
        self.line = line;
        self.sum = sum;
        Some(before)
    }
}

fn push_place(sentence: &mut String, line: u64) -> Result<(), AllocError> {
    say_more(
        sentence,
        "this took the place of the graph that line {} took in: two graphs have two ids",
        &[Number(line)],
    )
}

// A sum that another text hardly has.
fn sum_of(text: &str) -> u64 {
    let mut sum = 0xcbf2_9ce4_8422_2325_u64;
    for byte in text.bytes() {
        sum = (sum ^ u64::from(byte)).wrapping_mul(0x0100_0000_01b3);
    }
    sum
}

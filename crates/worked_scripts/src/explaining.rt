//! Why a task instance is where it is: a line for each reason, and `ok`; or what is not there.
use answer_lines::{Shown, put, put_reasons};
use command_words::Question;
use explain::{ExplainFault, Reason, explain};
use sched_core::Schedule;
use std::alloc::Global;
use std::io::{self, Write};

/// Writes the answer to a question, which is asked again where memory ran out.
pub(crate) fn answer_question<W: Write>(
    alloc: Global,
    schedule: &Schedule,
    question: &Question,
    output: &mut W,
) -> io::Result<()> {
    let answered = match reasons_for(alloc, schedule, question) {
        Err(ExplainFault::Memory) => reasons_for(alloc, schedule, question),
        answered => answered,
    };
    match answered {
        Ok(reasons) => put_reasons(output, &reasons),
        Err(fault) => put(output, Shown::Unexplained(fault)),
    }
}

fn reasons_for(
    alloc: Global,
    schedule: &Schedule,
    question: &Question,
) -> Result<Vec<Reason>, ExplainFault> {
    explain(
        alloc,
        schedule,
        &question.graph,
        question.logical,
        &question.task,
    )
}

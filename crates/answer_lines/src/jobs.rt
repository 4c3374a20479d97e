//! The lines of tries that are handed out.
ghost use Rattle.std.specs.Prelude.{OnOk};
ghost use Rattle.std.specs.Io.KnownBytes.{Appends};
ghost use Rattle.std.specs.List.{flat_map};
ghost use Rattle.answer_lines.specs.Jobs.{job_line};

use sched_state::Job;
use std::io::{self, Write};

// Writes a line for each try.
pub(crate) fn put_jobs<W: Write>(output: &mut W, jobs: &[Job]) -> io::Result<()>
    ensures { OnOk result (Appends (W.contents output.old) (W.contents output.new)
        (flat_map job_line jobs.now)) }
{
    for job in jobs {
        put_job(output, job)?;
    }
    Ok(())
}

fn put_job<W: Write>(output: &mut W, job: &Job) -> io::Result<()>
    ensures { OnOk result (Appends (W.contents output.old) (W.contents output.new)
        (job_line job.now)) }
{
    let serial = job.serial;
    let graph = job.graph.as_str();
    let logical = job.logical;
    let task = job.task.as_str();
    let number = job.try_number;
    writeln!(output, "try {serial} {graph} {logical} {task} {number}")
}

//! The rows of a schedule.
ghost use Rattle.std.specs.Prelude.{OnOk};
ghost use Rattle.std.specs.Io.KnownBytes.{Appends};
ghost use Rattle.std.specs.List.{flat_map};
ghost use Rattle.answer_lines.specs.Dags.{dag_line, dags_text};
ghost use Rattle.answer_lines.specs.Listings.{listing_text};
ghost use Rattle.answer_lines.specs.Pools.{pool_line, pools_text};
ghost use Rattle.answer_lines.specs.Runs.{run_line, runs_text};
ghost use Rattle.answer_lines.specs.Tasks.{task_line, tasks_text};
ghost use Rattle.explain.specs.sched_core.Views.{all_rows, pool_rows};

use crate::answers::put_ok;
use crate::dags::put_dag;
use crate::pools::put_pool;
use crate::runs::put_run;
use crate::tasks::put_task;
use command_words::Listing;
use sched_state::LoadedGraph;
use sessions::Schedule;
use std::io::{self, Write};

/// Writes a row for each graph, run, task instance or pool, and `ok`.
pub fn put_listing<W: Write>(
    output: &mut W,
    schedule: &Schedule,
    listing: Listing,
) -> io::Result<()>
    ensures { OnOk result (Appends (W.contents output.old) (W.contents output.new)
        (listing_text schedule.now.content listing)) }
{
    match listing {
        Listing::Dags => put_dags(output, schedule),
        Listing::Runs => put_runs(output, schedule),
        Listing::Tasks => put_tasks(output, schedule),
        Listing::Pools => put_pools(output, schedule),
    }
}

// Writes a row for each graph, and `ok`.
fn put_dags<W: Write>(output: &mut W, schedule: &Schedule) -> io::Result<()>
    ensures { OnOk result (Appends (W.contents output.old) (W.contents output.new)
        (dags_text schedule.now.content)) }
{
    put_dag_rows(output, schedule, schedule.graphs())?;
    put_ok(output)
}

// Writes a row for each of these graphs.
fn put_dag_rows<W: Write>(
    output: &mut W,
    schedule: &Schedule,
    graphs: &[LoadedGraph],
) -> io::Result<()>
    ensures { OnOk result (Appends (W.contents output.old) (W.contents output.new)
        (flat_map (dag_line schedule.now.content) graphs.now)) }
{
    for graph in graphs {
        put_dag(output, schedule, graph)?;
    }
    Ok(())
}

// Writes a row for each run, and `ok`.
fn put_runs<W: Write>(output: &mut W, schedule: &Schedule) -> io::Result<()>
    ensures { OnOk result (Appends (W.contents output.old) (W.contents output.new)
        (runs_text schedule.now.content.runs)) }
{
    put_run_rows(output, schedule)?;
    put_ok(output)
}

// Writes a row for each run.
fn put_run_rows<W: Write>(output: &mut W, schedule: &Schedule) -> io::Result<()>
    ensures { OnOk result (Appends (W.contents output.old) (W.contents output.new)
        (flat_map run_line schedule.now.content.runs)) }
{
    for run in schedule.runs() {
        put_run(output, run)?;
    }
    Ok(())
}

// Writes a row for each task instance, and `ok`.
fn put_tasks<W: Write>(output: &mut W, schedule: &Schedule) -> io::Result<()>
    ensures { OnOk result (Appends (W.contents output.old) (W.contents output.new)
        (tasks_text (all_rows schedule.now.content))) }
{
    put_task_rows(output, schedule)?;
    put_ok(output)
}

// Writes a row for each task instance.
fn put_task_rows<W: Write>(output: &mut W, schedule: &Schedule) -> io::Result<()>
    ensures { OnOk result (Appends (W.contents output.old) (W.contents output.new)
        (flat_map task_line (all_rows schedule.now.content))) }
{
    for row in schedule.instances() {
        put_task(output, &row)?;
    }
    Ok(())
}

// Writes a row for each pool, and `ok`.
fn put_pools<W: Write>(output: &mut W, schedule: &Schedule) -> io::Result<()>
    ensures { OnOk result (Appends (W.contents output.old) (W.contents output.new)
        (pools_text (pool_rows schedule.now.content))) }
{
    put_pool_rows(output, schedule)?;
    put_ok(output)
}

// Writes a row for each pool.
fn put_pool_rows<W: Write>(output: &mut W, schedule: &Schedule) -> io::Result<()>
    ensures { OnOk result (Appends (W.contents output.old) (W.contents output.new)
        (flat_map pool_line (pool_rows schedule.now.content))) }
{
    for row in schedule.pools() {
        put_pool(output, &row)?;
    }
    Ok(())
}

//! Two workers with a try each wait for one another before it. Both see the other only where they run at once.
ghost use Rattle.std.specs.Prelude.{◌≡◌, All, IfOk, length};
ghost use Rattle.graph_file.specs.declared.operators.Operator.TheVariants as kinds;
ghost use Rattle.script_runner.specs.TaskOperators.{kind_of};
ghost use Rattle.script_runner.specs.Teams.{IsWhole};

use crate::files::sound_files;
use crate::parties::Party;
use crate::scripts::run;
use crate::teams::{Waiting, Worker, worker};
use std::alloc::AllocError;
use std::io;
use std::sync::Wait;
use std::sync::atomic::Ordering;
use std::thread::Threads;

const TWO_TASKS: &str = "load inline
dag_id = \"two\"
schedule = \"@daily\"
start_date = \"2024-01-01\"
task = [{ task_id = \"a\", operator = \"noop\" }, { task_id = \"b\", operator = \"noop\" }]
.
tick 2024-01-02
drain
list tasks
";

/// Writes what the script of two tasks prints on a disk that refuses nothing, and how many workers saw the other.
pub(crate) fn write_answer<T: Threads + Wait + Sync>(rt: &T, host: &HostRuntime) -> io::Result<()> {
    let (one, two, seen) = Party::pair(host.alloc())?;
    let team = two_workers(host, one, two)?;
    let played = run(rt, host, sound_files(host.alloc()), team, TWO_TASKS)?;
    let seen = seen.load(Ordering::SeqCst);
    println!(host; "  {}; saw the other: {seen}", played.printed)
}

fn two_workers(host: &HostRuntime, one: Party, two: Party) -> Result<Vec<Worker>, AllocError>
    ensures count { IfOk result (λ team. length team.items ≡ 2) }
    ensures whole { IfOk result (λ team. All (λ w. IsWhole (kind_of (λ _. kinds.Command)) w.0.items) team.items) }
{
    let first = worker(host, Waiting::Meeting(one))?;
    let second = worker(host, Waiting::Meeting(two))?;
    let mut team = Vec::new(host.alloc());
    team.push(first)?;
    team.push(second)?;
    Ok(team)
}

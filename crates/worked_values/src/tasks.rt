//! What a graph file says of its tasks.
use graph_file::{Action, Name, TaskSpec};
use std::io;

/// Writes what the tasks say.
pub(crate) fn write_tasks(rt: &HostRuntime, tasks: &[TaskSpec]) -> io::Result<()> {
    for (i, task) in tasks.iter().enumerate() {
        if i > 0 {
            rt.print(" | ")?;
        }
        write_task(rt, task)?;
    }
    Ok(())
}

fn write_task(rt: &HostRuntime, task: &TaskSpec) -> io::Result<()> {
    rt.print(task.task_id.as_str())?;
    write_action(rt, &task.action.copy(rt.alloc())?)?;
    rt.print(", upstream")?;
    write_names(rt, task.upstream.as_slice())?;
    write_tries(rt, task)?;
    write_ranks(rt, task)
}

// The operator and its arguments, and how long a try may take if that is said, of a copy.
fn write_action(rt: &HostRuntime, action: &Action) -> io::Result<()> {
    let operator = action.operator();
    print!(rt; ", {operator:?}")?;
    for argument in action.argv() {
        let text = argument.as_str();
        print!(rt; " {text:?}")?;
    }
    match action.timeout() {
        Some(seconds) => {
            let seconds = seconds.get();
            print!(rt; ", execution_timeout {seconds}")
        }
        None => Ok(()),
    }
}

/// Writes each name after a blank.
pub(crate) fn write_names(rt: &HostRuntime, names: &[Name]) -> io::Result<()> {
    for name in names {
        let name = name.as_str();
        print!(rt; " {name}")?;
    }
    Ok(())
}

// When the task runs, and how often it is tried.
fn write_tries(rt: &HostRuntime, task: &TaskSpec) -> io::Result<()> {
    let (rule, past) = (task.trigger_rule, task.depends_on_past);
    let (retries, delay) = (task.retries.get(), task.retry_delay.get());
    print!(rt; ", {rule:?}, depends_on_past {past}, retries {retries}, retry_delay {delay}")
}

// The pool with the slots, and the weight.
fn write_ranks(rt: &HostRuntime, task: &TaskSpec) -> io::Result<()> {
    let (pool, slots) = (task.pool.as_str(), task.pool_slots.get());
    let (weight, rule) = (task.priority_weight.get(), task.weight_rule);
    print!(rt; ", pool {pool}, pool_slots {slots}, priority_weight {weight}, {rule:?}")
}

//! What a program is told of its try, in its environment (Airflow 2, `BashOperator`: `AIRFLOW_CTX_..`).
//!
//! Easy to get wrong: of two variables of one name the one that is set last counts, so they are set from the last to the first.
ghost use Rattle.std.specs.Prelude.{◌≡◌, ℕ, List, [], take, drop, Some, option_map, string_bytes, IfOk, IfSome, OnOk};
ghost use Rattle.std.specs.Option.{option_or};
ghost use Rattle.std.specs.Process.{command_var, clears_env, SameDir, SameProgramAndArgs};
ghost use Rattle.sched_state.specs.RunIds.{run_id_text};
ghost use Rattle.operators.specs.Variables.{variables_of, variable_of, value_of};

use sched_state::Job;
use std::alloc::{AllocError, Global};
use std::fmt::Display;
use std::marker::Model;
use std::process::Command;

// A variable of an environment. Contracts see its name and its value.
#[derive(Drop)]
struct Variable {
    name: &'static str,
    value: String,
}

impl Model for Variable {
    ghost use Rattle.std.specs.Prelude.{string_bytes};
    ghost use Rattle.operators.specs.Variables.{VariableText};

    ghost Value = { VariableText };

    ghost view = { λ v. record { name = v.name.now; value = string_bytes v.value } };
}

impl Variable {
    // A variable with the text of a value.
    fn of<V: Display>(alloc: Global, name: &'static str, value: &V) -> Result<Variable, AllocError>
        ensures name { IfOk result (λ variable. variable.name ≡ name.now) }
        ensures value { IfOk result (λ variable. IfSome (V.output value.now) (λ text. variable.value ≡ text)) }
    {
        let value = value.to_string(alloc)?;
        Ok(Variable { name, value })
    }
}

/// Tells a program what its try is: each variable gets its value, and hides one of its name that the scheduler has.
pub(crate) fn add_variables(
    alloc: Global,
    command: &mut Command,
    job: &Job,
    folder: &str,
) -> Result<(), AllocError>
    ensures variables { OnOk result ((name : List ℕ) → command_var command.new name
        ≡ option_or (option_map (λ v. Some v) (variable_of job.now folder.now name))
        (command_var command.old name)) }
    ensures call { OnOk result (SameProgramAndArgs command.old command.new) }
    ensures clears { OnOk result (clears_env command.new ≡ clears_env command.old) }
    ensures folder { OnOk result (SameDir command.old command.new) }
{
    set_all(command, &dates(alloc, job, folder)?)?;
    set_all(command, &names(alloc, job)?)
}

// Which try of which task it is, by Airflow's names.
fn names(alloc: Global, job: &Job) -> Result<[Variable; 5], AllocError>
    ensures { IfOk result (λ variables. variables ≡ take 5 (variables_of job.now [])) }
{
    let graph = Variable::of(alloc, "AIRFLOW_CTX_DAG_ID", &job.graph.as_str())?;
    let task = Variable::of(alloc, "AIRFLOW_CTX_TASK_ID", &job.task.as_str())?;
    let logical = Variable::of(alloc, "AIRFLOW_CTX_EXECUTION_DATE", &job.logical)?;
    let try_number = Variable::of(alloc, "AIRFLOW_CTX_TRY_NUMBER", &job.try_number)?;
    let run = Variable {
        name: "AIRFLOW_CTX_DAG_RUN_ID",
        value: run_id(alloc, job)?,
    };
    Ok([graph, task, logical, try_number, run])
}

/// The id of a job's run.
pub(crate) fn run_id(alloc: Global, job: &Job) -> Result<String, AllocError>
    ensures { IfOk result (λ id. string_bytes id ≡ run_id_text job.now.kind job.now.logical) }
{
    let logical = job.logical.to_string(alloc)?;
    let mut id = String::from_str(alloc, job.kind.name())?;
    id.push_str("__")?;
    id.push_str(logical.as_str())?;
    Ok(id)
}

// What Airflow has in templates alone, and the folder of the try.
fn dates(alloc: Global, job: &Job, folder: &str) -> Result<[Variable; 5], AllocError>
    ensures { IfOk result (λ variables. variables ≡ drop 5 (variables_of job.now folder.now)) }
{
    let start = Variable::of(alloc, "DAGSCHED_DATA_INTERVAL_START", &job.interval.start)?;
    let end = Variable::of(alloc, "DAGSCHED_DATA_INTERVAL_END", &job.interval.end)?;
    let kind = Variable::of(alloc, "DAGSCHED_RUN_TYPE", &job.kind.name())?;
    let serial = Variable::of(alloc, "DAGSCHED_SERIAL", &job.serial)?;
    let folder = Variable::of(alloc, "DAGSCHED_SCRATCH", &folder)?;
    Ok([start, end, kind, serial, folder])
}

// Sets the variables; of two of one name the first counts.
fn set_all(command: &mut Command, variables: &[Variable]) -> Result<(), AllocError>
    ensures variables { OnOk result ((name : List ℕ) → command_var command.new name
        ≡ option_or (option_map (λ v. Some v) (value_of name variables.now))
        (command_var command.old name)) }
    ensures call { OnOk result (SameProgramAndArgs command.old command.new) }
    ensures clears { OnOk result (clears_env command.new ≡ clears_env command.old) }
    ensures folder { OnOk result (SameDir command.old command.new) }
{
    let Some((first, others)) = variables.split_first() else {
        return Ok(());
    };
    set_all(command, others)?;
    command.env(first.name, first.value.as_str())?;
    Ok(())
}

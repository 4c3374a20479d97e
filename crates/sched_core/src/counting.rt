//! How many tries are without an end, in all and of each graph.
ghost use Rattle.std.specs.Prelude.{◌≡◌, ℕ, ◌+◌, ◌≤◌, List, sum_by, count_by, IfOk};
ghost use Rattle.sched_model.specs.Handout.{last_serial};
ghost use Rattle.sched_model.specs.States.{is_open};
ghost use Rattle.sched_handout.specs.Active.{count_of};
ghost use Rattle.sched_core.specs.Inside.{open_in, open_for};

use instance_machine::Instance;
use sched_handout::ActiveTries;
use sched_state::Run;
use std::alloc::{AllocError, Global};

/// How many tries of the runs are without an end.
#[derive(Debug, Drop)]
pub(crate) struct OpenTries {
    pub in_all: usize,
    pub by_graph: ActiveTries,
}

/// How many tries of these runs are without an end.
pub(crate) fn count_open(alloc: Global, runs: &[Run]) -> Result<OpenTries, AllocError>
    requires { sum_by open_in runs.now ≤ last_serial + 1 }
    ensures in_all { IfOk result (λ counted. counted.in_all ≡ sum_by open_in runs.now) }
    ensures by_graph { IfOk result (λ counted. (id : List ℕ)
        → count_of id counted.by_graph ≡ sum_by (open_for id) runs.now) }
{
    let mut in_all = 0;
    let mut by_graph = ActiveTries::new(alloc);
    for run in runs {
        let here = open_in(run);
        if here > 0 {
            by_graph.take(alloc, &run.graph, here as u64)?;
            in_all += here;
        }
    }
    Ok(OpenTries { in_all, by_graph })
}

// How many tries of a run are without an end.
fn open_in(run: &Run) -> usize
    requires { open_in run.now ≤ last_serial + 1 }
    ensures { result ≡ open_in run.now }
{
    let instances = run.instances.as_slice();
    let mut count = 0;
    for instance in instances {
        count += open_of(instance);
    }
    count
}

// How many tries of an instance are without an end.
fn open_of(instance: &Instance) -> usize
    ensures { result ≡ count_by is_open instance.now.tries }
{
    instance
        .tries()
        .iter()
        .filter(|one| one.ended.is_none())
        .count()
}

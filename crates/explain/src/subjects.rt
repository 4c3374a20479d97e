//! The task instance that is asked about.
ghost use Rattle.std.specs.Prelude.{◌≡◌, ◌<◌, length, Some};
ghost use Rattle.dag_check.specs.Graphs.{task_of};
ghost use Rattle.sched_model.specs.Schedule.{graph_named};
ghost use Rattle.explain.specs.Subjects as spec;

use crate::reasons::ExplainFault;
use graph_file::{Name, TaskSpec};
use instance_machine::Instance;
use moment_core::Moment;
use sched_core::Schedule;
use sched_state::{LoadedGraph, Run};
use std::marker::Model;
use trigger_rules::State;

// A task instance with its run and its graph.
#[derive(Drop)]
pub(crate) struct Subject<'a> {
    pub graph: &'a LoadedGraph,
    pub run: &'a Run,
    // Of its task in the graph.
    pub place: usize,
    pub task: &'a TaskSpec,
    pub instance: &'a Instance,
}

impl<'a> Model for Subject<'a> {
    ghost use Rattle.explain.specs.Subjects.{SubjectValue};

    ghost Value = { SubjectValue };

    ghost view = { λ s. record { graph = s.graph.now; run = s.run.now; place = s.place; task = s.task.now; instance = s.instance.now } };
}

impl<'a> Subject<'a> {
    // The state of the instance.
    pub fn state(&self) -> State
        ensures { result ≡ spec.state_of_subject self.now }
    {
        let instance = self.instance;
        instance.state(self.task)
    }
}

// The instance of a task in the run of a graph with this logical date, or what is not there.
pub(crate) fn subject_of<'a>(
    schedule: &'a Schedule,
    graph: &Name,
    logical: Moment,
    task: &Name,
) -> Result<Subject<'a>, ExplainFault>
    ensures { result ≡ spec.subject_of schedule.now.content graph.now logical task.now }
{
    let Some(loaded) = schedule.graph_of(graph) else {
        return Err(ExplainFault::UnknownGraph);
    };
    let Some(run) = schedule.run_of(graph, logical) else {
        return Err(ExplainFault::UnknownRun);
    };
    let Some(place) = loaded.dag.place(task) else {
        return Err(ExplainFault::UnknownTask);
    };
    with_instance(loaded, run, place)
}

// The instance at a place, with its run and its graph.
fn with_instance<'a>(
    graph: &'a LoadedGraph,
    run: &'a Run,
    place: usize,
) -> Result<Subject<'a>, ExplainFault>
    requires { place < length graph.now.dag.tasks }
    ensures { result ≡ spec.with_place graph.now run.now (Some place) }
{
    match run.instances.as_slice().get(place) {
        Some(instance) => Ok(Subject {
            graph,
            run,
            place,
            task: graph.dag.task(place),
            instance,
        }),
        None => Err(ExplainFault::UnknownTask),
    }
}

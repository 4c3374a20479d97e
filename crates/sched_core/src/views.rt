//! What a schedule shows of its runs and task instances. No view takes memory.
ghost use Rattle.std.specs.Prelude.{◌≡◌, find, option_map, slice_get};
ghost use Rattle.std.specs.Option.{option_copied};
ghost use Rattle.graph_file.specs.declared.task_specs.TaskSpec.{TaskSpec};
ghost use Rattle.instance_machine.specs.Instances.{InstanceValue};
ghost use Rattle.sched_laws.specs.Instances.{instance_of};
ghost use Rattle.sched_model.specs.Schedule.{is_at};
ghost use Rattle.sched_model.specs.States.{active_runs, active_tries, in_flight, previous};

use crate::schedules::Schedule;
use graph_file::Name;
use instance_machine::Instance;
use moment_core::Moment;
use sched_state::Run;

impl Schedule {
    /// How many tries are without an end.
    pub fn in_flight(&self) -> usize
        ensures { result ≡ in_flight self.now.content }
    {
        self.occupied.in_flight
    }

    /// How many tries of the graph with this id are without an end, over all its runs.
    pub fn active_tries(&self, id: &Name) -> u64
        ensures { result ≡ active_tries self.now.content id.now }
    {
        self.occupied.active.of(id)
    }

    /// The run of a graph with this logical date, if there is one. It is found by a binary search.
    pub fn run_of(&self, graph: &Name, logical: Moment) -> Option<&Run>
        ensures { option_copied result ≡ find (is_at graph.now logical) self.now.content.runs }
    {
        self.runs.run_of(graph, logical)
    }

    /// The run before, in its graph: the last one with an earlier logical date. It is found by a binary search.
    pub fn previous_run(&self, run: &Run) -> Option<&Run>
        ensures { option_copied result ≡ previous self.now.content run.now }
    {
        self.runs.last_before(&run.graph, run.logical)
    }

    /// How many runs of the graph are running. They are found by two binary searches among the running runs.
    pub fn active_runs(&self, id: &Name) -> usize
        ensures { result ≡ active_runs self.now.content id.now }
    {
        self.runs.running_of(id).len()
    }

    /// The instance of a task in the run of a graph with this logical date: none where there is no such run, or no such task.
    pub fn instance_of(&self, graph: &Name, logical: Moment, task: &Name) -> Option<&Instance>
        ensures { option_copied result ≡ option_map (λ (e : TaskSpec × InstanceValue). e.1)
            (instance_of self.now.content graph.now logical task.now) }
    {
        let run = self.runs.run_of(graph, logical)?;
        let place = self.graph_of(graph)?.dag.place(task)?;
        instance_at(run.instances.as_slice(), place)
    }
}

// The instance at a place.
fn instance_at(instances: &[Instance], place: usize) -> Option<&Instance>
    ensures { option_copied result ≡ slice_get instances.now place }
{
    instances.get(place)
}

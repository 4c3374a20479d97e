//! How far the task instances of a schedule are.
//!
//! No contract holds this file: the sections `told` of `worked_scripts` show what it writes.
use sched_state::{LoadedGraph, Run};
use script_reader::Schedule;
use trigger_rules::State;

// How many task instances are how far.
#[derive(Clone, Copy)]
pub(crate) struct Totals {
    // With a try without an end.
    pub(crate) in_flight: usize,
    // Success or skipped.
    pub(crate) done: usize,
    // Failed, or an upstream of them is.
    pub(crate) failed: usize,
    // For their upstreams, for slots or for their next try.
    pub(crate) waiting: usize,
}

impl Totals {
    // Goes over all task instances, once.
    pub(crate) fn of(schedule: &Schedule) -> Totals {
        let mut totals = Totals {
            in_flight: 0,
            done: 0,
            failed: 0,
            waiting: 0,
        };
        for run in schedule.runs() {
            if let Some(graph) = schedule.graph_of(&run.graph) {
                totals.add_run(graph, run);
            }
        }
        totals
    }

    // Adds those of a run of the graph.
    fn add_run(&mut self, graph: &LoadedGraph, run: &Run) {
        for (place, instance) in run.instances.as_slice().iter().enumerate() {
            if place < graph.dag.len() {
                self.add(instance.state(graph.dag.task(place)));
            }
        }
    }

    fn add(&mut self, state: State) {
        match state {
            State::Queued | State::Running => self.in_flight = self.in_flight.saturating_add(1),
            State::Success | State::Skipped => self.done = self.done.saturating_add(1),
            State::Failed | State::UpstreamFailed => self.failed = self.failed.saturating_add(1),
            State::None | State::Scheduled | State::UpForRetry => {
                self.waiting = self.waiting.saturating_add(1);
            }
        }
    }
}

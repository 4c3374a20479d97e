//! What the queues carry.
use instance_machine::Stage;
use sched_state::Job;

/// A job, or the word that the worker who takes it is to end.
#[derive(Debug, Drop)]
pub enum JobOrStop {
    /// A try to carry out.
    Job(Job),
    /// No job comes after this one for the worker who takes it.
    Stop,
}

/// What a worker tells of a try.
#[derive(Clone, Copy, Debug, PartialEq, Eq)]
pub struct Report {
    /// The number of the try's job.
    pub serial: u64,
    /// What became of the try.
    pub stage: Stage,
}

/// A report, with who told it.
#[derive(Clone, Copy, Debug, PartialEq, Eq)]
pub struct WorkerReport {
    /// The worker's number: its place, from 0, among the passes that `Lanes::open` gave.
    pub worker: u32,
    /// What it told.
    pub report: Report,
}

//! All seats of the lanes in one hand, so that one thread plays the director and each worker in turn.
ghost use Rattle.std.specs.Prelude.{◌≡◌, ◌<◌, ◌≤◌, IfOk, vec_len};
ghost use Rattle.ruled_dispatch.specs.Lanes.{AreAllOf};

use ruled_dispatch::{DirectorPass, JobOrStop, Lanes, Report, Tally, WorkerPass, WorkerReport};
use std::alloc::{AllocError, Global};
use std::sync::Wait;

/// Lanes with all of their passes.
#[derive(Drop)]
pub(crate) struct Seats {
    lanes: Lanes,
    director: DirectorPass,
    workers: Vec<WorkerPass>,
    ghost all: { AreAllOf lanes director workers.items },
}

impl Seats {
    /// New lanes.
    pub fn open(alloc: Global, lanes: usize, workers: usize) -> Result<Seats, AllocError>
        requires lanes { lanes ≤ 64 }
        requires workers { (0 < workers) × (workers ≤ 16) }
    {
        let (lanes, director, workers) = Lanes::open(alloc, lanes, workers)?;
        Ok(Seats {
            lanes,
            director,
            workers,
        })
    }

    /// The director sends.
    pub fn send<R: Wait>(&mut self, rt: &R, item: JobOrStop) -> Result<(), JobOrStop> {
        self.lanes.send(rt, &mut self.director, item)
    }

    /// The worker with this number takes; nobody does where there is none.
    pub fn take<R: Wait>(&mut self, rt: &R, worker: usize) -> Option<JobOrStop> {
        if worker >= self.workers.len() {
            return None;
        }
        self.lanes.take(rt, &mut self.workers[worker])
    }

    /// The worker with this number tells; where there is none the report comes back.
    pub fn tell<R: Wait>(&mut self, rt: &R, worker: usize, report: Report) -> Result<(), Report> {
        if worker >= self.workers.len() {
            return Err(report);
        }
        self.lanes.tell(rt, &mut self.workers[worker], report)
    }

    /// The director hears.
    pub fn hear<R: Wait>(&mut self, rt: &R) -> Option<WorkerReport> {
        self.lanes.hear(rt, &mut self.director)
    }

    /// What is left.
    pub fn tally<R: Wait>(self, rt: &R) -> Tally {
        let Seats {
            lanes,
            director,
            workers,
        } = self;
        lanes.tally(rt, director, workers)
    }
}

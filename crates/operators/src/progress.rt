//! What each operator keeps: the tries that it performed, the jobs whose folder could not be made, and the job that it has taken up.
ghost use Rattle.std.specs.Prelude.{◌≡◌, ◌↔◌, ◌<◌, ◌≤◌, None, Some, [], ◌∷◌, ◌++◌, true, false, IsSome, is_some, MatchResult, Err, OnOk};
ghost use Rattle.operators.specs.Progress.{by_serial};

use crate::BeginFault;
use crate::tries::{Performed, Remembered};
use instance_machine::Outcome;
use sched_state::Job;
use std::alloc::{AllocError, Global};
use std::marker::Model;

/// The tries that were performed, the jobs whose folder could not be made, the job that is taken up, and whether that one was performed.
///
/// While a job is taken up and not performed there is room for its outcome. Contracts see the four, and how much room there is. The jobs
/// are there for proofs alone: a program sees the serials with the outcomes.
#[derive(Drop)]
pub struct Progress {
    runs: Vec<(u64, Outcome)>,
    // the same tries, with their jobs
    tries: Vec<Performed>,
    refused: Vec<Remembered>,
    taken: Option<Remembered>,
    performed: bool,
}

impl Model for Progress {
    ghost use Rattle.std.specs.Prelude.{◌≡◌, ◌<◌, ◌-◌, min, false, IsSome, vec_len, vec_capacity};
    ghost use Rattle.operators.specs.Progress.{ProgressValue, by_serial};

    ghost Value = { ProgressValue };

    ghost view = { λ p. record {
      runs = p.tries.items;
      refused = p.refused.items;
      taken = p.taken;
      performed = p.performed;
      room = min (vec_capacity p.runs - vec_len p.runs)
          (min (vec_capacity p.tries - vec_len p.tries) (vec_capacity p.refused - vec_len p.refused));
    } };

    ghost invariant = { λ p. (p.runs.items ≡ by_serial p.tries.items)
        × (IsSome p.taken → p.performed ≡ false
        → (vec_len p.runs < vec_capacity p.runs) × (vec_len p.tries < vec_capacity p.tries)) };
}

impl Progress {
    /// No try, and no job taken up. This takes no memory.
    pub fn new(alloc: Global) -> Progress
        ensures runs { result.runs ≡ [] }
        ensures refused { result.refused ≡ [] }
        ensures taken { (result.taken ≡ None) × (result.performed ≡ false) }
    {
        Progress {
            runs: Vec::new(alloc),
            tries: Vec::new(alloc),
            refused: Vec::new(alloc),
            taken: None,
            performed: false,
        }
    }

    /// The tries that were performed, in order, by serial and outcome.
    pub fn runs(&self) -> &[(u64, Outcome)]
        ensures { result.now ≡ by_serial self.now.runs }
    {
        self.runs.as_slice()
    }

    /// Whether a job is taken up.
    pub fn is_busy(&self) -> bool
        ensures { result ≡ is_some self.now.taken }
    {
        self.taken.is_some()
    }

    /// Makes room for one more outcome.
    pub fn reserve(&mut self) -> Result<(), AllocError>
        ensures runs { self.new.runs ≡ self.old.runs }
        ensures refused { self.new.refused ≡ self.old.refused }
        ensures taken { (self.new.taken ≡ self.old.taken) × (self.new.performed ≡ self.old.performed) }
        ensures room { OnOk result (0 < self.new.room) }
        ensures kept { self.old.room ≤ self.new.room }
    {
        self.runs.reserve(1)?;
        self.tries.reserve(1)?;
        self.refused.reserve(1)?;
        Ok(())
    }

    /// Takes the job up, where there is room for its outcome.
    pub fn take_up(&mut self, job: &Job)
        requires { 0 < self.old.room }
        ensures runs { self.new.runs ≡ self.old.runs }
        ensures refused { self.new.refused ≡ self.old.refused }
        ensures taken { (self.new.taken ≡ Some job.now) × (self.new.performed ≡ false) }
    {
        self.taken = Some(Remembered::of(job));
        self.performed = false;
    }

    /// Remembers a job whose folder could not be made, where there is room for an outcome.
    pub fn refuse(&mut self, job: &Job)
        requires { 0 < self.old.room }
        ensures runs { self.new.runs ≡ self.old.runs }
        ensures refused { self.new.refused ≡ self.old.refused ++ job.now ∷ [] }
        ensures taken { (self.new.taken ≡ self.old.taken) × (self.new.performed ≡ self.old.performed) }
    {
        self.refused.push_reserved(Remembered::of(job));
    }

    /// Makes room for one more outcome, and takes the job up. An operator without a folder begins so.
    pub fn begin(&mut self, job: &Job) -> Result<(), BeginFault>
        ensures runs { self.new.runs ≡ self.old.runs }
        ensures refused { self.new.refused ≡ self.old.refused }
        ensures taken { MatchResult result
            (λ _. (self.new.taken ≡ Some job.now) × (self.new.performed ≡ false))
            (λ _. (self.new.taken ≡ self.old.taken) × (self.new.performed ≡ self.old.performed)) }
        ensures busy { (result ≡ Err BeginFault.Busy) ↔ IsSome self.old.taken }
        ensures scratch { result ≡ Err BeginFault.Scratch → ⊥ }
    {
        if self.is_busy() {
            return Err(BeginFault::Busy);
        }
        if self.reserve().is_err() {
            return Err(BeginFault::Memory);
        }
        self.take_up(job);
        Ok(())
    }

    /// Adds the outcome of the job that is taken up. This takes no memory.
    pub fn add_outcome(&mut self, job: &Job, outcome: Outcome)
        requires { (self.old.taken ≡ Some job.now) × (self.old.performed ≡ false) }
        ensures runs { self.new.runs ≡ self.old.runs ++ (job.now, outcome) ∷ [] }
        ensures refused { self.new.refused ≡ self.old.refused }
        ensures taken { (self.new.taken ≡ self.old.taken) × (self.new.performed ≡ true) }
    {
        self.runs.push_reserved((job.serial, outcome));
        self.tries.push_reserved(Performed::of(job, outcome));
        self.performed = true;
    }

    /// Gives up the job that is taken up, where one is.
    pub fn give_up(&mut self)
        ensures runs { self.new.runs ≡ self.old.runs }
        ensures refused { self.new.refused ≡ self.old.refused }
        ensures taken { self.new.taken ≡ None }
    {
        self.taken = None;
    }
}

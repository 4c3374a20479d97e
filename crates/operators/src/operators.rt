//! What each operator shows, and what its calls make of it.
ghost use Rattle.std.specs.Prelude.{◌≡◌, ◌↔◌, List, [], ◌∷◌, ◌++◌, Bool, true, false, MatchResult, Some, None, Option, Err, IsSome};
ghost use Rattle.graph_file.specs.declared.operators.Operator.{Operator as Kind};
ghost use Rattle.graph_file.specs.declared.operators.Operator.TheVariants as kinds;
ghost use Rattle.instance_machine.specs.declared.tries.Outcome.{Outcome};
ghost use Rattle.sched_state.specs.declared.jobs.Job.{Job};
ghost use Rattle.operators.specs.Outcomes.{CanEnd, refused_by};
ghost use Rattle.operators.specs.Progress.{by_serial};

use graph_file::Operator as Kind;
use instance_machine::Outcome;
use sched_state::Job;

/// Why a job was not taken up, in the order in which the causes are tested.
#[derive(Clone, Copy, Debug, PartialEq, Eq)]
pub enum BeginFault {
    /// Another job is taken up.
    Busy,
    /// There is no memory.
    Memory,
    /// The try's folder could not be made. Only `command` has one.
    Scratch,
}

/// An operator takes a job up, performs it and gives it up (Airflow 2, "Operators").
///
/// A drop gives up a job that is taken up.
pub trait Operator: Drop {
    /// The kind of the tasks whose tries it performs.
    ghost kind_of: { Self → Kind };

    /// The tries that it performed, in order: the job of each, and how it ended.
    ghost runs_of: { Self → List (Job × Outcome) };

    /// The jobs that it did not take up because their folder could not be made, in order.
    ghost refused_of: { Self → List Job };

    /// The job that is taken up.
    ghost taken: { Self → Option Job };

    /// Whether that job was performed.
    ghost performed: { Self → Bool };

    /// The kind of the tasks whose tries it performs.
    fn kind(&self) -> Kind
        ensures { result ≡ kind_of self.now };

    /// The tries that it performed, in order, by serial and outcome.
    fn runs(&self) -> &[(u64, Outcome)]
        ensures { result.now ≡ by_serial (runs_of self.now) };

    /// Takes the job up, and makes room for its outcome.
    ///
    /// A `Scratch` comes where the system refused the folder, which no clause can say.
    fn begin(&mut self, job: &Job) -> Result<(), BeginFault>
        ensures kind { kind_of self.new ≡ kind_of self.old }
        ensures runs { runs_of self.new ≡ runs_of self.old }
        ensures refused { refused_of self.new ≡ refused_of self.old ++ refused_by result job.now }
        ensures taken { MatchResult result
            (λ _. (taken self.new ≡ Some job.now) × (performed self.new ≡ false))
            (λ _. (taken self.new ≡ taken self.old) × (performed self.new ≡ performed self.old)) }
        ensures busy { (result ≡ Err BeginFault.Busy) ↔ IsSome (taken self.old) }
        ensures scratch { result ≡ Err BeginFault.Scratch → kind_of self.old ≡ kinds.Command };

    /// Performs the job that is taken up, once; it must be as it was when it was taken up. This takes no memory of the operator's own.
    fn perform(&mut self, job: &Job) -> Outcome
        requires { (taken self.old ≡ Some job.now) × (performed self.old ≡ false) }
        ensures kind { kind_of self.new ≡ kind_of self.old }
        ensures runs { runs_of self.new ≡ runs_of self.old ++ (job.now, result) ∷ [] }
        ensures refused { refused_of self.new ≡ refused_of self.old }
        ensures taken { (taken self.new ≡ taken self.old) × (performed self.new ≡ true) }
        ensures outcome { CanEnd (kind_of self.old) job.now result };

    /// Gives up the job that is taken up, where one is.
    fn finish(&mut self)
        ensures kind { kind_of self.new ≡ kind_of self.old }
        ensures runs { runs_of self.new ≡ runs_of self.old }
        ensures refused { refused_of self.new ≡ refused_of self.old }
        ensures taken { taken self.new ≡ None };
}

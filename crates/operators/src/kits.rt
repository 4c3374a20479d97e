//! Kits: one operator of each kind.
ghost use Rattle.std.specs.Prelude.{◌≡◌, ◌↔◌, None, Some, [], ◌∷◌, ◌++◌, true, false, MatchResult, Err, IfErr, IfOk, IsSome, map, All};
ghost use Rattle.graph_file.specs.declared.operators.Operator.{Operator as Kind};
ghost use Rattle.graph_file.specs.declared.operators.Operator.TheVariants as kinds;
ghost use Rattle.operators.specs.Kits.{of_kind, each_once, times, IsKit, SameBut, where_same};
ghost use Rattle.operators.specs.Outcomes.{CanEnd, refused_by};
ghost use Rattle.operators.specs.Progress.{by_serial};

use crate::{BeginFault, Operator};
use graph_file::Operator as Kind;
use instance_machine::Outcome;
use sched_state::Job;

/// One operator of each kind, which is what a worker performs jobs with.
#[derive(Drop)]
pub struct Kit<O: Operator = Box<dyn Operator + Send>> {
    noop: O,
    command: O,
    exit: O,
}

impl<O: Operator> Kit<O> {
    /// A kit of one operator of each kind, in whatever order they come. Any other list is handed back. This takes no memory.
    pub fn new(operators: Vec<O>) -> Result<Kit<O>, Vec<O>>
        ensures kit { IfOk result (λ k. IsKit O.kind_of k
            × All (λ o. of_kind k (O.kind_of o) ≡ o) operators.items) }
        ensures once { IfOk result (λ k. each_once (map O.kind_of operators.items) ≡ true) }
        ensures back { IfErr result (λ v. (v ≡ operators)
            × (each_once (map O.kind_of operators.items) ≡ false)) }
    {
        if !are_each_once(&operators) {
            return Err(operators);
        }
        let mut operators = operators;
        let (Some(third), Some(second), Some(first)) = (
            operators.pop(),
            operators.pop(),
            operators.pop(),
        ) else {
            unreachable!()
        };
        Ok(arrange(first, second, third))
    }

    /// The tries that the operator of the kind performed, in order, by serial and outcome.
    /// Nothing calls this: contracts see the same as `by_serial`.
    pub fn runs(&self, kind: Kind) -> &[(u64, Outcome)]
        ensures { result.now ≡ by_serial (O.runs_of (of_kind self.now kind)) }
    {
        match kind {
            Kind::Noop => self.noop.runs(),
            Kind::Command => self.command.runs(),
            Kind::Exit => self.exit.runs(),
        }
    }

    /// Takes the job up, by the operator of its kind.
    pub fn begin(&mut self, job: &Job) -> Result<(), BeginFault>
        requires kit { IsKit O.kind_of self.old }
        ensures kit { IsKit O.kind_of self.new }
        ensures others { SameBut job.now.action.operator self.old self.new }
        ensures runs { (k : Kind) → O.runs_of (of_kind self.new k) ≡ O.runs_of (of_kind self.old k) }
        ensures refused { (k : Kind) → O.refused_of (of_kind self.new k)
            ≡ O.refused_of (of_kind self.old k)
            ++ where_same k job.now.action.operator (refused_by result job.now) }
        ensures taken { let kind = job.now.action.operator in MatchResult result
            (λ _. (O.taken (of_kind self.new kind) ≡ Some job.now)
            × (O.performed (of_kind self.new kind) ≡ false))
            (λ _. (O.taken (of_kind self.new kind) ≡ O.taken (of_kind self.old kind))
            × (O.performed (of_kind self.new kind) ≡ O.performed (of_kind self.old kind))) }
        ensures busy { (result ≡ Err BeginFault.Busy)
            ↔ IsSome (O.taken (of_kind self.old job.now.action.operator)) }
        ensures scratch { result ≡ Err BeginFault.Scratch → job.now.action.operator ≡ kinds.Command }
    {
        match job.action.operator() {
            Kind::Noop => self.noop.begin(job),
            Kind::Command => self.command.begin(job),
            Kind::Exit => self.exit.begin(job),
        }
    }

    /// Performs the job that the operator of its kind has taken up, once; it must be as it was when it was taken up.
    pub fn perform(&mut self, job: &Job) -> Outcome
        requires kit { IsKit O.kind_of self.old }
        requires taken { let kind = job.now.action.operator in
            (O.taken (of_kind self.old kind) ≡ Some job.now)
            × (O.performed (of_kind self.old kind) ≡ false) }
        ensures kit { IsKit O.kind_of self.new }
        ensures others { SameBut job.now.action.operator self.old self.new }
        ensures runs { (k : Kind) → O.runs_of (of_kind self.new k)
            ≡ O.runs_of (of_kind self.old k)
            ++ where_same k job.now.action.operator ((job.now, result) ∷ []) }
        ensures refused { (k : Kind) → O.refused_of (of_kind self.new k) ≡ O.refused_of (of_kind self.old k) }
        ensures taken { let kind = job.now.action.operator in
            (O.taken (of_kind self.new kind) ≡ O.taken (of_kind self.old kind))
            × (O.performed (of_kind self.new kind) ≡ true) }
        ensures outcome { CanEnd job.now.action.operator job.now result }
    {
        match job.action.operator() {
            Kind::Noop => self.noop.perform(job),
            Kind::Command => self.command.perform(job),
            Kind::Exit => self.exit.perform(job),
        }
    }

    /// Gives up the job that the operator of the kind has taken up, where one is.
    pub fn finish(&mut self, kind: Kind)
        requires kit { IsKit O.kind_of self.old }
        ensures kit { IsKit O.kind_of self.new }
        ensures others { SameBut kind self.old self.new }
        ensures runs { (k : Kind) → O.runs_of (of_kind self.new k) ≡ O.runs_of (of_kind self.old k) }
        ensures refused { (k : Kind) → O.refused_of (of_kind self.new k) ≡ O.refused_of (of_kind self.old k) }
        ensures taken { O.taken (of_kind self.new kind) ≡ None }
    {
        match kind {
            Kind::Noop => self.noop.finish(),
            Kind::Command => self.command.finish(),
            Kind::Exit => self.exit.finish(),
        }
    }
}

// Whether each kind stands among the operators once.
fn are_each_once<O: Operator>(operators: &[O]) -> bool
    ensures { result ≡ each_once (map O.kind_of operators.now) }
{
    let mut noops = 0u64;
    let mut commands = 0u64;
    let mut exits = 0u64;
    for operator in operators {
        match operator.kind() {
            Kind::Noop => noops += 1,
            Kind::Command => commands += 1,
            Kind::Exit => exits += 1,
        }
    }
    noops == 1 && commands == 1 && exits == 1
}

// The kit of three operators of three kinds.
fn arrange<O: Operator>(first: O, second: O, third: O) -> Kit<O>
    requires { each_once (O.kind_of first ∷ O.kind_of second ∷ O.kind_of third ∷ []) ≡ true }
    ensures kit { IsKit O.kind_of result }
    ensures all { (of_kind result (O.kind_of first) ≡ first)
        × (of_kind result (O.kind_of second) ≡ second)
        × (of_kind result (O.kind_of third) ≡ third) }
{
    match (first.kind(), second.kind(), third.kind()) {
        (Kind::Noop, Kind::Command, Kind::Exit) => Kit {
            noop: first,
            command: second,
            exit: third,
        },
        (Kind::Noop, Kind::Exit, Kind::Command) => Kit {
            noop: first,
            command: third,
            exit: second,
        },
        (Kind::Command, Kind::Noop, Kind::Exit) => Kit {
            noop: second,
            command: first,
            exit: third,
        },
        (Kind::Command, Kind::Exit, Kind::Noop) => Kit {
            noop: third,
            command: first,
            exit: second,
        },
        (Kind::Exit, Kind::Noop, Kind::Command) => Kit {
            noop: second,
            command: third,
            exit: first,
        },
        (Kind::Exit, Kind::Command, Kind::Noop) => Kit {
            noop: third,
            command: second,
            exit: first,
        },
        _ => unreachable!(),
    }
}

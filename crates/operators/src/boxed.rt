//! Operators in boxes: a call goes to the operator inside.
use crate::{BeginFault, Operator};
use graph_file::Operator as Kind;
use instance_machine::Outcome;
use sched_state::Job;

/// An operator of whatever type, which may cross to another thread.
pub type BoxedOperator = Box<dyn Operator + Send>;

impl Operator for Box<dyn Operator + Send> {
    ghost kind_of = { λ b. (Operator-box b).kind_of b.value };

    ghost runs_of = { λ b. (Operator-box b).runs_of b.value };

    ghost refused_of = { λ b. (Operator-box b).refused_of b.value };

    ghost taken = { λ b. (Operator-box b).taken b.value };

    ghost performed = { λ b. (Operator-box b).performed b.value };

    fn kind(&self) -> Kind {
        (**self).kind()
    }

    fn runs(&self) -> &[(u64, Outcome)] {
        (**self).runs()
    }

    fn begin(&mut self, job: &Job) -> Result<(), BeginFault> {
        (**self).begin(job)
    }

    fn perform(&mut self, job: &Job) -> Outcome {
        (**self).perform(job)
    }

    fn finish(&mut self) {
        (**self).finish()
    }
}

//! Why rows are no schedule.
use record_rows::Table;
use std::alloc::AllocError;

/// Why rows are no schedule.
#[derive(Clone, Copy, Debug, PartialEq, Eq)]
pub enum RestoreFault {
    /// A rule of the record fails: the table of the first that does, and the first row by key at which it does, from 0. A row that is missing
    /// is told as the number of rows that are there, a row too many as the limit.
    Inconsistent(Table, usize),
    /// Memory ran out.
    Memory,
}

impl From<AllocError> for RestoreFault {
    ghost use Rattle.std.specs.Prelude.{◌≡◌};
    ghost use Rattle.record_restoring.specs.declared.faults.RestoreFault.TheVariants.{Memory};

    ghost from_gives = { λ _ e. e ≡ Memory };

    fn from(_error: AllocError) -> RestoreFault {
        RestoreFault::Memory
    }
}

//! Why a director does not step.
ghost use Rattle.std.specs.Prelude.{◌≡◌};

use meta_store::StoreFault;
use sched_events::Refusal;
use std::alloc::AllocError;

/// Why an event was not stepped, so that schedule and record are as they were; or why a record was not opened.
#[derive(Debug, Drop)]
pub enum Fault {
    /// The event is refused.
    Refused(Refusal),
    /// The record cannot be read or written.
    Store(StoreFault),
    /// There was no memory, for the schedule or for the record.
    Memory,
}

impl From<Refusal> for Fault {
    ghost from_gives = { IsOfRefusal };

    ghost use Rattle.director.specs.Faults.{IsOfRefusal};

    fn from(refusal: Refusal) -> Fault {
        match refusal {
            Refusal::Memory => Fault::Memory,
            refusal => Fault::Refused(refusal),
        }
    }
}

impl From<StoreFault> for Fault {
    ghost from_gives = { IsOfStore };

    ghost use Rattle.director.specs.Faults.{IsOfStore};

    fn from(fault: StoreFault) -> Fault {
        match fault {
            StoreFault::Memory => Fault::Memory,
            fault => Fault::Store(fault),
        }
    }
}

impl From<AllocError> for Fault {
    ghost from_gives = { λ _ fault. fault ≡ Memory };

    ghost use Rattle.std.specs.Prelude.{◌≡◌};
    ghost use Rattle.director.specs.declared.faults.Fault.TheVariants.{Memory};

    fn from(_error: AllocError) -> Fault {
        Fault::Memory
    }
}

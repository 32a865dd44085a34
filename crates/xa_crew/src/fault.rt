//! Why no settled opening comes of a run.
ghost use Rattle.std.specs.Prelude.{◌≡◌};

use crate::run::Ran;
use std::alloc::AllocError;
use std::fmt;
use xa_switch::OpenFault;

/// Why no settled opening comes of a run.
#[derive(Drop)]
pub enum CrewFault<C> {
    /// The plan can't be opened, as `OpenFault::BadPlan` says. Nothing was run.
    BadPlan,
    /// Memory was refused, or a thread, before all threads were started. Nothing was run and nothing sent.
    NoMemory,
    /// All was run, and memory was refused for the settling. What the run has come to is here, and `settle_run` settles
    /// it once there is memory.
    Unsettled(Ran<C>),
}

// What was run isn't shown: clients needn't be `Debug`.
impl<C> fmt::Debug for CrewFault<C> {
    fn fmt<W: fmt::Write>(&self, f: &mut fmt::Formatter<W>) -> fmt::Result {
        match self {
            CrewFault::BadPlan => write!(f, "BadPlan"),
            CrewFault::NoMemory => write!(f, "NoMemory"),
            CrewFault::Unsettled(_) => write!(f, "Unsettled(..)"),
        }
    }
}

impl<C> From<AllocError> for CrewFault<C> {
    ghost use Rattle.xa_crew.specs.declared.fault.CrewFault.TheVariants.{NoMemory};

    ghost from_gives = { λ _ fault. fault ≡ NoMemory };

    fn from(_error: AllocError) -> CrewFault<C> {
        CrewFault::NoMemory
    }
}

impl<C> From<OpenFault> for CrewFault<C> {
    ghost use Rattle.xa_crew.specs.Run.{crew_fault_of};

    ghost from_gives = { λ why fault. fault ≡ crew_fault_of why };

    fn from(why: OpenFault) -> CrewFault<C> {
        match why {
            OpenFault::BadPlan => CrewFault::BadPlan,
            OpenFault::NoMemory => CrewFault::NoMemory,
        }
    }
}

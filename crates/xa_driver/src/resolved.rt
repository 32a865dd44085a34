//! What branches came to that were left in doubt.
ghost use Rattle.std.specs.Prelude.{◌≡◌};

use std::alloc::AllocError;
use xa_words::{Code, Xid};

/// What a branch came to that a reopening had found left at a manager.
#[derive(Clone, Copy, Debug, PartialEq, Eq)]
pub struct Outcome {
    /// The manager.
    pub m: u32,
    pub xid: Xid,
    /// Whether it was to be committed; else it was to be rolled back.
    pub commit: bool,
    /// What the manager answered to that.
    pub code: Code,
}

/// What the branches came to that a reopening had found left: by rising manager, and of one manager by rising xid.
#[derive(Debug, Drop)]
pub struct Resolved {
    pub outcomes: Vec<Outcome>,
}

/// Why the branches were left as they were, and nothing was sent.
#[derive(Clone, Copy, Debug, PartialEq, Eq)]
pub enum ResolveFault {
    /// Memory was refused.
    NoMemory,
}

impl From<AllocError> for ResolveFault {
    ghost use Rattle.xa_driver.specs.declared.resolved.ResolveFault.TheVariants.{NoMemory};

    ghost from_gives = { λ _ fault. fault ≡ NoMemory };

    fn from(_error: AllocError) -> ResolveFault {
        ResolveFault::NoMemory
    }
}

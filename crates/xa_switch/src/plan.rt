//! What is to be opened.
ghost use Rattle.std.specs.Prelude.{◌≡◌, ◌↔◌, IfOk, IsTrue};
ghost use Rattle.xa_base.specs.Lists.{IsUpTo};
ghost use Rattle.xa_switch.specs.Plans.{IsUniform, IsWithinLimits, manager_room, numbers_of};

use std::alloc::{AllocError, Global};
use xa_base::{
    MOST_HANDLES, MOST_JOURNALED, MOST_MANAGERS, MOST_QUEUED, MOST_REQUESTS, MOST_THREADS,
};
use xa_words::Key;

/// An opening: its number, which is its own, and what it has.
#[derive(Drop)]
pub struct Plan {
    /// The number of the opening, which no other has.
    pub opening: u64,
    /// How many threads of control there are: 1 to 8.
    pub threads: u32,
    /// How many operations of a thread may be outstanding: 1 to 32.
    pub handles: u32,
    /// How many requests and end marks a manager's queue holds: 1 to 64.
    pub queue: u32,
    /// How many requests a thread may put to a manager: 1 to 4,096.
    pub requests: u32,
    /// The managers, 1 to 8, which are numbered from 1.
    pub managers: Vec<ManagerPlan>,
}

/// One manager of an opening.
#[derive(Drop)]
pub struct ManagerPlan {
    /// Whether it takes asynchronous calls: `TMUSEASYNC` (C193, chapter 4).
    pub use_async: bool,
    /// Its keys with their values: at most 256, none twice, and no value over 1,000,000,000,000.
    pub accounts: Vec<(Key, u64)>,
}

/// Why nothing is opened: the first reason that holds.
#[derive(Clone, Copy, Debug, PartialEq, Eq)]
pub enum OpenFault {
    /// A number is outside its limits, or a manager's accounts are not to be had.
    BadPlan,
    /// There is no memory for it.
    NoMemory,
}

impl From<AllocError> for OpenFault {
    ghost use Rattle.xa_switch.specs.declared.plan.OpenFault.TheVariants.{NoMemory};

    ghost from_gives = { λ _ fault. fault ≡ NoMemory };

    fn from(_error: AllocError) -> OpenFault {
        OpenFault::NoMemory
    }
}

impl Plan {
    /// A plan of so many threads and managers, with the numbers that most programs do with: opening 1, 8 handles,
    /// queues of 8 places, and 64 requests of a thread to a manager. The managers are alike: each takes asynchronous
    /// calls, and has these accounts. For other numbers name them: `Plan { handles: 32, ..Plan::uniform(..)? }`.
    ///
    /// It fails only for want of memory. Whether the plan can be opened is told where it is opened.
    pub fn uniform(
        alloc: Global,
        threads: u32,
        managers: u32,
        accounts: &[(Key, u64)],
    ) -> Result<Plan, AllocError>
        ensures { IfOk result (λ p. IsUniform threads managers accounts.now p) }
    {
        let mut plans = Vec::with_capacity(alloc, managers as usize)?;
        for _place in 0..managers {
            plans.push(ManagerPlan {
                use_async: true,
                accounts: accounts.to_vec(alloc)?,
            })?;
        }
        Ok(Plan {
            opening: 1,
            threads,
            handles: 8,
            queue: 8,
            requests: 64,
            managers: plans,
        })
    }

    /// Its numbers.
    pub(crate) fn numbers(&self) -> Again
        ensures { result ≡ numbers_of self.now }
    {
        Again {
            opening: self.opening,
            threads: self.threads,
            handles: self.handles,
            queue: self.queue,
            requests: self.requests,
        }
    }
}

/// The numbers of an opening: how it is to be opened again.
#[derive(Clone, Copy, Debug, PartialEq, Eq)]
pub struct Again {
    /// The number of the opening, which no other has.
    pub opening: u64,
    /// How many threads of control there are: 1 to 8.
    pub threads: u32,
    /// How many operations of a thread may be outstanding: 1 to 32.
    pub handles: u32,
    /// How many requests and end marks a manager's queue holds: 1 to 64.
    pub queue: u32,
    /// How many requests a thread may put to a manager: 1 to 4,096.
    pub requests: u32,
}

impl Again {
    /// Whether each number is within its limits, of so many managers.
    pub(crate) fn is_within_limits(&self, managers: usize) -> bool
        ensures { IsTrue result ↔ IsWithinLimits self.now managers }
    {
        (1..=MOST_THREADS).contains(&(self.threads as usize))
            && (1..=MOST_MANAGERS).contains(&managers)
            && (1..=MOST_HANDLES).contains(&(self.handles as usize))
            && (1..=MOST_QUEUED).contains(&(self.queue as usize))
            && (1..=MOST_REQUESTS).contains(&(self.requests as usize))
    }

    /// How many requests may be put to a manager.
    pub(crate) fn manager_room(&self) -> u32
        requires threads { IsUpTo MOST_THREADS self.now.threads }
        requires requests { IsUpTo MOST_REQUESTS self.now.requests }
        ensures room { result ≡ manager_room self.now }
        ensures limits { IsUpTo MOST_JOURNALED result }
    {
        self.threads * self.requests
    }
}

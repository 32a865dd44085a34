//! How a teller goes about its transfers.
ghost use Rattle.std.specs.Prelude.{◌≡◌};
ghost use Rattle.demo_bank.specs.Numbered.{death_if_at};

use xa_words::Death;

/// The death that a teller is to die. Where its transfer there comes to no commit, it lives on.
#[derive(Clone, Copy, Debug, PartialEq, Eq)]
pub struct DiesAt {
    /// The place of the transfer among the teller's, from 0.
    pub place: usize,
    /// The point of its commit.
    pub death: Death,
}

/// The store that a teller shuts, as if it went down.
#[derive(Clone, Copy, Debug, PartialEq, Eq)]
pub struct ShutsAt {
    /// The place of the transfer before which it does, from 0.
    pub place: usize,
    /// The store, from 1.
    pub store: u32,
}

/// How a teller goes about its transfers.
#[derive(Clone, Copy, Debug, PartialEq, Eq)]
pub struct Habits {
    /// The number of its first transfer. The others follow it.
    pub first: u32,
    /// The death that it is to die, if any.
    pub death: Option<DiesAt>,
    /// The store that it shuts, if any.
    pub shuts: Option<ShutsAt>,
    /// Whether it forgets the record of a transfer that every store has acknowledged.
    pub forgets: bool,
}

impl Habits {
    /// The death that the teller dies in its transfer at this place, if it dies there.
    pub(crate) fn death_at(&self, place: usize) -> Option<Death>
        ensures { result ≡ death_if_at self.now.death place }
    {
        match self.death {
            Some(dies) if dies.place == place => Some(dies.death),
            _ => None,
        }
    }
}

//! What the file has, as rows that were read or are to be written.
ghost use Rattle.std.specs.Prelude.{◌≡◌, Some, true};
ghost use Rattle.xa_tables.specs.ManagerTables.{is_left_in};
ghost use Rattle.xa_store_sqlite.specs.Images.{left_in, state_of_left};

use xa_tables::{HeuristicDecision, State};
use xa_words::{Delta, Key, Xid};

/// The numbers of the tables among the trees of the file.
pub(crate) const ACCOUNTS: u32 = 0;

pub(crate) const BRANCHES: u32 = 1;

pub(crate) const CHANGES: u32 = 2;

pub(crate) const STORE: u32 = 3;

/// The most branches that the file has at once.
pub(crate) const MOST_BRANCHES: u32 = 65_536;

/// The state of a branch that an opening leaves.
#[derive(Clone, Copy, Debug, PartialEq, Eq)]
pub(crate) enum Left {
    Prepared,
    Completed(HeuristicDecision),
}

impl Left {
    /// The state, where an opening leaves a branch that is in it.
    pub(crate) fn of(state: Option<State>) -> Option<Left>
        ensures { result ≡ left_in state }
    {
        match state {
            Some(State::Prepared) => Some(Left::Prepared),
            Some(State::HeuristicallyCompleted(decision)) => Some(Left::Completed(decision)),
            _ => None,
        }
    }

    /// The state of the manager's tables.
    pub(crate) fn state(self) -> State
        ensures state { result ≡ state_of_left self }
        ensures left { is_left_in (Some result) ≡ true }
    {
        match self {
            Left::Prepared => State::Prepared,
            Left::Completed(decision) => State::HeuristicallyCompleted(decision),
        }
    }
}

/// A branch with its state.
pub(crate) type Branch = (Xid, Left);

/// What a prepared branch has added to an account: the slot of the branch, and the amount.
#[derive(Clone, Copy, Debug)]
pub(crate) struct Change {
    pub(crate) branch: u32,
    pub(crate) delta: Delta,
}

/// What the file has: its number, the accounts by their places, the branches by their slots, and the changes by the
/// places of their accounts.
#[derive(Drop)]
pub(crate) struct Mirror {
    pub(crate) number: i64,
    pub(crate) accounts: Vec<(Key, u64)>,
    pub(crate) branches: Vec<Option<Branch>>,
    pub(crate) changes: Vec<Option<Change>>,
}

//! What a manager has that an opening would find.
use crate::fault::Fault;
use crate::names::{ACCOUNTS, BRANCHES, Names};
use std::alloc::{AllocError, Global};
use xa_base::MOST_KEYS;
use xa_tables::{Manager, State};
use xa_words::{Key, Xid};

// A branch: its state, and what it has added to the accounts.
#[derive(Clone, Copy, PartialEq, Eq)]
struct Branch {
    state: Option<State>,
    sums: [Option<i64>; ACCOUNTS],
}

// A branch that isn't there.
const GONE: Branch = Branch {
    state: None,
    sums: [None; ACCOUNTS],
};

/// What a reopening keeps of a manager: the values, and the branches that are prepared or heuristically completed.
#[derive(Clone, Copy, PartialEq, Eq)]
pub(crate) struct Found {
    values: [Option<u64>; ACCOUNTS],
    branches: [Branch; BRANCHES],
    // How many branches there are, by the manager's own list.
    left: usize,
}

// What is added to the account with this key.
fn sum_at(sums: &[(Key, i64)], key: &Key) -> Option<i64> {
    for sum in sums {
        if sum.0 == *key {
            return Some(sum.1);
        }
    }
    None
}

// A prepared branch.
fn prepared(
    alloc: Global,
    manager: &Manager,
    names: &Names,
    xid: &Xid,
) -> Result<Branch, AllocError> {
    let mut sums: Vec<(Key, i64)> = Vec::with_capacity(alloc, MOST_KEYS)?;
    manager.sums_of(xid, &mut sums);
    Ok(Branch {
        state: Some(State::Prepared),
        sums: names.keys().map(|key: Key| sum_at(&sums, &key)),
    })
}

// What a reopening keeps of a branch.
fn branch_in(
    alloc: Global,
    manager: &Manager,
    names: &Names,
    xid: &Xid,
) -> Result<Branch, AllocError> {
    match manager.state(xid) {
        Some(State::Prepared) => prepared(alloc, manager, names, xid),
        Some(State::HeuristicallyCompleted(decision)) => Ok(Branch {
            state: Some(State::HeuristicallyCompleted(decision)),
            sums: [None; ACCOUNTS],
        }),
        _ => Ok(GONE),
    }
}

// What a reopening keeps of all branches.
fn branches_in(
    alloc: Global,
    manager: &Manager,
    names: &Names,
) -> Result<[Branch; BRANCHES], AllocError> {
    let xids = names.branches();
    let xids = &xids[..];
    let mut branches = [GONE; BRANCHES];
    for place in 0..BRANCHES {
        branches[place] = branch_in(alloc, manager, names, &xids[place])?;
    }
    Ok(branches)
}

impl Found {
    /// What a reopening keeps of a manager.
    pub(crate) fn of(alloc: Global, manager: &Manager, names: &Names) -> Result<Found, Fault> {
        Ok(Found {
            values: names.keys().map(|key: Key| manager.value(&key)),
            branches: branches_in(alloc, manager, names)?,
            left: manager.left(alloc)?.len(),
        })
    }
}

//! What a store has of a manager, and the parts of the tables that it makes.
ghost use Rattle.std.specs.Prelude.{◌≡◌, ◌≢◌, ◌≤◌, ◌<◌, ◌^◌, ◌+◌, [], IfOk, IfErr, OnOk, None, Some, length, true};
ghost use Rattle.std.specs.FinMap as finmap;
ghost use Rattle.std.specs.FinMap.{from_entries};
ghost use Rattle.xa_words.specs.Accounts.{are_accounts};
ghost use Rattle.xa_tables.specs.declared.restored.RestoreFault.TheVariants.{NoMemory};
ghost use Rattle.xa_tables.specs.Accounts.{declared_values, key_at};
ghost use Rattle.xa_tables.specs.Restored.{restored, stored, fault_of, fault_in, sum_entries, first_fault};
ghost use Rattle.xa_tables.specs.Managers.{BeginsWithTables};
ghost use Rattle.xa_tables.specs.Restored.{branch_fault, fault_beside, sums_fault};

use crate::accounts::{Accounts, are_accounts};
use crate::branch_tables::BranchTables;
use crate::branches::Branches;
use crate::state::State;
use crate::threads::Threads;
use std::alloc::{AllocError, Global};
use xa_words::{Delta, Key, Xid};

/// Why a manager can't be restored: the first reason that holds. The accounts are looked at first, then the branches in
/// their order, and then the sums in theirs.
#[derive(Clone, Copy, Debug, PartialEq, Eq)]
pub enum RestoreFault {
    /// A key stands twice, a value is over 1,000,000,000,000, or there are over 256 keys.
    BadAccounts,
    /// A branch stands twice.
    BranchTwice,
    /// A branch is neither prepared nor heuristically completed, as no opening leaves one.
    NotLeft,
    /// A sum is of a key that isn't declared.
    UnknownKey,
    /// A sum is of a branch that isn't prepared.
    NotPrepared,
    /// Two sums are of one key, which at most one branch at a time has touched.
    KeyTwice,
    /// A sum takes the value of its key below 0, or over 1,000,000,000,000.
    OutOfLimits,
    /// There is no memory for the branches, or for the requests that are to be carried out.
    NoMemory,
}

impl From<AllocError> for RestoreFault {
    ghost use Rattle.xa_tables.specs.declared.restored.RestoreFault.TheVariants.{NoMemory};

    ghost from_gives = { λ _ fault. fault ≡ NoMemory };

    fn from(_error: AllocError) -> RestoreFault {
        RestoreFault::NoMemory
    }
}

/// What a prepared branch has added to a key: its commit adds this to the value.
#[derive(Clone, Copy, Debug)]
pub struct Sum {
    pub xid: Xid,
    pub key: Key,
    pub delta: Delta,
}

/// The tables that begin with what a store has, for this many threads, and with room for this many branches more.
pub(crate) fn restored_tables(
    alloc: Global,
    accounts: &[(Key, u64)],
    branches: &[(Xid, State)],
    sums: &[Sum],
    threads: usize,
    room: usize,
) -> Result<BranchTables, RestoreFault>
    requires { room < 2 ^ 32 }
    ensures begins { IfOk result
        (λ b. BeginsWithTables (restored (stored accounts.now branches.now sums.now)) threads room 1 b) }
    ensures faultless { OnOk result (fault_of (stored accounts.now branches.now sums.now) ≡ None) }
    ensures fault { IfErr result (λ f. f ≢ NoMemory → fault_of (stored accounts.now branches.now sums.now) ≡ Some f) }
{
    if !are_accounts(accounts) {
        return Err(RestoreFault::BadAccounts);
    }
    let branches = left_branches(alloc, branches, room)?;
    let accounts = held_accounts(alloc, accounts, sums, &branches)?;
    let threads = Threads::new(alloc, threads)?;
    Ok(BranchTables::of_parts(threads, branches, accounts))
}

// The branches that were left, and room for this many more.
fn left_branches(
    alloc: Global,
    left: &[(Xid, State)],
    room: usize,
) -> Result<Branches, RestoreFault>
    requires { room < 2 ^ 32 }
    ensures left { IfOk result (λ b. (b.states ≡ from_entries left.now) × (room ≤ b.spare)) }
    ensures faultless { OnOk result (first_fault branch_fault [] left.now ≡ None) }
    ensures fault { IfErr result (λ f. f ≢ NoMemory → first_fault branch_fault [] left.now ≡ Some f) }
{
    let mut branches = Branches::new(alloc, left.len() + room)?;
    put_left(&mut branches, left)?;
    Ok(branches)
}

// Puts the branches there that were left, up to the first with a fault; there is room for them.
fn put_left(branches: &mut Branches, left: &[(Xid, State)]) -> Result<(), RestoreFault>
    requires none { branches.old.states ≡ finmap.empty }
    requires room { length left.now ≤ branches.old.spare }
    ensures states { OnOk result (branches.new.states ≡ from_entries left.now) }
    ensures room { OnOk result (branches.old.spare ≤ branches.new.spare + length left.now) }
    ensures fault { first_fault branch_fault [] left.now ≡ fault_in result }
{
    for (xid, state) in left {
        if branches.get(xid).is_some() {
            return Err(RestoreFault::BranchTwice);
        }
        if !state.is_left() {
            return Err(RestoreFault::NotLeft);
        }
        branches.insert(xid, *state);
    }
    Ok(())
}

// The accounts, with what these branches have added to them.
fn held_accounts(
    alloc: Global,
    declared: &[(Key, u64)],
    sums: &[Sum],
    branches: &Branches,
) -> Result<Accounts, RestoreFault>
    requires { are_accounts declared.now ≡ true }
    ensures held { IfOk result (λ a. (a.sums ≡ from_entries (sum_entries sums.now))
        × (a.values ≡ declared_values declared.now) × (a.adds ≤ 1)) }
    ensures faultless { OnOk result (sums_fault (declared_values declared.now) branches.now.states sums.now ≡ None) }
    ensures fault { IfErr result (λ f. f ≢ NoMemory
        → sums_fault (declared_values declared.now) branches.now.states sums.now ≡ Some f) }
{
    let mut accounts = Accounts::new(alloc, declared)?;
    put_sums(&mut accounts, branches, sums)?;
    Ok(accounts)
}

// Puts the sums to their accounts, up to the first with a fault.
fn put_sums(accounts: &mut Accounts, branches: &Branches, sums: &[Sum]) -> Result<(), RestoreFault>
    requires none { accounts.old.sums ≡ finmap.empty }
    requires few { accounts.old.adds ≤ 1 }
    ensures put { OnOk result ((accounts.new.sums ≡ from_entries (sum_entries sums.now))
        × (accounts.new.values ≡ accounts.old.values) × (accounts.new.adds ≤ 1)) }
    ensures fault { sums_fault accounts.old.values branches.now.states sums.now ≡ fault_in result }
{
    for sum in sums {
        let place = place_for(accounts, branches, sum)?;
        accounts.hold(&sum.xid, place, sum.delta);
    }
    Ok(())
}

// The place of a sum's key, unless something is wrong with the sum.
fn place_for(accounts: &Accounts, branches: &Branches, sum: &Sum) -> Result<usize, RestoreFault>
    ensures place { IfOk result (λ place. (place < length accounts.now.keys)
        × (key_at accounts.now place ≡ sum.now.key)) }
    ensures fault { fault_beside accounts.now.values branches.now.states accounts.now.sums sum.now
        ≡ fault_in result }
{
    let Some(place) = accounts.place_of(&sum.key) else {
        return Err(RestoreFault::UnknownKey);
    };
    if branches.get(&sum.xid) != Some(State::Prepared) {
        return Err(RestoreFault::NotPrepared);
    }
    if accounts.is_touched(place) {
        return Err(RestoreFault::KeyTwice);
    }
    if !accounts.fits(place, sum.delta) {
        return Err(RestoreFault::OutOfLimits);
    }
    Ok(place)
}

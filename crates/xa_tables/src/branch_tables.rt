//! The tables of a manager, a group of rules at a time.
ghost use Rattle.std.specs.Prelude.{◌≡◌, ◌≤◌, ◌<◌, ◌^◌, ℕ, List, IfOk, OnOk, IfSome, true, false, option_map, pos};
ghost use Rattle.std.specs.Prelude.{◌&&◌, option_copied, vec_capacity};
ghost use Rattle.std.specs.List.{IsDistinct};
ghost use Rattle.std.specs.Map.{keys_of, lookup};
ghost use Rattle.std.specs.FinMap as finmap;
ghost use Rattle.xa_tables.specs.Next.{shut_down, open_rm, close_rm, start_fresh, start_join};
ghost use Rattle.xa_tables.specs.Next.{start_resume, add, end, prepare, commit_one, commit_two, rollback, heur, forget};
ghost use Rattle.xa_tables.specs.Next.{listed, gone};
ghost use Rattle.xa_tables.specs.ManagerTables.{has_opened, is_T2, is_association_with, state_of};
ghost use Rattle.xa_words.specs.Accounts.{are_accounts};
ghost use Rattle.xa_words.specs.Key.{key_eq};
ghost use Rattle.xa_tables.specs.Managers.{AreAssociationsLive, ArePreparedSound, BeginsWithTables, UsesAtMost};
ghost use Rattle.xa_tables.specs.Managers.{opening, places_taken, tables_of};
ghost use Rattle.xa_tables.specs.Openings.{AreLeft, reopened};
ghost use Rattle.xa_tables.specs.Steps.{ended, refusal, state_with, suspends_again};

use crate::accounts::Accounts;
use crate::branches::Branches;
use crate::state::{Association, AssociationState, HeuristicDecision, RollbackReason, State};
use crate::threads::Threads;
use std::alloc::{AllocError, Global};
use std::marker::Model;
use xa_base::{MOST_KEYS, MOST_VALUE};
use xa_words::{Code, Delta, EndHow, Key, Xid};

/// What one manager's rules speak of: threads, branches, keys, and whether it is shut.
///
/// Each request is a method, which takes its steps in the order of the request's rules.
#[derive(Drop)]
pub(crate) struct BranchTables {
    threads: Threads,
    branches: Branches,
    accounts: Accounts,
    is_shut: bool,
}

impl Model for BranchTables {
    ghost use Rattle.xa_tables.specs.Managers.{TablesWithRoom, tables_with_room_code, tables_of, ArePreparedSound};

    ghost Value = { TablesWithRoom };

    ghost coded = { tables_with_room_code };

    ghost view = { λ b. record {
      tables = tables_of b.threads b.branches b.accounts b.is_shut;
      threads = b.threads.threads;
      seats = b.threads.seats;
      spare = b.branches.spare;
      adds = b.accounts.adds;
    } };

    ghost invariant = { λ b. ArePreparedSound b.branches.states b.accounts.sums b.accounts.values };
}

impl BranchTables {
    /// The tables at the opening, with room for this many branches.
    pub(crate) fn new(
        alloc: Global,
        accounts: &[(Key, u64)],
        threads: usize,
        room: usize,
    ) -> Result<BranchTables, AllocError>
        requires { are_accounts accounts.now ≡ true }
        ensures { IfOk result (λ b. BeginsWithTables (opening accounts.now) threads room 0 b) }
    {
        Ok(BranchTables {
            threads: Threads::new(alloc, threads)?,
            branches: Branches::new(alloc, room)?,
            accounts: Accounts::new(alloc, accounts)?,
            is_shut: false,
        })
    }

    /// The tables of these threads, branches and accounts; the manager isn't shut.
    pub(crate) fn of_parts(threads: Threads, branches: Branches, accounts: Accounts) -> BranchTables
        requires { ArePreparedSound branches.states accounts.sums accounts.values }
        ensures tables { result.tables ≡ tables_of threads branches accounts false }
        ensures threads { result.threads ≡ threads.threads }
        ensures spare { result.spare ≡ branches.spare }
        ensures adds { result.adds ≡ accounts.adds }
    {
        BranchTables {
            threads,
            branches,
            accounts,
            is_shut: false,
        }
    }

    /// The state of a branch, and `None` where it doesn't exist.
    pub(crate) fn state(&self, xid: &Xid) -> Option<State>
        ensures { result ≡ state_of self.now.tables xid.now }
    {
        self.branches.get(xid)
    }

    /// Fills `sums` with the keys that the branch has touched, in no order, each with what it has added.
    pub(crate) fn sums_of(&self, xid: &Xid, sums: &mut Vec<(Key, i64)>)
        requires { MOST_KEYS ≤ vec_capacity sums.old }
        ensures each { (k : List ℕ) → lookup (key_eq k) sums.new.items ≡ finmap.get self.now.tables.sums (xid.now, k) }
        ensures once { IsDistinct key_eq (keys_of sums.new.items) }
        ensures room { vec_capacity sums.new ≡ vec_capacity sums.old }
    {
        self.accounts.sums_of(xid, sums);
    }

    /// The committed value of a key.
    pub(crate) fn value(&self, key: &Key) -> Option<u64>
        ensures value { option_map pos result ≡ finmap.get self.now.tables.values key.now }
        ensures bounded { IfSome result (λ v. v ≤ MOST_VALUE) }
    {
        self.accounts.value(key)
    }

    /// Whether the manager is shut.
    pub(crate) fn is_shut(&self) -> bool
        ensures { result ≡ self.now.tables.shut }
    {
        self.is_shut
    }

    /// Shut: nothing is carried out any more.
    pub(crate) fn shut(&mut self)
        ensures shut { self.new.tables ≡ shut_down self.old.tables }
        ensures kept { UsesAtMost 0 self.old self.new }
    {
        self.is_shut = true;
    }

    /// Whether the thread has the manager open.
    pub(crate) fn has_opened(&self, t: usize) -> bool
        requires first { 0 < t }
        requires last { t ≤ self.now.threads }
        ensures { result ≡ has_opened self.now.tables t }
    {
        self.threads.has_opened(t)
    }

    /// `xa_open`.
    pub(crate) fn open_rm(&mut self, t: usize) -> Code
        requires first { 0 < t }
        requires last { t ≤ self.old.threads }
        ensures step { (self.new.tables, result) ≡ open_rm t self.old.tables }
        ensures kept { UsesAtMost 0 self.old self.new }
    {
        self.threads.set_open(t, true);
        Code::Done
    }

    /// `xa_close`.
    pub(crate) fn close_rm(&mut self, t: usize) -> Code
        requires first { 0 < t }
        requires last { t ≤ self.old.threads }
        ensures step { (self.new.tables, result) ≡ close_rm t self.old.tables }
        ensures kept { UsesAtMost 0 self.old self.new }
    {
        if !self.threads.has_opened(t) {
            return Code::Done;
        }
        if self.threads.association(t).is_some() {
            return Code::Proto;
        }
        self.threads.set_open(t, false);
        Code::Done
    }

    /// `xa_start` with no flag: the branch is new.
    pub(crate) fn start_fresh(&mut self, t: usize, xid: &Xid) -> Code
        requires first { 0 < t }
        requires last { t ≤ self.old.threads }
        requires room { 0 < self.old.spare }
        ensures step { (self.new.tables, result) ≡ start_fresh t xid.now self.old.tables }
        ensures kept { UsesAtMost (places_taken t self.old.tables self.new.tables) self.old self.new }
    {
        if self.threads.association(t).is_some() {
            return Code::Proto;
        }
        if self.branches.get(xid).is_some() {
            return Code::DupId;
        }
        self.branches.insert(xid, State::Active);
        self.threads.associate(t, xid, AssociationState::Associated);
        Code::Done
    }

    /// `xa_start` with TMJOIN.
    pub(crate) fn start_join(&mut self, t: usize, xid: &Xid) -> Code
        requires first { 0 < t }
        requires last { t ≤ self.old.threads }
        ensures step { (self.new.tables, result) ≡ start_join t xid.now self.old.tables }
        ensures kept { UsesAtMost 0 self.old self.new }
    {
        if self.threads.association(t).is_some() {
            return Code::Proto;
        }
        let Some(state) = self.branches.state_mut(xid) else {
            return Code::Nota;
        };
        if state.is_left() {
            return Code::Proto;
        }
        if let State::RollbackOnly(reason) = *state {
            return reason.code();
        }
        *state = State::Active;
        self.threads.associate(t, xid, AssociationState::Associated);
        Code::Done
    }

    /// `xa_start` with TMRESUME.
    pub(crate) fn start_resume(&mut self, t: usize, xid: &Xid) -> Code
        requires first { 0 < t }
        requires last { t ≤ self.old.threads }
        ensures step { (self.new.tables, result) ≡ start_resume t xid.now self.old.tables }
        ensures kept { UsesAtMost 0 self.old self.new }
    {
        if !is_suspended_with(self.threads.association(t), xid) {
            return refusal(self.branches.get(xid));
        }
        self.threads.associate(t, xid, AssociationState::Associated);
        Code::Done
    }

    /// Add: work of the branch that the thread is associated with.
    pub(crate) fn add(&mut self, t: usize, key: Key, delta: Delta) -> Code
        requires first { 0 < t }
        requires last { t ≤ self.old.threads }
        requires live { AreAssociationsLive self.old.tables }
        requires few { self.old.adds < 2 ^ 20 }
        ensures step { (self.new.tables, result) ≡ add t key delta self.old.tables }
        ensures kept { UsesAtMost 0 self.old self.new }
    {
        let Some(association) = self.threads.association(t) else {
            return Code::Proto;
        };
        if association.state.is_suspended() {
            return Code::Proto;
        }
        let Some(place) = self.accounts.place_of(&key) else {
            return Code::Inval;
        };
        let Some(state) = self.branches.state_mut(&association.xid) else {
            unreachable!()
        };
        if let State::RollbackOnly(reason) = *state {
            return reason.code();
        }
        if self.accounts.has_other_touched(&association.xid, place) {
            *state = State::RollbackOnly(RollbackReason::Transient);
            return Code::RbTransient;
        }
        self.accounts.add(&association.xid, place, delta);
        Code::Done
    }

    /// `xa_end` with TMSUCCESS, TMSUSPEND or TMFAIL.
    pub(crate) fn end(&mut self, t: usize, xid: &Xid, how: EndHow) -> Code
        requires first { 0 < t }
        requires last { t ≤ self.old.threads }
        requires live { AreAssociationsLive self.old.tables }
        ensures step { (self.new.tables, result) ≡ end how t xid.now self.old.tables }
        ensures kept { UsesAtMost 0 self.old self.new }
    {
        let Some(association) = state_with(self.threads.association(t), xid) else {
            return refusal(self.branches.get(xid));
        };
        if suspends_again(how, association) {
            return Code::Proto;
        }
        let Some(state) = self.branches.state_mut(xid) else {
            unreachable!()
        };
        end_work(&mut self.threads, state, t, xid, how)
    }

    /// `xa_prepare`.
    pub(crate) fn prepare(&mut self, xid: &Xid) -> Code
        ensures step { (self.new.tables, result) ≡ prepare xid.now self.old.tables }
        ensures kept { UsesAtMost 0 self.old self.new }
    {
        let Some(state) = self.branches.state_mut(xid) else {
            return Code::Nota;
        };
        if self.threads.is_somebody_associated(xid) || !state.may_prepare() {
            return Code::Proto;
        }
        if let Some(code) = self.accounts.closing_vote(xid) {
            self.remove(xid);
            return code;
        }
        *state = State::Prepared;
        Code::Done
    }

    /// `xa_commit` with no flag: two phases.
    pub(crate) fn commit_two(&mut self, xid: &Xid) -> Code
        ensures step { (self.new.tables, result) ≡ commit_two xid.now self.old.tables }
        ensures kept { UsesAtMost 0 self.old self.new }
    {
        let Some(state) = self.branches.get(xid) else {
            return Code::Nota;
        };
        if let State::HeuristicallyCompleted(decision) = state {
            return decision.code();
        }
        if self.threads.is_somebody_associated(xid) || !state.is_prepared() {
            return Code::Proto;
        }
        self.accounts.post(xid);
        self.branches.remove(xid);
        Code::Done
    }

    /// `xa_commit` with TMONEPHASE.
    pub(crate) fn commit_one(&mut self, xid: &Xid) -> Code
        ensures step { (self.new.tables, result) ≡ commit_one xid.now self.old.tables }
        ensures kept { UsesAtMost 0 self.old self.new }
    {
        let Some(state) = self.branches.get(xid) else {
            return Code::Nota;
        };
        if self.threads.is_somebody_associated(xid) || state != State::Idle {
            return Code::Proto;
        }
        if self.accounts.is_broken(xid) {
            self.remove(xid);
            return Code::RbIntegrity;
        }
        self.accounts.post(xid);
        self.branches.remove(xid);
        Code::Done
    }

    /// `xa_rollback`.
    pub(crate) fn rollback(&mut self, xid: &Xid) -> Code
        ensures step { (self.new.tables, result) ≡ rollback xid.now self.old.tables }
        ensures kept { UsesAtMost 0 self.old self.new }
    {
        let Some(state) = self.branches.get(xid) else {
            return Code::Nota;
        };
        if let State::HeuristicallyCompleted(decision) = state {
            return decision.code();
        }
        if self.threads.is_somebody_associated(xid) {
            return Code::Proto;
        }
        self.remove(xid);
        match state {
            State::RollbackOnly(reason) => reason.code(),
            _ => Code::Done,
        }
    }

    /// A heuristic decision on a prepared branch.
    pub(crate) fn heur(&mut self, xid: &Xid, commits: bool) -> Code
        ensures step { (self.new.tables, result) ≡ heur xid.now commits self.old.tables }
        ensures kept { UsesAtMost 0 self.old self.new }
    {
        let Some(state) = self.branches.state_mut(xid) else {
            return Code::Nota;
        };
        if !state.is_prepared() {
            return Code::Proto;
        }
        self.accounts.settle(xid, commits);
        *state = State::HeuristicallyCompleted(HeuristicDecision::of(commits));
        Code::Done
    }

    /// `xa_forget`.
    pub(crate) fn forget(&mut self, xid: &Xid) -> Code
        ensures step { (self.new.tables, result) ≡ forget xid.now self.old.tables }
        ensures kept { UsesAtMost 0 self.old self.new }
    {
        let Some(state) = self.branches.get(xid) else {
            return Code::Nota;
        };
        let State::HeuristicallyCompleted(_) = state else {
            return Code::Proto;
        };
        self.branches.remove(xid);
        Code::Done
    }

    /// Whether the branch is left where the opening ends; of no branch, XA_OK.
    pub(crate) fn listed(&self, xid: Option<Xid>) -> Code
        ensures { (self.now.tables, result) ≡ listed xid self.now.tables }
    {
        let Some(xid) = xid else {
            return Code::Done;
        };
        match self.branches.get(&xid) {
            Some(state) if state.is_left() => Code::Done,
            _ => Code::Nota,
        }
    }

    /// The branches that are left where the opening ends, rising.
    pub(crate) fn left(&self, alloc: Global) -> Result<Vec<Xid>, AllocError>
        ensures { IfOk result (λ v. AreLeft v.items self.now.tables) }
    {
        self.branches.left(alloc)
    }

    /// Makes room for a reopening, for so many threads and branches.
    pub(crate) fn reserve_reopen(&mut self, threads: usize, room: usize) -> Result<(), AllocError>
        ensures tables { self.new.tables ≡ self.old.tables }
        ensures threads { self.new.threads ≡ self.old.threads }
        ensures spare { self.old.spare ≤ self.new.spare }
        ensures seats { self.old.seats ≤ self.new.seats }
        ensures adds { self.new.adds ≡ self.old.adds }
        ensures room { OnOk result ((threads ≤ self.new.seats) × (room ≤ self.new.spare)) }
    {
        self.threads.reserve(threads)?;
        self.branches.reserve(room)
    }

    /// The tables at the next opening, for so many threads, for which there is room.
    pub(crate) fn reopen(&mut self, threads: usize)
        requires { threads ≤ self.old.seats }
        ensures tables { self.new.tables ≡ reopened self.old.tables }
        ensures threads { self.new.threads ≡ threads }
        ensures spare { self.old.spare ≤ self.new.spare }
        ensures adds { self.new.adds ≡ 1 }
    {
        self.threads.reset(threads);
        self.accounts.retain_prepared(&self.branches);
        self.branches.retain_left();
        self.is_shut = false;
    }

    // The branch is gone, with its sums.
    fn remove(&mut self, xid: &Xid)
        ensures gone { self.new.tables ≡ gone xid.now self.old.tables }
        ensures kept { UsesAtMost 0 self.old self.new }
    {
        self.accounts.forget(xid);
        self.branches.remove(xid);
    }
}

// What a thread is answered that may not do what it asks of a branch in this state, or of none.
#[inline(always)]
fn refusal(state: Option<State>) -> Code
    ensures { result ≡ refusal state }
{
    match state {
        Some(_) => Code::Proto,
        None => Code::Nota,
    }
}

// How the association is with the branch, if there is one and it is.
#[inline(always)]
fn state_with(association: Option<&Association>, xid: &Xid) -> Option<AssociationState>
    ensures { result ≡ state_with (option_copied association.entry) xid.now }
{
    if let Some(association) = association {
        if association.xid == *xid {
            return Some(association.state);
        }
    }
    None
}

// Whether the association is with the branch, and suspended.
#[inline(always)]
fn is_suspended_with(association: Option<&Association>, xid: &Xid) -> bool
    ensures { result ≡ (is_association_with (option_copied association.entry) xid.now
        && is_T2 (option_copied association.entry)) }
{
    match association {
        Some(association) => association.xid == *xid && association.state.is_suspended(),
        None => false,
    }
}

// Whether the thread would suspend an association that is suspended.
#[inline(always)]
fn suspends_again(how: EndHow, association: AssociationState) -> bool
    ensures { result ≡ suspends_again how association }
{
    how == EndHow::Suspend && association.is_suspended()
}

// The thread ends its work on the branch that it is associated with.
#[inline(always)]
fn end_work(threads: &mut Threads, state: &mut State, t: usize, xid: &Xid, how: EndHow) -> Code
    requires first { 0 < t }
    requires last { t ≤ threads.old.threads }
    ensures step { (threads.new.associations, state.new, result)
        ≡ ended how t xid.now threads.old.associations state.old }
    ensures opened { threads.new.opened ≡ threads.old.opened }
    ensures threads { threads.new.threads ≡ threads.old.threads }
{
    if let State::RollbackOnly(reason) = *state {
        threads.dissociate(t);
        return reason.code();
    }
    match how {
        EndHow::Suspend => {
            threads.associate(t, xid, AssociationState::Suspended);
            Code::Done
        }
        EndHow::Fail => {
            threads.dissociate(t);
            *state = State::RollbackOnly(RollbackReason::Failed);
            Code::RbRollback
        }
        EndHow::Success => {
            threads.dissociate(t);
            if !threads.is_somebody_associated(xid) {
                *state = State::Idle;
            }
            Code::Done
        }
    }
}

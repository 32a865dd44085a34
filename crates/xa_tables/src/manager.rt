//! One manager.
ghost use Rattle.std.specs.Prelude.{◌≡◌, ◌≢◌, ◌↔◌, ◌≤◌, ◌<◌, ◌+◌, ◌*◌, ◌^◌, ℕ, List, IfOk, IfErr, IfSome, OnOk, OnErr};
ghost use Rattle.std.specs.Prelude.{IsErrOf, None, Some, true, false, option_map, pos, vec_capacity};
ghost use Rattle.std.specs.List.{IsDistinct};
ghost use Rattle.std.specs.Map.{keys_of, lookup};
ghost use Rattle.std.specs.FinMap as finmap;
ghost use Rattle.xa_words.specs.Accounts.{are_accounts};
ghost use Rattle.xa_words.specs.Key.{key_eq};
ghost use Rattle.xa_tables.specs.declared.restored.RestoreFault.TheVariants as restore_fault;
ghost use Rattle.xa_tables.specs.ManagerTables.{state_of};
ghost use Rattle.xa_tables.specs.Managers.{AreAssociationsLive, UsesAtMost, opening, places_taken};
ghost use Rattle.xa_tables.specs.Openings.{AreLeft, IsOpening, reopened};
ghost use Rattle.xa_tables.specs.Restored.{stored, restored, fault_of};
ghost use Rattle.xa_tables.specs.Next.{next, needs_opening, by_rules, start};

use crate::accounts::are_accounts;
use crate::branch_tables::BranchTables;
use crate::restored::{RestoreFault, Sum, restored_tables};
use crate::state::State;
use std::alloc::{AllocError, Global};
use std::marker::Model;
use xa_base::{MOST_JOURNALED, MOST_KEYS, MOST_THREADS, MOST_VALUE};
use xa_words::{Code, Key, Op, StartHow, Xid};

/// Why a manager can't be opened: the first reason that holds.
#[derive(Clone, Copy, Debug, PartialEq, Eq)]
pub enum TableFault {
    /// A key stands twice, a value is over 1,000,000,000,000, or there are over 256 keys.
    BadAccounts,
    /// There is no memory for the requests that are to be carried out.
    NoMemory,
}

impl From<AllocError> for TableFault {
    ghost use Rattle.xa_tables.specs.declared.manager.TableFault.TheVariants.{NoMemory};

    ghost from_gives = { λ _ fault. fault ≡ NoMemory };

    fn from(_error: AllocError) -> TableFault {
        TableFault::NoMemory
    }
}

/// One resource manager: its sequential tables and its store.
pub struct Manager {
    inner: BranchTables,
    threads: u32,
    // How many more requests it can carry out.
    spare: u32,
    // For how many threads and requests there is room at the next opening.
    reserved: Option<(u32, u32)>,
}

// It is dropped by one call, wherever that is, and not part by part there.
impl Drop for Manager {
    fn drop(self) {
        let Manager {
            inner: _,
            threads: _,
            spare: _,
            reserved: _,
        } = self;
    }
}

impl Model for Manager {
    ghost use Rattle.std.specs.Prelude.{◌≡◌, ◌≤◌, ◌+◌, ◌*◌, ◌^◌, IfSome};
    ghost use Rattle.xa_tables.specs.Managers.{AreAssociationsLive, Managed, managed_code, free_threads};

    ghost Value = { Managed };

    ghost coded = { managed_code };

    ghost view = { λ m. record {
      tables = m.inner.tables;
      threads = m.threads;
      room = m.spare;
      reserved = m.reserved;
    } };

    ghost invariant = { λ m. (m.inner.threads ≡ m.threads)
        × (m.spare + free_threads m.threads m.inner.tables ≤ 2 * m.inner.spare)
        × AreAssociationsLive m.inner.tables
        × (m.inner.adds + m.spare ≤ 2 ^ 16)
        × IfSome m.reserved (λ r. (r.0 ≤ m.inner.seats) × (r.1 ≤ 2 * m.inner.spare) × (r.1 ≤ 2 ^ 15)) };
}

impl Manager {
    /// A manager that was just opened: no thread has it open, it has no branch, and its keys have these values.
    ///
    /// It carries out `room` requests of threads 1 to `threads`, in memory that is reserved here.
    pub fn new(
        alloc: Global,
        accounts: &[(Key, u64)],
        threads: u32,
        room: u32,
    ) -> Result<Manager, TableFault>
        requires threads { (1 ≤ threads) × (threads ≤ MOST_THREADS) }
        requires room { (1 ≤ room) × (room ≤ MOST_JOURNALED) }
        ensures tables { IfOk result (λ m. m.tables ≡ opening accounts.now) }
        ensures threads { IfOk result (λ m. m.threads ≡ threads) }
        ensures room { IfOk result (λ m. m.room ≡ room) }
        ensures reserved { IfOk result (λ m. m.reserved ≡ None) }
        ensures bad_accounts { IsErrOf result TableFault.BadAccounts ↔ (are_accounts accounts.now ≡ false) }
        ensures accounts { OnOk result (are_accounts accounts.now ≡ true) }
    {
        if !are_accounts(accounts) {
            return Err(TableFault::BadAccounts);
        }
        let inner = BranchTables::new(alloc, accounts, threads as usize, branches_within(room))?;
        Ok(Manager {
            inner,
            threads,
            spare: room,
            reserved: None,
        })
    }

    /// A manager that begins with what its store has: the accounts with their values, the branches that were left, and
    /// what the prepared ones of them have added. No thread has it open. It is refused for the first fault of these.
    ///
    /// It carries out `room` requests of threads 1 to `threads`, in memory that is reserved here beside that of the
    /// branches that were left.
    pub fn restored(
        alloc: Global,
        accounts: &[(Key, u64)],
        branches: &[(Xid, State)],
        sums: &[Sum],
        threads: u32,
        room: u32,
    ) -> Result<Manager, RestoreFault>
        requires threads { (1 ≤ threads) × (threads ≤ MOST_THREADS) }
        requires room { (1 ≤ room) × (room ≤ MOST_JOURNALED) }
        ensures tables { IfOk result (λ m. m.tables ≡ restored (stored accounts.now branches.now sums.now)) }
        ensures opening { IfOk result (λ m. IsOpening m.tables) }
        ensures threads { IfOk result (λ m. m.threads ≡ threads) }
        ensures room { IfOk result (λ m. m.room ≡ room) }
        ensures reserved { IfOk result (λ m. m.reserved ≡ None) }
        ensures faultless { OnOk result (fault_of (stored accounts.now branches.now sums.now) ≡ None) }
        ensures fault { IfErr result (λ f. f ≢ restore_fault.NoMemory
            → fault_of (stored accounts.now branches.now sums.now) ≡ Some f) }
    {
        let (seats, most) = (threads as usize, branches_within(room));
        let inner = restored_tables(alloc, accounts, branches, sums, seats, most)?;
        Ok(Manager {
            inner,
            threads,
            spare: room,
            reserved: None,
        })
    }

    /// Carries out one request of a thread, and answers its code. It takes no memory.
    #[inline(always)]
    pub fn apply(&mut self, thread: u32, op: &Op) -> Code
        requires thread { (1 ≤ thread) × (thread ≤ self.old.threads) }
        requires room { 0 < self.old.room }
        ensures step { (self.new.tables, result) ≡ next thread op.now self.old.tables }
        ensures live { AreAssociationsLive self.old.tables }
        ensures room { self.new.room + 1 ≡ self.old.room }
        ensures threads { self.new.threads ≡ self.old.threads }
        ensures reserved { self.new.reserved ≡ None }
    {
        let code = step(&mut self.inner, thread as usize, op);
        self.spare -= 1;
        self.reserved = None;
        code
    }

    /// The branches that are prepared or heuristically completed, rising: those that a reopening leaves.
    pub fn left(&self, alloc: Global) -> Result<Vec<Xid>, AllocError>
        ensures { IfOk result (λ v. AreLeft v.items self.now.tables) }
    {
        self.inner.left(alloc)
    }

    /// Reserves the memory of the next opening, which carries out `room` requests of threads 1 to `threads`.
    ///
    /// It is kept until the next request.
    pub fn reserve_reopen(&mut self, threads: u32, room: u32) -> Result<(), AllocError>
        requires threads { (1 ≤ threads) × (threads ≤ MOST_THREADS) }
        requires room { (1 ≤ room) × (room ≤ MOST_JOURNALED) }
        ensures reserved { OnOk result (self.new ≡ record self.old { reserved = Some (threads, room) }) }
        ensures refused { OnErr result (self.new ≡ self.old) }
    {
        self.inner
            .reserve_reopen(threads as usize, branches_within(room))?;
        self.reserved = Some((threads, room));
        Ok(())
    }

    /// The manager at the next opening, in memory that was reserved for so many threads and requests: no thread has it
    /// open, nobody is associated, it isn't shut, and no branch exists but those that are left. The values stay.
    pub fn reopened(self, threads: u32, room: u32) -> Manager
        requires { self.reserved ≡ Some (threads, room) }
        ensures tables { result.tables ≡ reopened self.tables }
        ensures threads { result.threads ≡ threads }
        ensures room { result.room ≡ room }
        ensures reserved { result.reserved ≡ None }
    {
        let Manager {
            mut inner,
            threads: _,
            spare: _,
            reserved: _,
        } = self;
        inner.reopen(threads as usize);
        Manager {
            inner,
            threads,
            spare: room,
            reserved: None,
        }
    }

    /// The committed value of a key, and `None` for a key that wasn't declared.
    pub fn value(&self, key: &Key) -> Option<u64>
        ensures value { option_map pos result ≡ finmap.get self.now.tables.values key.now }
        ensures bounded { IfSome result (λ v. v ≤ MOST_VALUE) }
    {
        self.inner.value(key)
    }

    /// The state of a branch, and `None` where it doesn't exist.
    pub fn state(&self, xid: &Xid) -> Option<State>
        ensures { result ≡ state_of self.now.tables xid.now }
    {
        self.inner.state(xid)
    }

    /// Fills `sums` with the keys that the branch has touched, in no order, each with what it has added.
    ///
    /// What stood in `sums` is gone. It takes no memory: there has to be room for as many keys as a manager may have.
    pub fn sums_of(&self, xid: &Xid, sums: &mut Vec<(Key, i64)>)
        requires { MOST_KEYS ≤ vec_capacity sums.old }
        ensures each { (k : List ℕ) → lookup (key_eq k) sums.new.items ≡ finmap.get self.now.tables.sums (xid.now, k) }
        ensures once { IsDistinct key_eq (keys_of sums.new.items) }
        ensures room { vec_capacity sums.new ≡ vec_capacity sums.old }
    {
        self.inner.sums_of(xid, sums);
    }

    /// Whether a Shut was carried out; from then on every request answers XAER_RMFAIL.
    #[inline(always)]
    pub fn is_shut(&self) -> bool
        ensures { result ≡ self.now.tables.shut }
    {
        self.inner.is_shut()
    }

    /// How many more requests it can carry out.
    #[inline(always)]
    pub fn room(&self) -> u32
        ensures { result ≡ self.now.room }
    {
        self.spare
    }
}

// The most branches that so many requests can begin: before each xa_start, an xa_open or xa_end makes its thread free.
fn branches_within(requests: u32) -> usize
    ensures { (requests ≤ 2 * result) × (result < 2 ^ 32) }
{
    requests.div_ceil(2) as usize
}

// Carries out one request, unless the manager is shut.
#[tactic(auto, unfolding(crate::specs::Next::next))]
#[inline(always)]
fn step(tables: &mut BranchTables, t: usize, op: &Op) -> Code
    requires first { 0 < t }
    requires last { t ≤ tables.old.threads }
    requires live { AreAssociationsLive tables.old.tables }
    requires room { 0 < tables.old.spare }
    requires few { tables.old.adds < 2 ^ 20 }
    ensures step { (tables.new.tables, result) ≡ next t op.now tables.old.tables }
    ensures kept { UsesAtMost (places_taken t tables.old.tables tables.new.tables) tables.old tables.new }
{
    if tables.is_shut() {
        return Code::RmFail;
    }
    if needs_opening(op) && !tables.has_opened(t) {
        return Code::Proto;
    }
    step_by_rules(tables, t, op)
}

// Whether a thread that hasn't opened may not ask it.
#[inline(always)]
fn needs_opening(op: &Op) -> bool
    ensures { result ≡ needs_opening op.now }
{
    match op {
        Op::Shut | Op::OpenRm | Op::CloseRm | Op::Heur(..) => false,
        _ => true,
    }
}

// A request that may be asked, by the rules of its group.
#[inline(always)]
fn step_by_rules(tables: &mut BranchTables, t: usize, op: &Op) -> Code
    requires first { 0 < t }
    requires last { t ≤ tables.old.threads }
    requires live { AreAssociationsLive tables.old.tables }
    requires room { 0 < tables.old.spare }
    requires few { tables.old.adds < 2 ^ 20 }
    ensures step { (tables.new.tables, result) ≡ by_rules t op.now tables.old.tables }
    ensures kept { UsesAtMost (places_taken t tables.old.tables tables.new.tables) tables.old tables.new }
{
    match op {
        Op::Shut => {
            tables.shut();
            Code::Done
        }
        Op::OpenRm => tables.open_rm(t),
        Op::CloseRm => tables.close_rm(t),
        Op::Start(xid, how) => start(tables, t, xid, *how),
        Op::Add(key, delta) => tables.add(t, *key, *delta),
        Op::End(xid, how) => tables.end(t, xid, *how),
        Op::Prepare(xid) => tables.prepare(xid),
        Op::Commit(xid, true) => tables.commit_one(xid),
        Op::Commit(xid, false) => tables.commit_two(xid),
        Op::Rollback(xid) => tables.rollback(xid),
        Op::Forget(xid) => tables.forget(xid),
        Op::Heur(xid, commits) => tables.heur(xid, *commits),
        Op::Listed(xid) => tables.listed(*xid),
    }
}

// A request to start work on a branch.
#[inline(always)]
fn start(tables: &mut BranchTables, t: usize, xid: &Xid, how: StartHow) -> Code
    requires first { 0 < t }
    requires last { t ≤ tables.old.threads }
    requires room { 0 < tables.old.spare }
    ensures step { (tables.new.tables, result) ≡ start how t xid.now tables.old.tables }
    ensures kept { UsesAtMost (places_taken t tables.old.tables tables.new.tables) tables.old tables.new }
{
    match how {
        StartHow::Fresh => tables.start_fresh(t, xid),
        StartHow::Join => tables.start_join(t, xid),
        StartHow::Resume => tables.start_resume(t, xid),
    }
}

//! What a settled opening has.
ghost use Rattle.std.specs.Prelude.{◌≡◌, ◌≤◌, ◌++◌, ◌∷◌, [], List, None, Some, option_map, pos, IfOk, IfSome, OnOk};
ghost use Rattle.std.specs.FinMap as finmap;
ghost use Rattle.xa_base.specs.Lists.{IsUpTo};
ghost use Rattle.xa_tables.specs.ManagerTables.{Tables};
ghost use Rattle.xa_tables.specs.Histories.{History};
ghost use Rattle.xa_tables.specs.Openings.{IsNew, AreLeft, reopened, left_by, value_over};
ghost use Rattle.xa_desk.specs.DeskViews.{sent_to, collected_from};
ghost use Rattle.xa_switch.specs.Settled.{IsSettled, ledgers_in, find_thread, find_manager, sent, collected, journal};
ghost use Rattle.xa_switch.specs.Settled.{value};
ghost use Rattle.xa_switch.specs.Fates.{first_of, history};
ghost use Rattle.xa_switch.specs.Reopening.{IsWhole, parts_of, find_ready, managers_in};

use crate::laws::settled_values_are_sums;
use std::alloc::{AllocError, Global};
use std::marker::Model;
use std::snapshot::Snapshot;
use xa_base::{MOST_JOURNALED, MOST_MANAGERS, MOST_THREADS, MOST_VALUE};
use xa_desk::Ledger;
use xa_tables::Manager;
use xa_words::{Code, Key, Op, Request, Xid};
use xa_worker::DoneWorker;

/// What a thread's desk leaves.
#[derive(Drop)]
pub(crate) struct EndedThread {
    pub(crate) number: u32,
    pub(crate) ledgers: Vec<Ledger>,
}

impl Model for EndedThread {
    ghost use Rattle.xa_switch.specs.Settled.{ThreadPart};

    ghost Value = { ThreadPart };

    ghost view = { λ t. record { thread = t.number; ledgers = t.ledgers.items } };
}

impl EndedThread {
    fn number(&self) -> u32
        ensures { result ≡ self.now.thread }
    {
        self.number
    }
}

/// What a manager's worker leaves.
pub(crate) struct Carried {
    pub(crate) number: u32,
    // Of what is settled: the tables that the manager was opened with, and what was taken. It has no bytes:
    // only proofs read it.
    pub(crate) done: Snapshot<DoneWorker>,
    pub(crate) manager: Manager,
    pub(crate) journal: Vec<(Request, Code)>,
}

// It is dropped by one call, wherever that is, and not part by part there.
impl Drop for Carried {
    fn drop(self) {
        let Carried {
            number: _,
            done: _,
            manager: _,
            journal: _,
        } = self;
    }
}

impl Model for Carried {
    ghost use Rattle.std.specs.Coded.{codes};
    ghost use Rattle.xa_tables.specs.Managers.{tables_code};
    ghost use Rattle.xa_tables.specs.Openings.{IsOpening};
    ghost use Rattle.xa_worker.specs.Journal.{Follows};
    ghost use Rattle.xa_switch.specs.Settled.{ReadyPart};
    ghost use Rattle.xa_switch.specs.Closing.{taken_by};

    ghost Value = { ReadyPart };

    ghost coded = { Prim.hlevel (codes, tables_code) };

    ghost view = { λ c. record {
      part = record {
        number = c.number;
        first = c.done.value.first;
        taken = taken_by c.done.value;
        journal = c.journal.items;
        last = c.manager.tables;
      };
      reserved = c.manager.reserved;
    } };

    ghost invariant = { λ c. IsOpening c.done.value.first × Follows c.done.value.first c.journal.items
        c.manager.tables };
}

impl Carried {
    pub(crate) fn number(&self) -> u32
        ensures { result ≡ self.now.part.number }
    {
        self.number
    }

    // The value of a key at the end.
    fn value(&self, key: &Key) -> Option<u64>
        ensures value { option_map pos result ≡ finmap.get self.now.part.last.values key.now }
        ensures bounded { IfSome result (λ v. v ≤ MOST_VALUE) }
    {
        self.manager.value(key)
    }

    /// The branches that are left at the end, rising.
    pub(crate) fn left(&self, alloc: Global) -> Result<Vec<Xid>, AllocError>
        ensures { IfOk result (λ v. AreLeft v.items self.now.part.last) }
    {
        self.manager.left(alloc)
    }

    /// Reserves the memory of the next opening, for so many threads and requests.
    pub(crate) fn reserve(&mut self, threads: u32, room: u32) -> Result<(), AllocError>
        requires threads { IsUpTo MOST_THREADS threads }
        requires room { IsUpTo MOST_JOURNALED room }
        ensures part { self.new.part ≡ self.old.part }
        ensures reserved { OnOk result (self.new.reserved ≡ Some (threads, room)) }
    {
        self.manager.reserve_reopen(threads, room)
    }

    /// The manager at the next opening, in memory that was reserved for it.
    pub(crate) fn reopened(self, threads: u32, room: u32) -> Manager
        requires { self.reserved ≡ Some (threads, room) }
        ensures { result ≡ record {
          tables = reopened self.part.last;
          threads = threads;
          room = room;
          reserved = None;
        } }
    {
        let Carried {
            number: _,
            done: _,
            manager,
            journal: _,
        } = self;
        manager.reopened(threads, room)
    }
}

/// A settled opening: for every thread and every manager, what was sent, what was carried out and what
/// was collected agree.
#[derive(Drop)]
pub struct Settled {
    pub(crate) opening: u64,
    pub(crate) threads: Vec<EndedThread>,
    pub(crate) managers: Vec<Carried>,
}

impl Model for Settled {
    ghost use Rattle.std.specs.Coded.{codes};
    ghost use Rattle.xa_tables.specs.Managers.{tables_code};
    ghost use Rattle.std.specs.Prelude.{map};
    ghost use Rattle.xa_switch.specs.Settled.{Settling, IsSettled};
    ghost use Rattle.xa_switch.specs.Reopening.{IsWhole, IsWhole, parts_of};

    ghost Value = { Settling };

    ghost coded = { Prim.hlevel (codes, tables_code) };

    ghost view = { λ s. record {
      opening = s.opening;
      threads = s.threads.items;
      managers = parts_of s.managers.items;
    } };

    ghost invariant = { λ s. IsSettled (record {
      opening = s.opening;
      threads = s.threads.items;
      managers = parts_of s.managers.items;
    }) × IsWhole (record {
      opening = s.opening;
      threads = s.threads.items;
      managers = parts_of s.managers.items;
    }) };
}

fn find_thread_part(threads: &[EndedThread], thread: u32) -> Option<&EndedThread>
    ensures { option_map (λ t. t.now) result ≡ find_thread thread threads.now }
{
    threads.iter().find(|part| part.number() == thread)
}

fn find_ready(managers: &[Carried], manager: u32) -> Option<&Carried>
    ensures { option_map (λ m. m.now) result ≡ find_ready manager managers.now }
{
    managers.iter().find(|part| part.number() == manager)
}

/// What the manager's worker has left, if there is such a manager.
#[tactic(auto, using(xa_base::proofs::option_map, crate::proofs::SettledOpenings::find_parts))]
pub(crate) fn find_carried(managers: &[Carried], manager: u32) -> Option<&Carried>
    ensures { option_map (λ m. m.now.part) result ≡ find_manager manager (parts_of managers.now) }
{
    find_ready(managers, manager)
}

fn ledgers(threads: &[EndedThread], thread: u32) -> &[Ledger]
    ensures { result.now ≡ ledgers_in (find_thread thread threads.now) }
{
    match find_thread_part(threads, thread) {
        Some(part) => &part.ledgers,
        None => &[],
    }
}

// The requests that were sent to the manager.
fn sent_in(ledgers: &[Ledger], manager: u32) -> &[Op]
    ensures { result.now ≡ sent_to ledgers.now manager }
{
    if manager == 0 || manager as usize > ledgers.len() {
        return &[];
    }
    ledgers[manager as usize - 1].sent()
}

fn collected_in(ledgers: &[Ledger], manager: u32) -> &[(u32, Code)]
    ensures { result.now ≡ collected_from ledgers.now manager }
{
    if manager == 0 || manager as usize > ledgers.len() {
        return &[];
    }
    ledgers[manager as usize - 1].collected()
}

impl Settled {
    /// What holds of every settled opening: what was sent, carried out and collected agrees, and each manager of it is
    /// there, and no other. A law: nothing is done.
    pub fn is_settled(&self)
        ensures settled { IsSettled self.now }
        ensures whole { IsWhole self.now }
    {
        let _inside = &self.opening;
    }

    /// How many managers it has, 1 to 8.
    pub fn managers(&self) -> usize
        ensures managers { result ≡ managers_in self.now }
        ensures limits { IsUpTo MOST_MANAGERS result }
    {
        match self.threads.first() {
            Some(part) => part.ledgers.len(),
            None => 0,
        }
    }

    /// What the manager took, in order, each request with its code. Nothing for no manager.
    pub fn journal(&self, manager: u32) -> &[(Request, Code)]
        ensures journal { result.now ≡ journal self.now manager }
        ensures settled { IsSettled self.now }
    {
        match find_carried(&self.managers, manager) {
            Some(part) => &part.journal,
            None => &[],
        }
    }

    /// What the thread sent to the manager, in order: the request at place n has number n. Nothing
    /// where one of them isn't there.
    pub fn sent(&self, thread: u32, manager: u32) -> &[Op]
        ensures sent { result.now ≡ sent self.now thread manager }
        ensures settled { IsSettled self.now }
    {
        sent_in(ledgers(&self.threads, thread), manager)
    }

    /// What the thread collected from the manager, in the order of collection: each request's number
    /// with its code. Nothing where one of them isn't there.
    pub fn collected(&self, thread: u32, manager: u32) -> &[(u32, Code)]
        ensures collected { result.now ≡ collected self.now thread manager }
        ensures settled { IsSettled self.now }
    {
        collected_in(ledgers(&self.threads, thread), manager)
    }

    // The value that the manager's tables have of a key at the end.
    fn tabled_value(&self, manager: u32, key: &Key) -> Option<u64>
        ensures value { option_map pos result ≡ value self.now manager key.now }
        ensures bounded { IfSome result (λ v. v ≤ MOST_VALUE) }
        ensures settled { IsSettled self.now }
    {
        match find_carried(&self.managers, manager) {
            Some(part) => part.value(key),
            None => None,
        }
    }

    /// The committed value of a key at the manager, from 0 to 10^12: what it was declared with, and each
    /// addition in the journal, and in those of the openings before, whose branch commits after it. None for no
    /// manager, or for a key that wasn't declared there.
    pub fn value(&self, manager: u32, key: &Key) -> Option<u64>
        ensures value { option_map pos result ≡ value self.now manager key.now }
        ensures sum { (before : List History) (T : Tables) → IsNew T
            → first_of self.now manager ≡ Some (left_by before T)
            → option_map pos result ≡ value_over key.now (before ++ history self.now manager ∷ []) T }
        ensures bounded { IfSome result (λ v. v ≤ MOST_VALUE) }
        ensures settled { IsSettled self.now }
    {
        settled_values_are_sums();
        self.tabled_value(manager, key)
    }
}

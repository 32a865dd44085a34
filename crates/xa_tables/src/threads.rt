//! The threads: which of them have the manager open, and their associations.
ghost use Rattle.std.specs.Prelude.{◌≡◌, ◌≤◌, ◌<◌, if◌then◌else◌, IfOk, OnOk, option_copied};
ghost use Rattle.std.specs.FinMap as map;
ghost use Rattle.std.specs.FinSet as set;
ghost use Rattle.std.specs.List.{list_any};
ghost use Rattle.xa_tables.specs.Next.{association};
ghost use Rattle.xa_tables.specs.ManagerTables.{is_somebody_associated};
ghost use Rattle.xa_tables.specs.Views.{is_thread_with};

use crate::state::{Association, AssociationState};
use std::alloc::{AllocError, Global};
use std::marker::Model;
use xa_words::Xid;

/// Whether a thread has the manager open, and the branch that it is associated with.
#[derive(Clone, Copy)]
pub(crate) struct ThreadState {
    is_open: bool,
    association: Option<Association>,
}

// A thread that hasn't opened and isn't associated.
const FREE: ThreadState = ThreadState {
    is_open: false,
    association: None,
};

/// The threads of control, which are numbered from 1.
#[derive(Drop)]
pub(crate) struct Threads {
    threads: Vec<ThreadState>,
}

impl Model for Threads {
    ghost use Rattle.std.specs.Prelude.{vec_capacity};
    ghost use Rattle.xa_tables.specs.Views.{ThreadTable, thread_table_code, thread_table_of};

    ghost Value = { ThreadTable };

    ghost coded = { thread_table_code };

    ghost view = { λ t. thread_table_of t.threads.items (vec_capacity t.threads) };
}

impl Threads {
    /// This many threads, none of which has opened or is associated.
    #[tactic(auto, using(crate::proofs::ThreadLemmas::free_rules))]
    pub(crate) fn new(alloc: Global, threads: usize) -> Result<Threads, AllocError>
        ensures nobody { IfOk result (λ t. t.opened ≡ set.empty) }
        ensures free { IfOk result (λ t. t.associations ≡ map.empty) }
        ensures count { IfOk result (λ t. t.threads ≡ threads) }
    {
        Ok(Threads {
            threads: vec![in alloc; FREE; threads]?,
        })
    }

    /// Makes room for so many threads.
    pub(crate) fn reserve(&mut self, threads: usize) -> Result<(), AllocError>
        ensures opened { self.new.opened ≡ self.old.opened }
        ensures associations { self.new.associations ≡ self.old.associations }
        ensures threads { self.new.threads ≡ self.old.threads }
        ensures room { OnOk result (threads ≤ self.new.seats) }
        ensures seats { self.old.seats ≤ self.new.seats }
    {
        self.threads.reserve(threads)
    }

    /// So many threads, for which there is room; none of them has opened or is associated.
    #[tactic(auto, using(crate::proofs::ThreadLemmas::free_rules))]
    pub(crate) fn reset(&mut self, threads: usize)
        requires { threads ≤ self.old.seats }
        ensures nobody { self.new.opened ≡ set.empty }
        ensures free { self.new.associations ≡ map.empty }
        ensures count { self.new.threads ≡ threads }
    {
        self.threads.clear();
        self.threads.resize(threads, FREE).unwrap();
    }

    /// Whether the thread has the manager open.
    #[inline(always)]
    pub(crate) fn has_opened(&self, thread: usize) -> bool
        requires first { 0 < thread }
        requires last { thread ≤ self.now.threads }
        ensures { result ≡ set.contains self.now.opened thread }
    {
        self.threads[thread - 1].is_open
    }

    /// From now on the thread has the manager open, or hasn't.
    #[tactic(auto, using(crate::proofs::ThreadLemmas::thread_same))]
    #[inline(always)]
    pub(crate) fn set_open(&mut self, thread: usize, is_open: bool)
        requires first { 0 < thread }
        requires last { thread ≤ self.old.threads }
        ensures opened { self.new.opened
            ≡ (if is_open then set.insert self.old.opened thread else set.remove self.old.opened thread) }
        ensures associations { self.new.associations ≡ self.old.associations }
        ensures threads { self.new.threads ≡ self.old.threads }
    {
        self.threads[thread - 1].is_open = is_open;
    }

    /// The thread's association, if it has one.
    #[tactic(auto, using(crate::proofs::ThreadLemmas::get_thread))]
    #[inline(always)]
    pub(crate) fn association(&self, thread: usize) -> Option<&Association>
        requires first { 0 < thread }
        requires last { thread ≤ self.now.threads }
        ensures { option_copied result ≡ map.get self.now.associations thread }
    {
        self.threads[thread - 1].association.as_ref()
    }

    /// From now on the thread is associated with this branch, and with no other.
    #[tactic(auto, using(crate::proofs::ThreadLemmas::thread_given))]
    #[inline(always)]
    pub(crate) fn associate(&mut self, thread: usize, xid: &Xid, state: AssociationState)
        requires first { 0 < thread }
        requires last { thread ≤ self.old.threads }
        ensures associations { self.new.associations
            ≡ map.insert self.old.associations thread (association xid.now state) }
        ensures opened { self.new.opened ≡ self.old.opened }
        ensures threads { self.new.threads ≡ self.old.threads }
    {
        self.threads[thread - 1].association = Some(Association { xid: *xid, state });
    }

    /// From now on the thread has no association.
    #[tactic(auto, using(crate::proofs::ThreadLemmas::thread_given))]
    #[inline(always)]
    pub(crate) fn dissociate(&mut self, thread: usize)
        requires first { 0 < thread }
        requires last { thread ≤ self.old.threads }
        ensures associations { self.new.associations ≡ map.remove self.old.associations thread }
        ensures opened { self.new.opened ≡ self.old.opened }
        ensures threads { self.new.threads ≡ self.old.threads }
    {
        self.threads[thread - 1].association = None;
    }

    /// Whether a thread is associated with the branch, be it suspended or not.
    #[inline(always)]
    pub(crate) fn is_somebody_associated(&self, xid: &Xid) -> bool
        ensures { result ≡ is_somebody_associated self.now.associations xid.now }
    {
        any_with(&self.threads, xid)
    }
}

#[inline(always)]
fn any_with(threads: &[ThreadState], xid: &Xid) -> bool
    ensures { result ≡ list_any (λ t. is_thread_with t xid.now) threads.now }
{
    threads.iter().any(|thread| is_with(thread, xid))
}

#[inline(always)]
fn is_with(thread: &ThreadState, xid: &Xid) -> bool
    ensures { result ≡ is_thread_with thread.now xid.now }
{
    match &thread.association {
        Some(association) => association.xid == *xid,
        None => false,
    }
}

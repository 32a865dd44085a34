//! The branches that exist, by their names.
ghost use Rattle.std.specs.Prelude.{◌≡◌, ◌≤◌, ◌<◌, ◌+◌, IfOk, OnOk};
ghost use Rattle.std.specs.Borrow.{sem};
ghost use Rattle.std.specs.FinMap as map;
ghost use Rattle.std.specs.List.{IsDistinct, list_any};
ghost use Rattle.std.specs.List.Sorted.{IsSorted};
ghost use Rattle.std.specs.Option.{option_copied_mut};
ghost use Rattle.xa_words.specs.Xid.{XidName, xid_cmp, xid_eq};
ghost use Rattle.xa_tables.specs.Lending.{LendsState};
ghost use Rattle.xa_tables.specs.ManagerTables.{is_left_in};

use crate::state::State;
use std::alloc::{AllocError, Global};
use std::collections::HashMap;
use std::marker::Model;
use xa_words::Xid;

/// The branches that exist, with room for as many more as were asked for.
#[derive(Drop)]
pub(crate) struct Branches {
    states: HashMap<Xid, State>,
}

impl Model for Branches {
    ghost use Rattle.xa_tables.specs.Views.{BranchTable, branch_table_code};
    ghost use Rattle.std.specs.FinMap.{from_entries};
    ghost use Rattle.std.specs.HashMap.{spare};

    ghost Value = { BranchTable };

    ghost coded = { branch_table_code };

    ghost view = { λ b. record { states = from_entries b.states.entries; spare = spare b.states } };
}

impl Branches {
    /// No branch, and room for this many.
    pub(crate) fn new(alloc: Global, room: usize) -> Result<Branches, AllocError>
        ensures empty { IfOk result (λ b. b.states ≡ map.empty) }
        ensures room { IfOk result (λ b. room ≤ b.spare) }
    {
        Ok(Branches {
            states: HashMap::with_capacity(alloc, room)?,
        })
    }

    /// The state of a branch, and `None` where it doesn't exist.
    #[tactic(auto, using(crate::proofs::SoundLemmas::state_found))]
    #[inline(always)]
    pub(crate) fn get(&self, xid: &Xid) -> Option<State>
        ensures { result ≡ map.get self.now.states xid.now }
    {
        self.states.get(xid).copied()
    }

    /// The state of a branch, to be changed in place, and `None` where it doesn't exist.
    #[inline(always)]
    pub(crate) fn state_mut(&mut self, xid: &Xid) -> Option<&mut State>
        ensures* writes_back { sem 𝓛 (LendsState self.entry xid.now result) }
        ensures value { option_copied_mut result ≡ map.get self.old.states xid.now }
    {
        self.states.get_mut(xid)
    }

    /// A new branch, in memory that `new` reserved.
    #[inline(always)]
    pub(crate) fn insert(&mut self, xid: &Xid, state: State)
        requires { 0 < self.old.spare }
        ensures state { self.new.states ≡ map.insert self.old.states xid.now state }
        ensures room { self.old.spare ≤ self.new.spare + 1 }
    {
        let inserted: Result<_, _> = self.states.insert(*xid, state);
        let _ = inserted.unwrap();
    }

    /// Makes room for so many branches more.
    pub(crate) fn reserve(&mut self, room: usize) -> Result<(), AllocError>
        ensures states { self.new.states ≡ self.old.states }
        ensures room { OnOk result (room ≤ self.new.spare) }
        ensures spare { self.old.spare ≤ self.new.spare }
    {
        self.states.reserve(room)
    }

    /// The branches that are left where the opening ends, rising.
    pub(crate) fn left(&self, alloc: Global) -> Result<Vec<Xid>, AllocError>
        ensures rising { IfOk result (λ v. IsSorted xid_cmp v.items) }
        ensures once { IfOk result (λ v. IsDistinct xid_eq v.items) }
        ensures each { IfOk result (λ v. (x : XidName) → list_any (xid_eq x) v.items
            ≡ is_left_in (map.get self.now.states x)) }
    {
        let mut left = Vec::new(alloc);
        for (xid, state) in self.states.iter() {
            if state.is_left() {
                left.push(*xid)?;
            }
        }
        left.sort_unstable();
        Ok(left)
    }

    /// Only the branches that are left stay.
    pub(crate) fn retain_left(&mut self)
        ensures states { self.new.states ≡ map.retain_keys self.old.states
            (λ x. is_left_in (map.get self.old.states x)) }
        ensures room { self.old.spare ≤ self.new.spare }
    {
        self.states.retain(|_, state| state.is_left());
    }

    /// The branch doesn't exist any more.
    #[inline(always)]
    pub(crate) fn remove(&mut self, xid: &Xid)
        ensures state { self.new.states ≡ map.remove self.old.states xid.now }
        ensures room { self.old.spare ≤ self.new.spare }
    {
        let _ = self.states.remove(xid);
    }
}

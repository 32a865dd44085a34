//! The branches that a store was told of.
ghost use Rattle.std.specs.Prelude.{◌≡◌, ◌||◌, [], IfOk, IsTrue, length, nat_eq};
ghost use Rattle.std.specs.List.{list_any};
ghost use Rattle.xa_words.specs.Xid.{XidName, xid_eq};

use std::alloc::{AllocError, Global};
use std::collections::HashSet;
use xa_words::Xid;

/// The most branches between two settles.
pub(crate) const MOST_TOLD: usize = 64;

/// The branches that may differ from what the file has.
#[derive(Drop)]
pub(crate) struct Told {
    pub(crate) branches: HashSet<Xid>,
}

impl Told {
    /// None, and room for all.
    pub(crate) fn new(alloc: Global) -> Result<Told, AllocError>
        ensures { IfOk result (λ t. t.branches.keys ≡ []) }
    {
        Ok(Told {
            branches: HashSet::with_capacity(alloc, MOST_TOLD)?,
        })
    }

    /// Whether there is none.
    pub(crate) fn is_empty(&self) -> bool
        ensures { result ≡ nat_eq (length self.now.branches.keys) 0 }
    {
        self.branches.is_empty()
    }

    /// Whether there is room for no other branch.
    pub(crate) fn is_full(&self) -> bool {
        self.branches.len() >= MOST_TOLD
    }

    /// Remembers a branch, unless there is no room for it. Whether it is remembered now.
    pub(crate) fn add(&mut self, xid: &Xid) -> bool
        ensures { IsTrue result → (x : XidName) → list_any (xid_eq x) self.new.branches.keys
            ≡ (xid_eq x xid.now || list_any (xid_eq x) self.old.branches.keys) }
    {
        if self.branches.contains(xid) {
            return true;
        }
        if self.is_full() {
            return false;
        }
        self.branches.insert(*xid).is_ok()
    }

    /// There is none any more.
    pub(crate) fn clear(&mut self)
        ensures { self.new.branches.keys ≡ [] }
    {
        self.branches.clear();
    }
}

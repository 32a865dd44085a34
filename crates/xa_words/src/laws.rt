//! Laws of the definitions, for all values.
ghost use Rattle.std.specs.Prelude.{◌≡◌, ◌↔◌, IsTrue, ℕ, ℤ, List};
ghost use Rattle.std.specs.Cmp.{IsTotalOrder};
ghost use Rattle.std.specs.declared.cmp.Ordering.TheVariants.{Equal};
ghost use Rattle.xa_words.specs.Xid.{XidName, xid_cmp};
ghost use Rattle.xa_words.specs.Tran.{TranName};
ghost use Rattle.xa_words.specs.Key.{key_cmp};
ghost use Rattle.xa_words.specs.Delta.{IsDelta, is_delta};
ghost use Rattle.xa_words.specs.declared.flags.TheConstants.{TMNOFLAGS, TMUSEASYNC};

use crate::key::Key;
use crate::tran::Tran;
use crate::xid::Xid;

/// `==` of branch names holds exactly where format, gtrid and bqual are the same.
pub fn xids_are_equal_by_parts()
    ensures { (x y : XidName) → IsTrue (⟦<Xid as PartialEq>⟧.eq x y) ↔ (x ≡ y) }
{}

/// Branch names are ordered by format, length of the gtrid, length of the bqual and bytes; that
/// order is total, and ties no two names.
pub fn xids_are_ordered()
    ensures order { (x y : XidName) → ⟦<Xid as Ord>⟧.cmp x y ≡ xid_cmp x y }
    ensures total { IsTotalOrder xid_cmp }
    ensures ties_none { (x y : XidName) → xid_cmp x y ≡ Equal → x ≡ y }
{}

/// `==` of global transactions holds exactly where format and gtrid are the same.
pub fn trans_are_equal_by_parts()
    ensures { (s t : TranName) → IsTrue (⟦<Tran as PartialEq>⟧.eq s t) ↔ (s ≡ t) }
{}

/// `==` of keys holds exactly where their bytes are the same.
pub fn keys_are_equal_by_bytes()
    ensures { (k l : List ℕ) → IsTrue (⟦<Key as PartialEq>⟧.eq k l) ↔ (k ≡ l) }
{}

/// Keys are ordered as their bytes are; that order is total, and ties no two keys.
pub fn keys_are_ordered()
    ensures order { (k l : List ℕ) → ⟦<Key as Ord>⟧.cmp k l ≡ key_cmp k l }
    ensures total { IsTotalOrder key_cmp }
    ensures ties_none { (k l : List ℕ) → key_cmp k l ≡ Equal → k ≡ l }
{}

/// The test of a change's amount holds exactly within the limit.
pub fn changes_are_within_the_limit()
    ensures { (z : ℤ) → IsTrue (is_delta z) ↔ IsDelta z }
{}

/// What xa.h has beside the flags that a call may take: that none stands, and the flag of a switch.
pub fn other_flags_have_their_numbers()
    ensures none { TMNOFLAGS ≡ 0x00000000 }
    ensures switch { TMUSEASYNC ≡ 0x00000004 }
{}

//! What of a manager is durable, and what a store of it restores.
ghost use Rattle.std.specs.Prelude.{◌≡◌, ℕ, List, None, true, false};
ghost use Rattle.xa_words.specs.Xid.{XidName};
ghost use Rattle.xa_words.specs.declared.request.Op.{Op};
ghost use Rattle.xa_tables.specs.ManagerTables.{Tables};
ghost use Rattle.xa_tables.specs.Histories.{History, tables_after};
ghost use Rattle.xa_tables.specs.Openings.{reopened, left_by};
ghost use Rattle.xa_words.specs.Accounts.{are_accounts};
ghost use Rattle.xa_tables.specs.Managers.{opening, AreAssociationsLive};
ghost use Rattle.xa_tables.specs.Durable.{FindsAlike, is_durable_at, moves_values};
ghost use Rattle.xa_tables.specs.Next.{next};
ghost use Rattle.xa_tables.specs.Restored.{Stored, HasEachOnce, IsStoreOf, restored, fault_of};

/// What a reopening finds of a branch is changed by a Prepare, Commit, Rollback, Forget or Heur alone that names it and
/// answers XA_OK, and values by a Commit or a Heur.
pub fn few_requests_change_what_is_durable()
    ensures branches { (t : ℕ) (op : Op) (x : XidName) (T : Tables) → AreAssociationsLive T
        → is_durable_at x op (next t op T).1 ≡ false → FindsAlike x T (next t op T).0 }
    ensures values { (t : ℕ) (op : Op) (T : Tables) → moves_values op (next t op T).1 ≡ false
        → (next t op T).0.values ≡ T.values }
{}

/// A store that has what a reopening of the tables finds restores just that. Whatever was requested, over any openings,
/// it isn't refused where it has each branch and each key once.
pub fn stores_of_the_tables_restore_them()
    ensures restored { (s : Stored) (T : Tables) → IsStoreOf s T → restored s ≡ reopened T }
    ensures faultless { (accounts : List (List ℕ × ℕ)) (before : List History) (h : History) (s : Stored)
        → are_accounts accounts ≡ true → IsStoreOf s (tables_after h (left_by before (opening accounts)))
        → HasEachOnce s → fault_of s ≡ None }
{}

/// What a reopening has made of the tables is reopened as it is: openings one after another, in which nothing is done,
/// change nothing that is durable.
#[tactic(auto, using(crate::proofs::TwiceReopened::again_the_same))]
pub fn a_second_reopening_changes_nothing()
    ensures { (T : Tables) → reopened (reopened T) ≡ reopened T }
{}

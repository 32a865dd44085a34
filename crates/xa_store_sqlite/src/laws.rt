//! Worked rows of a file, and what follows of files that have rows.
ghost use Rattle.std.specs.Prelude.{◌≡◌, ◌≢◌, ℕ, ℤ, List, [], ◌∷◌, pos, neg_ℤ, codes, None};
ghost use Rattle.sqlite_value.specs.declared.value.Value.TheVariants.{Null, Int, Text, Blob};
ghost use Rattle.xa_tables.specs.declared.state.State.TheVariants.{Prepared, HeuristicallyCompleted};
ghost use Rattle.xa_tables.specs.declared.state.HeuristicDecision.TheVariants.{Commit};
ghost use Rattle.sqlite_trees.specs.Tree.{Trees};
ghost use Rattle.xa_tables.specs.ManagerTables.{Tables};
ghost use Rattle.xa_tables.specs.Restored.{stored, fault_of};
ghost use Rattle.xa_slots.specs.{rows_from};
ghost use Rattle.xa_store_sqlite.specs.Files.{AreNewFiles, AreOfFiles, Bytes, HasNoRow, HasTrees};
ghost use Rattle.xa_store_sqlite.specs.Images.{slots_of, stored_of};
ghost use Rattle.xa_store_sqlite.specs.Worked.{completed_name, prepared_name, two_accounts, worked_image};

/// The rows of a file with two accounts, a prepared branch that has taken 30 from the second, and a branch that was
/// committed heuristically; and what a manager is restored from.
pub fn worked_rows()
    ensures accounts { rows_from 1 (slots_of worked_image 0)
        ≡ (Int (pos 1) ∷ Null ∷ Text (codes "a") ∷ Int (pos 100) ∷ [])
        ∷ (Int (pos 2) ∷ Null ∷ Text (codes "b") ∷ Int (pos 50) ∷ []) ∷ [] }
    ensures branches { rows_from 1 (slots_of worked_image 1)
        ≡ (Int (pos 2) ∷ Null ∷ Int (pos 1) ∷ Blob (codes "x") ∷ Blob (codes "1") ∷ Text (codes "prepared") ∷ [])
        ∷ (Int (pos 3) ∷ Null ∷ Int (neg_ℤ (pos 2)) ∷ Blob (codes "y") ∷ Blob (codes "1")
        ∷ Text (codes "committed heuristically") ∷ []) ∷ [] }
    ensures changes { rows_from 1 (slots_of worked_image 2)
        ≡ (Int (pos 2) ∷ Null ∷ Int (pos 2) ∷ Int (neg_ℤ (pos 30)) ∷ []) ∷ [] }
    ensures store { rows_from 1 (slots_of worked_image 3)
        ≡ (Int (pos 1) ∷ Null ∷ Int (pos 1) ∷ Int (pos 77) ∷ []) ∷ [] }
    ensures stored { stored_of worked_image ≡ stored two_accounts
        ((prepared_name, Prepared) ∷ (completed_name, HeuristicallyCompleted Commit) ∷ [])
        (record { xid = prepared_name; key = codes "b"; delta = neg_ℤ (pos 30) } ∷ []) }
    ensures faultless { fault_of (stored_of worked_image) ≡ None }
{}

/// Files that are read as trees with a row in the last one aren't new: what an opening finds in them is what they have,
/// whatever accounts it is given.
pub fn rows_are_found()
    ensures row { (files : Bytes) (trees : Trees) → HasTrees files trees → trees 3 ≢ [] → ¬ (HasNoRow files) }
    ensures one { (files : Bytes) (number : ℤ) (accounts : List (List ℕ × ℕ)) (T U : Tables)
        → AreOfFiles files number T → ¬ (AreNewFiles files accounts U) }
{}

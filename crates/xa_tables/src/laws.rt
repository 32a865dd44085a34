//! Laws of the definitions, for any history.
ghost use Rattle.std.specs.Prelude.{ℕ, List};
ghost use Rattle.xa_words.specs.Xid.{XidName};
ghost use Rattle.xa_tables.specs.ManagerTables.{Tables};
ghost use Rattle.xa_tables.specs.Histories.{History};
ghost use Rattle.xa_tables.specs.Openings.{IsNew, IsOpening, AreLeft, reopened, left_by};
ghost use Rattle.xa_tables.specs.Managers.{opening};
ghost use Rattle.xa_tables.specs.Next.{next};

/// What an opening leaves is what another may begin with, as the first begins with accounts alone; what is left stays
/// left.
#[tactic(auto, using(crate::proofs::Reopening::accounts_new, crate::proofs::Reopening::left_opens))]
pub fn openings_begin_with_what_was_left()
    ensures first { (accounts : List (List ℕ × ℕ)) → IsNew (opening accounts) }
    ensures new { (T : Tables) → IsNew T → IsOpening T }
    ensures next { (T : Tables) → IsOpening (reopened T) }
    ensures any { (before : List History) (T : Tables) → IsOpening T → IsOpening (left_by before T) }
    ensures left { (xs : List XidName) (T : Tables) → AreLeft xs T → AreLeft xs (reopened T) }
{}

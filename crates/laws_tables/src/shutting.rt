//! A Shut, and a crash, which is one as the tables see it.
ghost use Rattle.std.specs.Prelude.{◌≡◌, ℕ, [], true};
ghost use Rattle.xa_words.specs.Xid.{XidName};
ghost use Rattle.laws_tables.specs.Crashes.{shut_at};
ghost use Rattle.xa_tables.specs.ManagerTables.{Tables};
ghost use Rattle.xa_tables.specs.Histories.{History, tables_after, coded, fates_in};
ghost use Rattle.xa_tables.specs.Openings.{IsOpening, reopened};
ghost use Rattle.xa_tables.specs.Prepared.{has_shut};

/// A manager is shut exactly where a Shut stands before.
#[tactic(auto, using(crate::proofs::PreparedLaw::shut_law))]
pub fn only_a_shut_shuts()
    ensures { (h : History) (T : Tables) → IsOpening T → (tables_after h T).shut ≡ has_shut h }
{}

/// A manager that is shut makes nothing of any branch.
#[tactic(auto, using(crate::proofs::PreparedLaw::quiet_shut))]
pub fn shut_managers_decide_nothing()
    ensures { (g : History) (x : XidName) (T : Tables) → T.shut ≡ true → fates_in x (coded g T) ≡ [] }
{}

/// A crash leaves of a manager what a Shut would have left, at the place up to which the store has its history:
/// whatever comes after that is late, and a reopening finds the same.
#[tactic(auto, using(crate::proofs::CrashLaw::crash_law))]
pub fn a_crash_is_a_shut()
    ensures { (kept lost : History) (v : ℕ) (T : Tables)
        → reopened (tables_after (shut_at kept v lost) T) ≡ reopened (tables_after kept T) }
{}

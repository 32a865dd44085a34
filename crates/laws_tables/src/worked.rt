//! Worked histories, openings and stores.
ghost use Rattle.std.specs.Prelude.{◌≡◌, ◌++◌, ◌∷◌, pos, codes, [], None, Some};
ghost use Rattle.laws_tables.specs.Worked.{branch, worked, voted_history, transferred, undone, overdrawn, unchanged};
ghost use Rattle.laws_tables.specs.Worked.{failed_history, begun_again, decided_history, two_keys, two_prepared};
ghost use Rattle.laws_tables.specs.Worked.{one_completed, another, adding, taking, fate_after, committed_later};
ghost use Rattle.laws_tables.specs.Worked.{rolled_back_later, gone_later, forgotten_later, value_after, ended_then};
ghost use Rattle.laws_tables.specs.Worked.{voted_then, decided_then, forgotten_history};
ghost use Rattle.xa_tables.specs.Histories.{fate_in, Absent, Live, InDoubt, Committed, ReadOnly, RolledBack};
ghost use Rattle.xa_tables.specs.Histories.{HeurCommitted, HeurRolledBack};
ghost use Rattle.xa_tables.specs.declared.state.State.TheVariants.{Idle};
ghost use Rattle.xa_tables.specs.declared.restored.RestoreFault.TheVariants.{BadAccounts, BranchTwice, NotLeft};
ghost use Rattle.xa_tables.specs.declared.restored.RestoreFault.TheVariants.{UnknownKey, NotPrepared, KeyTwice};
ghost use Rattle.xa_tables.specs.declared.restored.RestoreFault.TheVariants.{OutOfLimits};
ghost use Rattle.xa_tables.specs.Restored.{stored, fault_of};

/// The fates of worked histories: a branch that works, votes, commits, is rolled back, would take
/// a value out of range, changes nothing, fails, begins again, and is decided heuristically either way.
pub fn worked_fates()
    ensures absent { fate_in branch Absent [] ≡ Absent }
    ensures worked { fate_in branch Absent worked ≡ Live }
    ensures voted { fate_in branch Absent voted_history ≡ InDoubt }
    ensures transferred { fate_in branch Absent transferred ≡ Committed }
    ensures undone { fate_in branch Absent undone ≡ RolledBack }
    ensures overdrawn { fate_in branch Absent overdrawn ≡ RolledBack }
    ensures unchanged { fate_in branch Absent unchanged ≡ ReadOnly }
    ensures failed { fate_in branch Absent failed_history ≡ RolledBack }
    ensures begun_again { fate_in branch Absent begun_again ≡ Live }
    ensures decided { fate_in branch Absent decided_history ≡ HeurCommitted }
    ensures forgotten { fate_in branch Absent forgotten_history ≡ HeurRolledBack }
{}

/// The fates of the branch in two worked openings: what the first leaves prepared waits until the second commits it or
/// rolls it back, what it leaves at work was rolled back, and a heuristic decision stands, also where it is forgotten.
pub fn worked_fates_over_openings()
    ensures waits { fate_after voted_history [] ≡ InDoubt }
    ensures committed { fate_after voted_history committed_later ≡ Committed }
    ensures rolled_back { fate_after voted_history rolled_back_later ≡ RolledBack }
    ensures at_work { fate_after worked gone_later ≡ RolledBack }
    ensures decided { fate_after decided_history forgotten_later ≡ HeurCommitted }
{}

/// The values of a key in two worked openings, from 100, of which the branch takes 30 in the first: that counts where
/// the branch is committed, in the second or by a heuristic decision before, and nowhere else.
pub fn worked_values_over_openings()
    ensures waits { value_after voted_then [] ≡ pos 100 }
    ensures committed { value_after voted_then committed_later ≡ pos 70 }
    ensures rolled_back { value_after voted_then rolled_back_later ≡ pos 100 }
    ensures at_work { value_after ended_then gone_later ≡ pos 100 }
    ensures decided { value_after decided_then forgotten_later ≡ pos 70 }
{}

/// What a store has, and the first reason why no manager is restored from it.
pub fn worked_restorings()
    ensures whole { fault_of (stored two_keys one_completed
        (taking branch (codes "a") 100 ∷ adding branch (codes "b") 1 ∷ [])) ≡ None }
    ensures bad_accounts { fault_of (stored (two_keys ++ two_keys) [] []) ≡ Some BadAccounts }
    ensures twice { fault_of (stored two_keys (two_prepared ++ one_completed) []) ≡ Some BranchTwice }
    ensures not_left { fault_of (stored two_keys ((branch, Idle) ∷ two_prepared) []) ≡ Some NotLeft }
    ensures unknown { fault_of (stored two_keys [] (adding branch (codes "c") 1 ∷ [])) ≡ Some UnknownKey }
    ensures not_prepared { fault_of (stored two_keys one_completed (adding another (codes "a") 1 ∷ []))
        ≡ Some NotPrepared }
    ensures key_twice { fault_of (stored two_keys two_prepared
        (adding branch (codes "a") 1 ∷ taking another (codes "a") 1 ∷ [])) ≡ Some KeyTwice }
    ensures too_little { fault_of (stored two_keys two_prepared (taking branch (codes "b") 6 ∷ [])) ≡ Some OutOfLimits }
    ensures too_much { fault_of (stored two_keys two_prepared (adding branch (codes "b") 999999999996 ∷ []))
        ≡ Some OutOfLimits }
{}

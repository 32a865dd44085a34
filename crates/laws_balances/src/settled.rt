//! What accounts are worth after settled openings.
ghost use Rattle.std.specs.Prelude.{◌≡◌, ◌≤◌, ℕ, ℤ, pos, ◌+ℤ◌, Some, true, List, [], ◌∷◌, ◌++◌};
ghost use Rattle.std.specs.List.{All, Contains};
ghost use Rattle.xa_base.specs.declared.limits.TheConstants.{MOST_MANAGERS};
ghost use Rattle.xa_base.specs.Sums.{total};
ghost use Rattle.xa_words.specs.Tran.{TranName};
ghost use Rattle.xa_tables.specs.ManagerTables.{Tables};
ghost use Rattle.xa_words.specs.Accounts.{are_accounts};
ghost use Rattle.xa_tables.specs.Managers.{opening};
ghost use Rattle.xa_tables.specs.Worth.{DeclareEach, worth, worth_declared};
ghost use Rattle.xa_switch.specs.Settled.{IsSettled};
ghost use Rattle.xa_switch.specs.Fates.{first_of};
ghost use Rattle.xa_driver.specs.declared.branch.Branch.{Branch};
ghost use Rattle.xa_driver.specs.Trace.{IsTranOf};
ghost use Rattle.laws_commit.specs.Calls.{CommitCall, ResolveCall};
ghost use Rattle.laws_commit.specs.Resolution.{AreInARow, IsResolved, Opening, last_of, tables_left};
ghost use Rattle.laws_balances.specs.Days.{DayLeg, counted_for};
ghost use Rattle.laws_balances.specs.Legs.{IsItsOwn, leg_of};
ghost use Rattle.laws_balances.specs.SettledDays.{ComesOutByTheLog, IsSettledDay, SettledWorthIsRecorded};

use laws_commit::{presumed_transactions_have_one_outcome, tables_keep_to_their_laws};

/// Settled openings in a row, at one manager: what any accounts are worth in its last tables is what they were worth in
/// its first and, for each branch whose transaction was recorded, what it held as it voted. That each ended by its
/// record is what `presumed_transactions_have_one_outcome` says of the branches of a commit that a resolve follows.
/// Where the first of them is the first of all, they were worth what was declared.
#[tactic(auto, using(crate::proofs::InARow::first_law, crate::proofs::InARow::settled_law))]
pub fn settled_days_are_worth_what_was_recorded()
    ensures any { (accounts : List (List ℕ × ℕ)) (m : ℕ) (T : Tables) (o : Opening) (later : List Opening)
        (legs : List DayLeg) → All (λ p. IsSettled p.settled) (o ∷ later) → AreInARow o later
        → first_of o.settled m ≡ Some T → DeclareEach accounts T → IsSettledDay accounts m T o later legs
        → SettledWorthIsRecorded accounts m T o later legs }
    ensures first { (accounts : List (List ℕ × ℕ)) (m : ℕ) (o : Opening) (later : List Opening) (legs : List DayLeg)
        → are_accounts accounts ≡ true → All (λ p. IsSettled p.settled) (o ∷ later) → AreInARow o later
        → first_of o.settled m ≡ Some (opening accounts)
        → IsSettledDay accounts m (opening accounts) o later legs
        → worth accounts (tables_left (last_of o later) m) ≡ worth_declared accounts +ℤ total counted_for legs }
{}

/// So where the legs at all managers are those of transfers, each of which takes from one account what it gives to
/// another, all accounts together are worth what they were.
pub fn transfers_conserve_the_worth_of_days()
    ensures { (ms : List ℕ) (accounts : ℕ → List (List ℕ × ℕ)) (first : ℕ → Tables) (o : Opening)
        (later : List Opening) (legs : ℕ → List DayLeg) (transfers : List CommitCall) (share : CommitCall → ℕ → ℤ)
        → All (λ m. SettledWorthIsRecorded (accounts m) m (first m) o later (legs m)) ms
        → All (λ m. total counted_for (legs m) ≡ total (λ k. share k m) transfers) ms
        → All (λ k. total (share k) ms ≡ pos 0) transfers
        → total (λ m. worth (accounts m) (tables_left (last_of o later) m)) ms
        ≡ total (λ m. worth (accounts m) (first m)) ms }
{}

/// A branch of a commit that a resolve follows, finished or cut short anywhere, comes out by the log: it counts for
/// what it held as it was asked, where the log has the record of its transaction, and else for nothing. The branch is
/// the commit's own, as a caller knows that gives each transaction a name of its own.
pub fn branches_come_out_by_the_log()
    ensures { (accounts : List (List ℕ × ℕ)) (o : Opening) (between : List Opening) (last : Opening) (k : CommitCall)
        (q : ResolveCall) (t : TranName) (b : Branch) (T : Tables) → IsResolved o between last k q
        → IsTranOf k.branches t → Contains k.branches b → b.m ≤ MOST_MANAGERS → first_of o.settled b.m ≡ Some T
        → IsItsOwn k t o (between ++ last ∷ []) T b
        → ComesOutByTheLog accounts b.m T o (between ++ last ∷ []) (leg_of accounts k t o.settled T b) }
{
    tables_keep_to_their_laws();
    presumed_transactions_have_one_outcome();
}

//! What accounts are worth after openings one after another, of which any were killed.
ghost use Rattle.std.specs.Prelude.{◌≡◌, ◌≤◌, ℕ, ℤ, pos, Some, List, ◌∷◌, ◌++◌, map};
ghost use Rattle.std.specs.List.{All, Contains};
ghost use Rattle.xa_base.specs.declared.limits.TheConstants.{MOST_MANAGERS};
ghost use Rattle.xa_base.specs.Sums.{total};
ghost use Rattle.xa_words.specs.Tran.{TranName};
ghost use Rattle.xa_tables.specs.ManagerTables.{Tables};
ghost use Rattle.xa_tables.specs.Worth.{DeclareEach, worth, worth_declared};
ghost use Rattle.xa_switch.specs.Fates.{first_of};
ghost use Rattle.xa_driver.specs.declared.branch.Branch.{Branch};
ghost use Rattle.xa_driver.specs.Trace.{IsTranOf};
ghost use Rattle.laws_commit.specs.Calls.{CommitCall, ResolveCall};
ghost use Rattle.laws_commit.specs.Resolution.{last_of, tables_left};
ghost use Rattle.laws_commit.specs.Worth.{histories};
ghost use Rattle.laws_balances.specs.Days.{DayLeg, counted_for};
ghost use Rattle.laws_balances.specs.Legs.{IsItsOwn, leg_of};
ghost use Rattle.laws_balances.specs.MovedOver.{CommitsNowhere};
ghost use Rattle.laws_balances.specs.SettledDays.{SettledWorthIsRecorded};
ghost use Rattle.laws_kill.specs.Balances.{AreDeclaredAt, AreLegsOfAll, ComesOutInTurn};
ghost use Rattle.laws_kill.specs.Openings.{EndedOpening, FollowEachOther, IsLeftToResolves, LastResolves};
ghost use Rattle.laws_kill.specs.Openings.{as_opening, settled_as, with_commit};

use laws_balances::{branches_come_out_by_the_log, transfers_conserve_the_worth_of_days};
use xa_log::laws::several_logs_are_read_as_one;
use xa_switch::laws::reopened_openings_go_on_from_what_was_left;

/// A branch of a commit that was begun in any of these openings, finished or cut short by a kill, comes out by the log:
/// it counts for what it held as it was asked, where the log has the record of its transaction, and else for nothing.
/// The branch is the commit's own, as a caller knows that gives each transaction a name of its own.
pub fn killed_branches_come_out_by_the_log()
    ensures { (accounts : List (List ℕ × ℕ)) (before : List EndedOpening) (o : EndedOpening)
        (later rest : List EndedOpening) (q : ResolveCall) (k : CommitCall) (t : TranName) (b : Branch) (T : Tables)
        → FollowEachOther (before ++ o ∷ (later ++ rest)) → LastResolves later q → Contains o.begun k
        → IsLeftToResolves k o later q → IsTranOf k.branches t → Contains k.branches b → b.m ≤ MOST_MANAGERS
        → first_of (settled_as o.how) b.m ≡ Some T
        → All (CommitsNowhere b.xid) (histories b.m (map as_opening before))
        → All (CommitsNowhere b.xid) (histories b.m (map as_opening rest))
        → IsItsOwn k t (with_commit o k) (map as_opening later) T b
        → ComesOutInTurn accounts b.m (before ++ o ∷ (later ++ rest)) (leg_of accounts k t (settled_as o.how) T b) }
{
    reopened_openings_go_on_from_what_was_left();
    several_logs_are_read_as_one();
    branches_come_out_by_the_log();
}

/// Over openings one after another, any of them killed, with commits in each: what any accounts of a manager are worth
/// in its last tables is what they were worth in its first and, for each branch whose transaction was recorded, what it
/// held as it voted.
pub fn killed_openings_are_worth_what_was_recorded()
    ensures { (accounts : List (List ℕ × ℕ)) (m : ℕ) (o : EndedOpening) (later : List EndedOpening) (T : Tables)
        (legs : List DayLeg) → FollowEachOther (o ∷ later) → first_of (settled_as o.how) m ≡ Some T
        → DeclareEach accounts T → AreLegsOfAll accounts m (o ∷ later) legs
        → SettledWorthIsRecorded accounts m T (as_opening o) (map as_opening later) legs }
{
    reopened_openings_go_on_from_what_was_left();
}

/// So where the legs at all managers are those of transfers, each of which takes from one account what it gives to
/// another, all accounts together are worth what they were declared with.
pub fn killed_openings_conserve_the_worth()
    ensures { (ms : List ℕ) (accounts : ℕ → List (List ℕ × ℕ)) (o : EndedOpening) (later : List EndedOpening)
        (legs : ℕ → List DayLeg) (transfers : List CommitCall) (share : CommitCall → ℕ → ℤ)
        → FollowEachOther (o ∷ later) → All (λ m. AreDeclaredAt (accounts m) m o later (legs m)) ms
        → All (λ m. total counted_for (legs m) ≡ total (λ k. share k m) transfers) ms
        → All (λ k. total (share k) ms ≡ pos 0) transfers
        → total (λ m. worth (accounts m) (tables_left (last_of (as_opening o) (map as_opening later)) m)) ms
        ≡ total (λ m. worth_declared (accounts m)) ms }
{
    killed_openings_are_worth_what_was_recorded();
    transfers_conserve_the_worth_of_days();
}

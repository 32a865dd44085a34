//! Values of keys, what branches hold, and what accounts are worth.
ghost use Rattle.std.specs.Prelude.{◌≡◌, ◌≢◌, ℕ, ℤ, pos, List, Some, option_map, true};
ghost use Rattle.xa_words.specs.Xid.{XidName};
ghost use Rattle.xa_words.specs.declared.code.Code.TheVariants.{Done, RdOnly};
ghost use Rattle.xa_words.specs.declared.request.Op.{Op};
ghost use Rattle.xa_words.specs.declared.request.Op.TheVariants.{Add, Prepare};
ghost use Rattle.laws_tables.specs.Work.{AddsAsItWorks};
ghost use Rattle.xa_tables.specs.ManagerTables.{Tables, association_of, is_declared};
ghost use Rattle.xa_tables.specs.Histories.{History, EndsNowhere, StaysWithin, tables_after};
ghost use Rattle.xa_tables.specs.Openings.{IsOpening, left_by};
ghost use Rattle.xa_words.specs.Accounts.{are_accounts};
ghost use Rattle.xa_tables.specs.Managers.{opening};
ghost use Rattle.xa_tables.specs.Next.{next};
ghost use Rattle.xa_tables.specs.Prepared.{NamesNowhere};
ghost use Rattle.xa_tables.specs.Worth.{WorthIsMoved, WorthIsMovedFrom, DeclareEach, HoldsItsAdditions, held_by};

/// Whatever is requested, over any openings, a declared key's value is from 0 to 10^12.
pub fn values_stay_within_the_limits()
    ensures { (accounts : List (List ℕ × ℕ)) (before : List History) (h : History) (k : List ℕ)
        → are_accounts accounts ≡ true → StaysWithin k h (left_by before (opening accounts)) }
{}

/// A branch that has added to a key isn't read only: its Prepare isn't answered XA_RDONLY, unless it was
/// ended in between.
pub fn adders_never_vote_read_only()
    ensures { (t u : ℕ) (op : Op) (x : XidName) (k : List ℕ) (d : ℤ) (g : History) (T : Tables) → op ≡ Add k d
        → option_map (λ a. a.xid) (association_of T u) ≡ Some x → (next u op T).1 ≡ Done
        → EndsNowhere x g (next u op T).0 → (next t (Prepare x) (tables_after g (next u op T).0)).1 ≢ RdOnly }
{}

/// What a manager's accounts are worth together is what was declared and what each Commit, and each heuristic
/// one, that was answered XA_OK has added: all that its branch held.
#[tactic(auto, using(crate::proofs::WorthLaw::worth_law))]
pub fn commits_alone_move_the_worth()
    ensures { (accounts : List (List ℕ × ℕ)) (h : History) → are_accounts accounts ≡ true → WorthIsMoved accounts h }
{}

/// So they move the worth of any accounts that are declared in the tables with which a history begins, as in those of a
/// later opening. What is declared stays so, and nothing else becomes so.
#[tactic(auto, using(laws_fates::proofs::ValueLaw::worth_from, laws_fates::proofs::ValueLaw::declared_on))]
pub fn commits_alone_move_the_worth_of_any_tables()
    ensures worth { (accounts : List (List ℕ × ℕ)) (h : History) (T : Tables) → DeclareEach accounts T
        → WorthIsMovedFrom accounts h T }
    ensures declared { (h : History) (k : List ℕ) (T : Tables) → is_declared (tables_after h T) k ≡ is_declared T k }
{}

/// A branch holds what it has added since it was last ended, whichever threads have added it.
#[tactic(auto, using(crate::proofs::WorthLaw::held_law))]
pub fn branches_hold_their_additions()
    ensures { (accounts : List (List ℕ × ℕ)) (x : XidName) (h : History) → are_accounts accounts ≡ true
        → HoldsItsAdditions accounts x h }
{}

/// A branch whose work one thread did has added what the thread added to it, whatever others ask for.
pub fn a_thread_adds_as_it_works()
    ensures { (t n : ℕ) (x : XidName) (k : List ℕ) (d : ℤ) (h : History) (T : Tables) → IsOpening T
        → AddsAsItWorks t n x k d T h }
{}

/// From a Prepare that was answered XA_OK on a branch holds what it held, whatever is requested that doesn't
/// name it.
#[tactic(auto, using(crate::proofs::WorthLaw::kept_law))]
pub fn prepared_branches_keep_what_they_hold()
    ensures { (accounts : List (List ℕ × ℕ)) (t : ℕ) (x : XidName) (h g : History) (T : Tables) → IsOpening T
        → (next t (Prepare x) (tables_after h T)).1 ≡ Done → NamesNowhere x g
        → held_by accounts x (tables_after g (next t (Prepare x) (tables_after h T)).0)
        ≡ held_by accounts x (tables_after h T) }
{}

/// A branch whose Prepare is answered XA_RDONLY held nothing.
#[tactic(auto, using(crate::proofs::WorthLaw::read_law))]
pub fn read_only_branches_hold_nothing()
    ensures { (accounts : List (List ℕ × ℕ)) (t : ℕ) (x : XidName) (T : Tables) → (next t (Prepare x) T).1 ≡ RdOnly
        → held_by accounts x T ≡ pos 0 }
{}

//! Laws of the definitions, for any desk: what it keeps, and which tickets are still owned, as it goes on.
//!
//! Each call of a desk says itself that the desk goes on, and what it leaves of the tickets. These laws are
//! for a caller that joins calls, or has no more of one than what it did.
ghost use Rattle.std.specs.Prelude.{◌≢◌, ℕ, List};
ghost use Rattle.std.specs.FinMap as map;
ghost use Rattle.xa_words.specs.declared.code.Code.{Code};
ghost use Rattle.xa_words.specs.declared.request.Op.{Op};
ghost use Rattle.xa_desk.specs.LedgerViews.{LedgerView};
ghost use Rattle.xa_desk.specs.declared.operation.Operation.{Operation};
ghost use Rattle.xa_desk.specs.DeskViews.{DeskView, TicketView, IsKnown, Owns, next_operation};
ghost use Rattle.xa_desk.specs.Ended.{EndedView, Ends};
ghost use Rattle.xa_desk.specs.GoingOn.{GoesOn, GoesOut};
ghost use Rattle.xa_desk.specs.Growth.{HaveGrown};
ghost use Rattle.xa_desk.specs.Lanes.{submitted, after_full, after_fulls};
ghost use Rattle.xa_desk.specs.Looks.{Looks, EndsQuiet, Collects, CollectsKept, CollectsLeast};
ghost use Rattle.xa_desk.specs.Tickets.{LeavesTickets, LeavesOthers};

/// Looking at the lane of completions leaves every ticket owned.
#[tactic(auto, using(crate::proofs::Looks::looking_leaves))]
pub fn looking_leaves_tickets()
    ensures { (old new : DeskView) → Looks old new → LeavesTickets old new }
{}

/// Sending a request leaves every ticket owned, and none of them is of the new operation. A lane that is
/// full leaves them too.
#[tactic(auto, using(crate::proofs::GoingOn::sent_rules))]
pub fn sending_leaves_tickets()
    ensures left { (old : DeskView) (m : ℕ) (op : Op) → IsKnown old.ledgers m → LeavesTickets old (submitted old m op) }
    ensures fresh { (old : DeskView) (m : ℕ) (op : Op) → IsKnown old.ledgers m → (t : TicketView) → Owns old t
        → t.operation ≢ next_operation old.ledgers m }
    ensures full { (old : DeskView) (m : ℕ) → LeavesTickets old (after_full old m) }
{}

/// Collecting an operation leaves every other ticket owned.
#[tactic(auto, using(crate::proofs::GoingOn::collects_stays))]
pub fn collecting_leaves_others()
    ensures { (old new : DeskView) (o : Operation) (code : Code) → Collects old new o code → LeavesOthers old new o }
{}

/// Keeping an operation leaves every other ticket owned, and freeing a number leaves every ticket owned.
pub fn keeping_leaves_others()
    ensures kept { (old : DeskView) (o : Operation) (number : ℕ)
        → LeavesOthers old (record old { kept = map.insert old.kept number o }) o }
    ensures freed { (old : DeskView) (number : ℕ) → LeavesTickets old
        (record old { kept = map.remove old.kept number }) }
{}

/// A desk goes on as it is, and one that went on may go on.
#[tactic(auto, using(crate::proofs::GoingOn::goes_same, crate::proofs::GoingOn::goes_further))]
pub fn desks_go_on()
    ensures same { (d : DeskView) → GoesOn d d }
    ensures further { (old mid new : DeskView) → GoesOn old mid → GoesOn mid new → GoesOn old new }
{}

/// So may lists that have grown.
#[tactic(auto, using(crate::proofs::Ledgers::same_lists, crate::proofs::Ledgers::growing_on))]
pub fn growth_goes_on()
    ensures same { (at : List LedgerView) → HaveGrown at at }
    ensures further { (old mid new : List LedgerView) → HaveGrown old mid → HaveGrown mid new → HaveGrown old new }
{}

/// What a desk's calls do to it has it go on: sending, also where lanes are full, looking, and collecting.
pub fn operations_go_on()
    ensures sending { (d : DeskView) (m : ℕ) (op : Op) → GoesOn d (submitted d m op) }
    ensures full { (n : ℕ) (d : DeskView) (m : ℕ) → GoesOn d (after_fulls n d m) }
    ensures looking { (old new : DeskView) → Looks old new → GoesOn old new }
    ensures quiet { (old new : DeskView) → EndsQuiet old new → GoesOn old new }
    ensures collecting { (old new : DeskView) (o : Operation) (code : Code) → Collects old new o code → GoesOn old new }
    ensures collecting_kept { (old new : DeskView) (number : ℕ) (code : Code) → CollectsKept old new number code
        → GoesOn old new }
    ensures collecting_least { (old new : DeskView) (m number : ℕ) (code : Code) → CollectsLeast old new m number code
        → GoesOn old new }
{}

/// A desk that ended has its seat and its lists.
pub fn desks_go_out()
    ensures { (d : DeskView) (e : EndedView) → Ends d e → GoesOut d e }
{}

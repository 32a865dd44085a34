//! What the calls of a thread keep.
ghost use Rattle.std.specs.Prelude.{◌≡◌, ℕ};
ghost use Rattle.xa_words.specs.declared.code.Code.{Code};
ghost use Rattle.xa_desk.specs.DeskViews.{DeskView, outstanding};
ghost use Rattle.xa_desk.specs.Kept.{AllKept, HoldsNone};
ghost use Rattle.xa_calls.specs.Completing.{CollectsRedeemed};

/// As an operation that is kept under a number is collected, the others stay kept; and where all that is outstanding is
/// kept and nothing is kept, nothing is outstanding.
pub fn outstanding_operations_stay_kept()
    ensures collected { (old new : DeskView) (k : ℕ) (c : Code) → CollectsRedeemed old new k c → AllKept old
        → AllKept new }
    ensures none { (d : DeskView) → AllKept d → HoldsNone d → outstanding d.ledgers ≡ 0 }
{}

//! Laws of what a lane says as it is closed.
ghost use Rattle.std.specs.Prelude.{List, ℕ};
ghost use Rattle.xa_lane.specs.declared.parcel.Parcel.{Parcel};
ghost use Rattle.xa_lane.specs.Ends.{Sending};
ghost use Rattle.xa_lane.specs.Closing.{Conserves, EndsLast, LeavesNothing};

/// Where the end mark of each sender is its last parcel, what was taken of a sender and then what
/// was left of it is what it sent.
pub fn last_ends_conserve<T>()
    ensures { (ends : List (Sending T)) (taken : List (Parcel T)) (left : List (ℕ × T)) → EndsLast ends taken left
        → Conserves ends taken left }
{}

/// Once a sender's end mark was taken, nothing of the sender is left.
pub fn nothing_follows_an_end<T>()
    ensures { (ends : List (Sending T)) (taken : List (Parcel T)) (left : List (ℕ × T)) → EndsLast ends taken left
        → LeavesNothing ends taken left }
{}

//! A unit of work: what a thread of control does for one global transaction, from the first Start to the decision.
//!
//! Give `transact` the branches of a global transaction, one at each manager, and the changes that are to be made
//! there. It starts each branch, makes its changes and ends it, with all requests in flight where that can be
//! (in_flight.rt), and else one after the other (in_turn.rt); and commits all branches by `commit`. Where anything
//! is refused, it gives all of them up (giving_up.rt): it ends the thread's work as failed and rolls each branch back.
//!
//! The thread opens its managers first (`open_all`). What a unit of work did is told, and the contract says what that
//! did to the desk and the log (`specs/Units.antt`).
#![tactic(auto)]

mod giving_up;
mod in_flight;
mod in_turn;
mod opening;
mod step;
mod unit;

pub use opening::open_all;
pub use unit::{Change, Refusal, WorkOutcome, may_begin, transact, transact_until};
pub use xa_driver::CommitOutcome;

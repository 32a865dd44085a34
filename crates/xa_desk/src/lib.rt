//! One thread of control's desk: what it has sent, what it has collected, and what is outstanding.
//!
//! A `Desk` sends requests to managers and collects their completions, as calls with `TMASYNC` and
//! `xa_complete()` do (C193, chapters 4 and 5), over its ends of lanes. Contracts see it as a `DeskView`.
//! Each operation that was sent is collected once, by its `Ticket`, or by the number of the handle under
//! which it is kept.
#![tactic(auto)]

mod book;
mod desk;
mod ended;
mod event;
mod found;
mod idle;
mod kept;
pub mod laws;
mod ledger;
mod marks;
mod operation;
mod parts;
mod places;
mod pump;
mod refused;
mod spin;

pub use desk::Desk;
pub use ended::{DeskEnds, EndedDesk};
pub use idle::Idle;
pub use ledger::Ledger;
pub use operation::Ticket;
pub use parts::DeskParts;
pub use refused::{AnyFault, NothingOutstanding, Refused};
pub use spin::Spin;

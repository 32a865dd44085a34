//! A bank over the switch: each resource manager is a store of accounts, and tellers, one for each thread of
//! control, move money between stores, each transfer as one global transaction.
//!
//! It shows how a program uses the library. A teller is the client of a crew (teller.rt): each of its transfers is a
//! unit of work of xa_work, whose decision goes to the teller's own log, in memory or on a disk. A teller that is to
//! die does so at a point of a commit, and one that is to shut a store does so before a transfer (habits.rt); where its
//! log has lost a record it stops. `run_day` (day.rt) runs the tellers over a plan, and ensures that what they sent,
//! what the stores carried out and what was collected agree, and that it is of the plan.
#![tactic(auto)]

mod day;
mod habits;
mod teller;

pub use day::{Day, run_day};
pub use habits::{DiesAt, Habits, ShutsAt};
pub use teller::{Teller, Transfer};

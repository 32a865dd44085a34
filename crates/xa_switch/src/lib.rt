//! The switch: how desks and workers of one opening are made, and how an opening is settled.
//!
//! `open_switch` gives a desk for each thread of control and a worker for each manager, and `open_over` does so over
//! managers that are there. A thread makes the calls of XA over its desk (xa_calls). What is settled may be opened
//! again: `reopen` gives desks and workers over the managers as they were left, and scans by which `xa_recover` lists
//! what they hold in doubt.
#![tactic(auto)]

mod columns;
pub mod laws;
mod opening;
mod plan;
mod settling;

pub use opening::reopening::{Unopened, may_reopen, reopen};
pub use opening::{UnopenedManagers, open_over, open_switch};
pub use plan::{Again, ManagerPlan, OpenFault, Plan};
pub use settling::settled::Settled;
pub use settling::{Unsettled, Why, settle};

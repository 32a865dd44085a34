//! One manager's sequential tables.
#![tactic(auto)]

mod accounts;
mod branch_tables;
mod branches;
pub mod laws;
mod manager;
mod places;
mod restored;
mod state;
mod threads;

pub use manager::{Manager, TableFault};
pub use restored::{RestoreFault, Sum};
pub use state::{Association, HeuristicDecision, RollbackReason, State};

//! The decision log of a presumed-abort coordinator: what every log keeps to, one in memory, several read as one, and
//! one that refuses or loses an append, for trials.
#![tactic(auto)]

pub mod laws;
mod log;
mod memory;
mod several;
mod trial;

pub use log::{CommitRecord, DecisionLog, DecisionRecords, GroupLog, LogFault, ReopenLog};
pub use memory::MemoryLog;
pub use trial::TrialLog;

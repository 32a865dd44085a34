//! What all crates count by: how many threads, managers, handles and requests there may be, and lists side by
//! side or step by step, of which the contracts of several crates speak (`specs/Lists.antt`).
#![tactic(auto)]

pub mod laws;
mod limits;

pub use limits::{
    MOST_HANDLES, MOST_JOURNALED, MOST_KEYS, MOST_MANAGERS, MOST_QUEUED, MOST_REQUESTS,
    MOST_SENDERS, MOST_THREADS, MOST_VALUE,
};

//! What a manager's store promises: what a crash leaves of the manager, before an answer goes out and after.
//!
//! A manager is in memory. Its store, if it has one, keeps on a disk what a reopening would keep of it: the branches
//! that are prepared or heuristically completed, what the prepared ones add, and the values of the accounts. A
//! [`Store`] is told of each request that the manager has carried out, and settles what it was told before any answer
//! of it is sent. After a settle a crash leaves what a reopening keeps of the manager's tables, and nothing else. A
//! crash before the settle, or in the middle of it, leaves that or what the settle before has left.
//!
//! A manager that is opened again in one process has its store reopened with it.
#![tactic(auto)]

mod store;

pub use store::{NoStore, Store, StoreFault, settle_or_stop};

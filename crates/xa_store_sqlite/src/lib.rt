//! A manager's store in one SQLite file, which people read with the sqlite3 shell while no program has it open.
//!
//! The file has four tables, as `database` makes them:
//!
//! * `accounts`: the declared keys with their committed values;
//! * `branches`: those that are prepared or heuristically completed, each with its state;
//! * `changes`: what a prepared branch has added to an account, under the id of the account, which at most one such
//!   branch has touched;
//! * `store`: the version of this layout, and the number by which a file of another set is refused.
//!
//! Each is a table of slots (`xa_slots`): slot k is the row with the id k + 1. A settle writes what differs, in one
//! commit. Each page has a checksum, so a byte of the database file that a disk has turned is found as the file is
//! opened; it also means that a file which sqlite3 has written to is refused (`NotADatabase`). A byte that is turned in
//! the log hides the commits from there on, since nobody can tell it from a write that a crash has torn.
#![tactic(auto)]

mod database;
mod fault;
mod kept;
pub mod laws;
mod mirror;
mod opening;
mod reading;
mod rows;
mod store;
mod told;

pub use database::PAGE_SIZE;
pub use fault::{RowFault, StoreOpenFault, Table};
pub use opening::open;
pub use store::{SlotStore, SqliteStore};

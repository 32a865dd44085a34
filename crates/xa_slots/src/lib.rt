//! Tables of slots in a store of trees, as a SQLite file has them: slot k of a table is the row with the rowid k + 1.
//!
//! A slot is set or cleared in the transaction that is always open, and `commit` makes all that was written since the
//! last one durable at once: a crash leaves the slots as they were at the last commit, or as they are now. `read` gives
//! the slots of a table up to the last that is taken, as an opening needs them, and refuses a table that has any other
//! row.
#![tactic(auto)]

mod fault;
mod slots;

pub use fault::TableReadFault;
pub use slots::SlotTables;

//! A store in memory, whose settles may be made to fail, for tests of what a crash leaves.
#![tactic(auto)]

mod memory;

pub use memory::MemoryStore;

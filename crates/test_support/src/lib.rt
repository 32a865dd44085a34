//! What tests and checks share: a plan, an opening that runs in one thread, work for a branch, the pieces that an
//! opening leaves, streams that fail, and a flag between two threads.
//!
//! Nothing here ends the process: what doesn't come is `None`, and a test says what it then has to say.
#![tactic(auto)]

mod flag;
mod opened;
mod pieces;
mod plan;
mod streams;
mod working;

pub use flag::comes;
pub use opened::{open, open_again};
pub use pieces::{end, one, run_all, two};
pub use plan::plan_of;
pub use streams::{Failing, Refusing};
pub use working::work;

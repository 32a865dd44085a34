//! The script of the switch: its grammar, and how it is read.
//!
//! A line declares a key of a manager, as `key 1 a 100`, or is a call of a thread, as
//! `1 end 1 g.1 success`: the thread, the verb, the manager, the verb's words, and flag words.
//! `specs/Grammar.antt` is the whole grammar, in the order in which a line is judged; `read_script`
//! answers the `Script` that it gives, or its first fault. Nothing is run here.
#![tactic(auto)]

mod commit;
mod fault;
mod keys;
pub mod laws;
mod name;
mod named;
mod read;
mod script;
mod setting;
mod step;
mod steps;
mod words;

pub use fault::{Reason, ScriptFault};
pub use name::{Gtrid, Name};
pub use read::read_script;
pub use script::{Declared, Script, UnknownAppend};
pub use step::{Action, Called, CommitAll, ManagerCall, Step, Task};
pub use steps::Tasks;

//! The words of the command line: they name the way in which a script is run.
#![tactic(auto)]

mod mode;
mod words;

pub use mode::RunMode;
pub use words::{WordsFault, mode_of};

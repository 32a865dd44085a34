//! A run whose managers have stores that may fail: what it comes to, or which store has failed.
//!
//! Where a settle fails, nobody knows what the disk has, so its worker never answers again, and the threads that wait
//! for it wait for ever. The process is to end then, and the next one opens what is there. So the run is a thread of
//! its own: [`run_watched`] waits until it has ended, or until a [`Watched`] store has told the watch that it failed,
//! and leaves the run as it is then. A program says which store it was, and ends with status 74 (sysexits: an input
//! or output error).
#![tactic(auto)]

mod run;
mod watch;
mod watched;

pub use run::{Stopped, WatchedRun, run_watched};
pub use watch::Watch;
pub use watched::Watched;

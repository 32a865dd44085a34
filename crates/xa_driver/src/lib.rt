//! The presumed-abort coordinator.
#![tactic(auto)]

mod ask;
mod branch;
mod committing;
mod done;
mod forgetful;
mod may;
mod resolved;
mod resolving;
mod round;
mod rounds;
mod stages;

pub use branch::Branch;
pub use committing::commit;
pub use done::{CommitOutcome, Decision, Done, Ending, LastKnown};
pub use forgetful::{forget_acknowledged, forget_resolved};
pub use may::{may_commit, may_prepare};
pub use resolved::{Outcome, ResolveFault, Resolved};
pub use resolving::{may_resolve, resolve};
pub use round::Round;
pub use stages::{
    Decided, Forgetting, Prepared, Preparing, Telling, Told, begin_prepare, prepare_all,
};

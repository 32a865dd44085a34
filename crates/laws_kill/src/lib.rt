//! That a crash of the whole process is a Shut: laws alone.
//!
//! A process may be killed at any moment, with threads in the middle of commits and requests in flight. Each manager's
//! store then has a beginning of its journal, and no answer was sent that isn't in it. So all is as if one more thread
//! had shut each manager at the place where its store ends, and each desk had then collected what was outstanding: a
//! settled opening. What the laws of outcomes say of a settled opening that is opened again holds of such a crash.
//!
//! The laws ask this of a crash (`IsCrash`); none says yet that a kill in the middle of a call leaves it so.
//! The program doesn't stand on this crate; a caller may cite its laws.
#![tactic(auto)]

mod balances;
mod commits;
mod crashes;
mod openings;
mod stops;

pub use crate::balances::{
    killed_branches_come_out_by_the_log, killed_openings_are_worth_what_was_recorded,
    killed_openings_conserve_the_worth,
};
pub use crate::commits::{
    commits_are_cut_where_they_were, killed_openings_end_by_the_file,
    openings_over_stores_continue, restored_openings_end_by_the_file,
};
pub use crate::crashes::{crashes_are_settled, worked_crashes};
pub use crate::openings::{
    committed_transactions_are_there, killed_openings_are_resolved_by_what_they_left,
    killed_openings_have_one_outcome,
};
pub use crate::stops::stopped_openings_are_crashes;

//! What accounts are worth after openings one after another: laws alone, over the tables of one manager.
//!
//! The worth moves only where a branch is committed, by what the branch holds. So what accounts are worth after a day,
//! and after the openings that follow it and resolve what it left in doubt, is what they were worth before and, for
//! each transaction that the log has recorded, what its branch held as it voted. That holds of any accounts that are
//! declared: of one alone it is its value. The program doesn't stand on this crate; a caller may cite its laws.
#![tactic(auto)]

mod called;
mod laws;
mod settled;

pub use crate::called::{
    a_branch_holds_what_its_thread_added, branches_of_a_commit_vote,
    branches_that_are_not_told_to_commit_are_not_committed, recorded_branches_agreed_or_read,
    resolves_only_tell_outcomes,
};
pub use crate::laws::{
    branches_move_the_worth_over_openings, recorded_branches_are_what_a_day_moves,
    uncommitted_branches_move_nothing, voted_branches_end_as_they_were_told,
    voted_branches_move_what_they_held,
};
pub use crate::settled::{
    branches_come_out_by_the_log, settled_days_are_worth_what_was_recorded,
    transfers_conserve_the_worth_of_days,
};

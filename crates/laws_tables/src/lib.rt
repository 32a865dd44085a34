//! Laws of one manager's tables, for any history of requests and over any openings.
//!
//! The laws of commits and of money rest on them, and they say what a store of a manager has to keep. The program
//! doesn't stand on this crate.
#![tactic(auto)]

mod branches;
mod durable;
mod shutting;
mod values;
mod worked;

pub use branches::{
    branches_are_active_while_associated, only_completed_branches_tell_a_decision,
    only_prepared_branches_are_decided, prepared_branches_await_the_outcome,
    prepared_branches_stay_prepared, refused_prepares_tell_integrity, unnamed_branches_stay,
};
pub use durable::{
    a_second_reopening_changes_nothing, few_requests_change_what_is_durable,
    stores_of_the_tables_restore_them,
};
pub use shutting::{a_crash_is_a_shut, only_a_shut_shuts, shut_managers_decide_nothing};
pub use values::{
    a_thread_adds_as_it_works, adders_never_vote_read_only, branches_hold_their_additions,
    commits_alone_move_the_worth, commits_alone_move_the_worth_of_any_tables,
    prepared_branches_keep_what_they_hold, read_only_branches_hold_nothing,
    values_stay_within_the_limits,
};
pub use worked::{
    worked_fates, worked_fates_over_openings, worked_restorings, worked_values_over_openings,
};

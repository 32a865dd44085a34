//! That a commit of several branches is atomic: laws alone, of the definitions that `commit`, `resolve` and `settle`
//! promise.
//!
//! What `commit` came to is its clause `comes`. Where it was decided and all branches were told, that is a commit that
//! was made (`decided_commits_were_made`). Whatever it came to, it is one that was cut short (`commits_are_cuts`), as
//! is each stage that is let go. The desk's lists lead to what the settled opening has of its thread, since every call
//! says that it goes on (`xa_desk::laws::desks_go_on` joins two such calls) and `settle` has the lists with which the
//! desk ended. That nobody else names a branch after its Prepare is for the caller to know. The program doesn't stand
//! on this crate; a caller may cite its laws, as demo_bank does.
#![tactic(auto)]

ghost use Rattle.laws_commit.specs.LawsOfTables.{Tabled};

mod commits;
mod fates;
mod resolved;
mod stages;

pub use crate::commits::{commits_grow_the_lists, failed_append, one_outcome};
pub use crate::fates::{
    acknowledged_commits_leave_no_branch, commit_in_a_settled_opening, endings_are_fates,
    finished_outcomes_leave_no_branch, managers_open_with_their_accounts, outcomes_are_fates,
    threads_move_the_worth, transfers_conserve_the_worth,
};
pub use crate::resolved::{
    commit_resolved_in_the_next_opening, next_openings_resolve, next_openings_resolve_by_all_logs,
    presumed_transactions_count_by_the_log, presumed_transactions_have_one_outcome,
    resolved_transactions_count_where_committed, resolved_transactions_have_one_outcome,
};
pub use crate::stages::{
    commits_are_cuts, cut_commits_go_by_the_record, decided_commits_were_made,
    finished_commits_are_cut_after_all, logs_turn_out_as_they_are_read, others_leave_the_branches,
    rounds_are_cuts, second_rounds_go_by_the_record, stages_are_cuts, stages_follow,
};
use laws_fates::{late_requests_leave_fates, tables_tell_the_fates};
use laws_tables::{
    adders_never_vote_read_only, only_a_shut_shuts, only_completed_branches_tell_a_decision,
    only_prepared_branches_are_decided, prepared_branches_await_the_outcome,
    prepared_branches_keep_what_they_hold, read_only_branches_hold_nothing,
    refused_prepares_tell_integrity, shut_managers_decide_nothing,
};

/// What the laws of the tables say of one branch, together: the laws below rest on it.
pub fn tables_keep_to_their_laws()
    ensures { Tabled }
{
    prepared_branches_await_the_outcome();
    adders_never_vote_read_only();
    only_a_shut_shuts();
    late_requests_leave_fates();
    refused_prepares_tell_integrity();
    prepared_branches_keep_what_they_hold();
    read_only_branches_hold_nothing();
    tables_tell_the_fates();
    only_prepared_branches_are_decided();
    shut_managers_decide_nothing();
    only_completed_branches_tell_a_decision();
}

//! The three rounds of requests, and what is read off them.
ghost use Rattle.std.specs.Prelude.{◌≡◌, ℕ, ◌≤◌, map, IfOk, length, vec_capacity, Some, [], ◌∷◌};
ghost use Rattle.std.specs.Prelude.{option_map};
ghost use Rattle.std.specs.List.{list_any};
ghost use Rattle.xa_words.specs.Xid.{XidName};
ghost use Rattle.xa_driver.specs.Asks.{op_wanted};
ghost use Rattle.xa_driver.specs.Decision.{is_no, is_yes};
ghost use Rattle.xa_driver.specs.Endings.{ending_of, is_decided, is_heuristic, no_ending, second_op, third_op, vote_of};
ghost use Rattle.xa_driver.specs.Endings.{yes_ending};
ghost use Rattle.xa_driver.specs.Rounds.{first_ask, code_of_ask, second_ask, third_ask, ending_of_ask, asked_yes};
ghost use Rattle.xa_driver.specs.Rounds.{yes_asked};
ghost use Rattle.xa_words.specs.Codes.{is_rolled_back};

use crate::ask::{Ask, Wanted};
use crate::branch::Branch;
use crate::done::Ending;
use std::alloc::{AllocError, Global};
use xa_words::{Code, ManagerSet};

/// What the code of a Prepare is to the coordinator.
#[derive(Clone, Copy)]
pub(crate) enum Vote {
    /// `XA_OK`: to commit.
    Yes,
    /// `XA_RDONLY`: the branch only read, and is gone.
    ReadOnly,
    /// `XA_RB*`: its manager rolled it back, and it is gone.
    RolledBack,
    /// `XAER_NOTA` or `XAER_RMFAIL`: there is no branch that could be told anything.
    OutOfReach,
    /// Any other: the branch may still be there.
    No,
}

fn vote_of(code: Code) -> Vote
    ensures { result ≡ vote_of code }
{
    match code {
        Code::Done => Vote::Yes,
        Code::RdOnly => Vote::ReadOnly,
        Code::Nota | Code::RmFail => Vote::OutOfReach,
        code if is_rolled_back(code) => Vote::RolledBack,
        _ => Vote::No,
    }
}

fn is_yes(code: Code) -> bool
    ensures { result ≡ is_yes code }
{
    matches!(code, Code::Done)
}

fn is_rolled_back(code: Code) -> bool
    ensures { result ≡ is_rolled_back code }
{
    matches!(
        code,
        Code::RbRollback
            | Code::RbCommFail
            | Code::RbDeadlock
            | Code::RbIntegrity
            | Code::RbOther
            | Code::RbProto
            | Code::RbTimeout
            | Code::RbTransient
    )
}

fn is_heuristic(code: Code) -> bool
    ensures { result ≡ is_heuristic code }
{
    matches!(
        code,
        Code::HeurMix | Code::HeurRb | Code::HeurCom | Code::HeurHaz
    )
}

/// Whether the code tells of a heuristic decision that the manager keeps.
pub(crate) fn is_decided(code: Code) -> bool
    ensures { result ≡ is_decided code }
{
    matches!(code, Code::HeurRb | Code::HeurCom)
}

// What is wanted second of a branch with this vote.
fn wanted_second(commit: bool, vote: Code) -> Option<Wanted>
    ensures { (x : XidName) → option_map (op_wanted x) result ≡ second_op commit x vote }
{
    match (vote_of(vote), commit) {
        (Vote::Yes, true) => Some(Wanted::Commit),
        (Vote::Yes | Vote::No, false) => Some(Wanted::Rollback),
        _ => None,
    }
}

// What is wanted third of a branch with this second code.
fn wanted_third(second: Option<Code>) -> Option<Wanted>
    ensures { (x : XidName) → option_map (op_wanted x) result ≡ third_op x second }
{
    match second {
        Some(code) if is_decided(code) => Some(Wanted::Forget),
        _ => None,
    }
}

// The ending of a branch that voted yes, by its second code.
fn yes_ending(commit: bool, second: Option<Code>) -> Ending
    ensures { result ≡ yes_ending commit second }
{
    match second {
        None | Some(Code::RmFail) => Ending::InDoubt,
        Some(Code::Done) if commit => Ending::Committed,
        Some(Code::Done) => Ending::RolledBack,
        Some(code) if is_heuristic(code) => Ending::Heuristic(code),
        Some(code) => Ending::Left(code),
    }
}

// The ending of a branch that voted no and may still have been there, by its second code.
fn no_ending(vote: Code, second: Option<Code>) -> Ending
    ensures { result ≡ no_ending vote second }
{
    match second {
        None => Ending::Left(vote),
        Some(Code::Done) => Ending::RolledBack,
        Some(code) if is_rolled_back(code) => Ending::RolledBack,
        Some(code) if is_heuristic(code) => Ending::Heuristic(code),
        Some(code) => Ending::Left(code),
    }
}

// The ending of a branch by its vote and its second code.
fn ending_of(commit: bool, vote: Code, second: Option<Code>) -> Ending
    ensures { result ≡ ending_of commit vote second }
{
    match vote_of(vote) {
        Vote::Yes => yes_ending(commit, second),
        Vote::ReadOnly => Ending::ReadOnly,
        Vote::RolledBack => Ending::RolledBack,
        Vote::OutOfReach => Ending::Left(vote),
        Vote::No => no_ending(vote, second),
    }
}

fn code_of(ask: &Ask) -> Code
    ensures { result ≡ code_of_ask ask.now }
{
    match ask.code {
        Some(code) => code,
        None => Code::RmFail,
    }
}

fn is_no(code: Code) -> bool
    ensures { result ≡ is_no code }
{
    !matches!(code, Code::Done | Code::RdOnly)
}

pub(crate) fn has_no(votes: &[Code]) -> bool
    ensures { result ≡ list_any is_no votes.now }
{
    votes.iter().any(|vote| is_no(*vote))
}

pub(crate) fn has_yes(votes: &[Code]) -> bool
    ensures { result ≡ list_any is_yes votes.now }
{
    votes.iter().any(|vote| is_yes(*vote))
}

/// The first round: a Prepare of each branch.
pub(crate) fn first_round(alloc: Global, branches: &[Branch]) -> Result<Vec<Ask>, AllocError>
    ensures { IfOk result (λ v. v.items ≡ map first_ask branches.now) }
{
    let mut asks = Vec::with_capacity(alloc, branches.len())?;
    for branch in branches {
        asks.push_reserved(Ask {
            manager: branch.m,
            xid: branch.xid,
            vote: Code::RmFail,
            wanted: Some(Wanted::Prepare),
            code: None,
        });
    }
    Ok(asks)
}

/// The votes, into a list with room for them.
pub(crate) fn read_votes(asks: &[Ask], votes: &mut Vec<Code>)
    requires empty { votes.old.items ≡ [] }
    requires room { length asks.now ≤ vec_capacity votes.old }
    ensures { votes.new.items ≡ map code_of_ask asks.now }
{
    for ask in asks {
        votes.push_reserved(code_of(ask));
    }
}

// The request of the second round, by the decision and the vote.
fn ask_second(ask: &mut Ask, commit: bool)
    ensures { ask.new ≡ second_ask commit ask.old }
{
    let vote = code_of(ask);
    ask.vote = vote;
    ask.wanted = wanted_second(commit, vote);
    ask.code = None;
}

// The request of the third round, by the second code.
fn ask_third(ask: &mut Ask)
    ensures { ask.new ≡ third_ask ask.old }
{
    ask.wanted = wanted_third(ask.code);
    ask.code = None;
}

/// The second round, in place of the first.
#[tactic(auto, using(crate::proofs::Calls::one_more_remade, crate::proofs::Calls::all_remade))]
pub(crate) fn second_round(asks: &mut [Ask], commit: bool)
    ensures { asks.new ≡ map (second_ask commit) asks.old }
{
    for ask in asks.iter_mut() {
        ask_second(ask, commit);
    }
}

/// The third round, in place of the second.
#[tactic(auto, using(crate::proofs::Calls::one_more_remade, crate::proofs::Calls::all_remade))]
pub(crate) fn third_round(asks: &mut [Ask])
    ensures { asks.new ≡ map third_ask asks.old }
{
    for ask in asks.iter_mut() {
        ask_third(ask);
    }
}

/// The endings, into a list with room for them.
pub(crate) fn read_endings(asks: &[Ask], commit: bool, endings: &mut Vec<Ending>)
    requires empty { endings.old.items ≡ [] }
    requires room { length asks.now ≤ vec_capacity endings.old }
    ensures { endings.new.items ≡ map (ending_of_ask commit) asks.now }
{
    for ask in asks {
        endings.push_reserved(ending_of(commit, ask.vote, ask.code));
    }
}

fn asked_yes(asks: &[Ask], manager: u32) -> bool
    ensures { result ≡ asked_yes manager asks.now }
{
    asks.iter()
        .any(|ask| ask.manager == manager && is_yes(code_of(ask)))
}

/// The managers that voted yes.
pub(crate) fn yes_of(asks: &[Ask]) -> ManagerSet
    ensures { result ≡ yes_asked asks.now }
{
    ManagerSet::from_fn(|manager| asked_yes(asks, manager))
}

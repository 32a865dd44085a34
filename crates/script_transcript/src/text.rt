//! The bytes of a line of a transcript. Where memory is refused, a part of the line may have been put.
ghost use Rattle.std.specs.Prelude.{◌≡◌, ◌++◌, OnOk, decimal};
ghost use Rattle.std.specs.Fmt.{signed_decimal};
ghost use Rattle.script_transcript.specs.Text.{turn_text, handle_text, decision_text, record_text, ending_text};
ghost use Rattle.script_transcript.specs.Text.{endings_text, vote_text, votes_text, decided_text, done_text};
ghost use Rattle.script_transcript.specs.Text.{known_text, commit_text, xid_text, listed_text, resolution_text};
ghost use Rattle.script_transcript.specs.Text.{outcome_text, outcomes_text, answer_text, told_text, line_text};

use crate::answer::{Answer, TranscriptLine};
use crate::lines::Lines;
use itoa::{Buffer, Integer};
use std::alloc::AllocError;
use xa_driver::{CommitOutcome, Done, Ending, LastKnown, Outcome};
use xa_words::{Code, Xid};
use xa_worker::WorkerStep;

pub(crate) fn put_number<I: Integer>(out: &mut Lines, number: I) -> Result<(), AllocError>
    ensures line { OnOk result (out.new.line ≡ out.old.line ++ I.text number) }
    ensures whole { out.new.whole ≡ out.old.whole }
{
    out.extend(Buffer::new().format(number).as_bytes())
}

// A count. Most are one digit, which needs no buffer.
#[inline(always)]
#[tactic(auto, using(std::proofs::lemmas::Fmt::decimal_digit))]
fn put_count(out: &mut Lines, count: u32) -> Result<(), AllocError>
    ensures line { OnOk result (out.new.line ≡ out.old.line ++ decimal count) }
    ensures whole { out.new.whole ≡ out.old.whole }
{
    if count < 10 {
        return out.push(b'0' + count as u8);
    }
    put_number(out, count)
}

// What is answered: a code or a handle. Most are one digit here too.
#[inline(always)]
#[tactic(auto, using(std::proofs::lemmas::Fmt::decimal_digit))]
fn put_signed(out: &mut Lines, number: i32) -> Result<(), AllocError>
    ensures line { OnOk result (out.new.line ≡ out.old.line ++ signed_decimal number) }
    ensures whole { out.new.whole ≡ out.old.whole }
{
    if 0 <= number && number < 10 {
        return out.push(b'0' + number as u8);
    }
    put_number(out, number)
}

// What stands for a turn: did, late, end, empty or blocked.
fn turn_text(step: WorkerStep) -> &'static [u8]
    ensures { result.now ≡ turn_text step }
{
    match step {
        WorkerStep::Did => b"did",
        WorkerStep::Late => b"late",
        WorkerStep::EndSeen => b"end",
        WorkerStep::Empty => b"empty",
        WorkerStep::Blocked => b"blocked",
    }
}

// ` handle H retval R`
fn put_handle<I: Integer>(out: &mut Lines, handle: I, retval: i32) -> Result<(), AllocError>
    ensures line { OnOk result (out.new.line ≡ out.old.line ++ handle_text (I.text handle) retval) }
    ensures whole { out.new.whole ≡ out.old.whole }
{
    out.extend(b" handle ")?;
    put_number(out, handle)?;
    out.extend(b" retval ")?;
    put_signed(out, retval)
}

// What stands for a decision: commit or abort.
fn decision_text(commit: bool) -> &'static [u8]
    ensures { result.now ≡ decision_text commit }
{
    if commit { b"commit" } else { b"abort" }
}

// What stands for a record: logged or unlogged.
fn record_text(logged: bool) -> &'static [u8]
    ensures { result.now ≡ record_text logged }
{
    if logged { b"logged" } else { b"unlogged" }
}

// What stands for an ending: committed, readonly, rolledback, indoubt, `heur:C` or `left:C`.
fn put_ending(out: &mut Lines, ending: Ending) -> Result<(), AllocError>
    ensures line { OnOk result (out.new.line ≡ out.old.line ++ ending_text ending) }
    ensures whole { out.new.whole ≡ out.old.whole }
{
    match ending {
        Ending::Committed => out.extend(b"committed"),
        Ending::ReadOnly => out.extend(b"readonly"),
        Ending::RolledBack => out.extend(b"rolledback"),
        Ending::InDoubt => out.extend(b"indoubt"),
        Ending::Heuristic(code) => {
            out.extend(b"heur:")?;
            put_number(out, code.value())
        }
        Ending::Left(code) => {
            out.extend(b"left:")?;
            put_number(out, code.value())
        }
    }
}

// A word for each branch, after a space.
fn put_endings(out: &mut Lines, endings: &[Ending]) -> Result<(), AllocError>
    ensures line { OnOk result (out.new.line ≡ out.old.line ++ endings_text endings.now) }
    ensures whole { out.new.whole ≡ out.old.whole }
{
    for ending in endings {
        out.push(b' ')?;
        put_ending(out, *ending)?;
    }
    Ok(())
}

// `vote:C`
fn put_vote(out: &mut Lines, vote: Code) -> Result<(), AllocError>
    ensures line { OnOk result (out.new.line ≡ out.old.line ++ vote_text vote) }
    ensures whole { out.new.whole ≡ out.old.whole }
{
    out.extend(b"vote:")?;
    put_number(out, vote.value())
}

// A word for each vote, after a space.
fn put_votes(out: &mut Lines, votes: &[Code]) -> Result<(), AllocError>
    ensures line { OnOk result (out.new.line ≡ out.old.line ++ votes_text votes.now) }
    ensures whole { out.new.whole ≡ out.old.whole }
{
    for vote in votes {
        out.push(b' ')?;
        put_vote(out, *vote)?;
    }
    Ok(())
}

// The decision, and whether it was logged.
fn put_decided(out: &mut Lines, commit: bool, logged: bool) -> Result<(), AllocError>
    ensures line { OnOk result (out.new.line ≡ out.old.line ++ decided_text commit logged) }
    ensures whole { out.new.whole ≡ out.old.whole }
{
    out.extend(decision_text(commit))?;
    out.push(b' ')?;
    out.extend(record_text(logged))
}

// The decision, whether it was logged, and what became of each branch.
fn put_done(out: &mut Lines, done: &Done) -> Result<(), AllocError>
    ensures line { OnOk result (out.new.line ≡ out.old.line ++ done_text done.now) }
    ensures whole { out.new.whole ≡ out.old.whole }
{
    put_decided(out, done.commit, done.logged)?;
    put_endings(out, &done.endings)
}

// What was known of a commit as its coordinator died: the votes, then the decision too, and at last what became of each
// branch.
fn put_known(out: &mut Lines, known: &LastKnown) -> Result<(), AllocError>
    ensures line { OnOk result (out.new.line ≡ out.old.line ++ known_text known.now) }
    ensures whole { out.new.whole ≡ out.old.whole }
{
    match known {
        LastKnown::Votes(votes) => put_votes(out, votes),
        LastKnown::Decided { decision, votes } => {
            out.push(b' ')?;
            put_decided(out, decision.commit, decision.logged)?;
            put_votes(out, votes)
        }
        LastKnown::Told(done) => {
            out.push(b' ')?;
            put_done(out, done)
        }
    }
}

// What a commit came to.
fn put_commit(out: &mut Lines, outcome: &CommitOutcome) -> Result<(), AllocError>
    ensures line { OnOk result (out.new.line ≡ out.old.line ++ commit_text outcome.now) }
    ensures whole { out.new.whole ≡ out.old.whole }
{
    match outcome {
        CommitOutcome::Decided(done) => put_done(out, done),
        CommitOutcome::Undecided(votes) => {
            out.extend(b"undecided")?;
            put_votes(out, votes)
        }
        CommitOutcome::Died { known, .. } => {
            out.extend(b"died")?;
            put_known(out, known)
        }
    }
}

// `G.B`
fn put_xid(out: &mut Lines, xid: &Xid) -> Result<(), AllocError>
    ensures line { OnOk result (out.new.line ≡ out.old.line ++ xid_text xid.now) }
    ensures whole { out.new.whole ≡ out.old.whole }
{
    out.extend(xid.gtrid())?;
    out.push(b'.')?;
    out.extend(xid.bqual())
}

// How many, and each after a space.
fn put_listed(out: &mut Lines, xids: &[Xid]) -> Result<(), AllocError>
    ensures line { OnOk result (out.new.line ≡ out.old.line ++ listed_text xids.now) }
    ensures whole { out.new.whole ≡ out.old.whole }
{
    put_number(out, xids.len() as u64)?;
    for xid in xids {
        out.push(b' ')?;
        put_xid(out, xid)?;
    }
    Ok(())
}

// What stands for what was asked for a branch: commit or rollback.
fn resolution_text(commit: bool) -> &'static [u8]
    ensures { result.now ≡ resolution_text commit }
{
    if commit { b"commit" } else { b"rollback" }
}

// `M:G.B:commit:C` or `M:G.B:rollback:C`
fn put_outcome(out: &mut Lines, outcome: &Outcome) -> Result<(), AllocError>
    ensures line { OnOk result (out.new.line ≡ out.old.line ++ outcome_text outcome.now) }
    ensures whole { out.new.whole ≡ out.old.whole }
{
    put_number(out, outcome.m)?;
    out.push(b':')?;
    put_xid(out, &outcome.xid)?;
    out.push(b':')?;
    out.extend(resolution_text(outcome.commit))?;
    out.push(b':')?;
    put_number(out, outcome.code.value())
}

// A word for each branch, after a space.
fn put_outcomes(out: &mut Lines, outcomes: &[Outcome]) -> Result<(), AllocError>
    ensures line { OnOk result (out.new.line ≡ out.old.line ++ outcomes_text outcomes.now) }
    ensures whole { out.new.whole ≡ out.old.whole }
{
    for outcome in outcomes {
        out.push(b' ')?;
        put_outcome(out, outcome)?;
    }
    Ok(())
}

// What a task answered.
fn put_answer(out: &mut Lines, answer: &Answer) -> Result<(), AllocError>
    ensures line { OnOk result (out.new.line ≡ out.old.line ++ answer_text answer.now) }
    ensures whole { out.new.whole ≡ out.old.whole }
{
    match answer {
        Answer::Called(answer) => put_signed(out, *answer),
        Answer::Completed { handle, retval } => {
            out.push(b'0')?;
            put_handle(out, *handle, *retval)
        }
        Answer::Recovered(xids) => put_listed(out, xids),
        Answer::Refused => out.extend(b"refused"),
        Answer::Commit(outcome) => put_commit(out, outcome),
        Answer::Resolved(outcomes) => {
            out.extend(b"resolved")?;
            put_outcomes(out, outcomes)
        }
    }
}

// What a line tells.
fn put_told(out: &mut Lines, told: &TranscriptLine) -> Result<(), AllocError>
    ensures line { OnOk result (out.new.line ≡ out.old.line ++ told_text told.now) }
    ensures whole { out.new.whole ≡ out.old.whole }
{
    match told {
        TranscriptLine::Answered {
            line,
            thread,
            answer,
        } => {
            put_number(out, *line)?;
            out.push(b' ')?;
            put_count(out, *thread)?;
            out.push(b' ')?;
            put_answer(out, answer)
        }
        TranscriptLine::Turned { line, step } => {
            put_number(out, *line)?;
            out.extend(b" turn ")?;
            out.extend(turn_text(*step))
        }
        TranscriptLine::Ended {
            thread,
            handle,
            retval,
        } => {
            out.extend(b"end ")?;
            put_count(out, *thread)?;
            put_handle(out, *handle, *retval)
        }
        TranscriptLine::Reopened { line } => {
            put_number(out, *line)?;
            out.extend(b" reopened")
        }
    }
}

// The line, with its line feed.
pub(crate) fn put_line(out: &mut Lines, told: &TranscriptLine) -> Result<(), AllocError>
    ensures line { OnOk result (out.new.line ≡ out.old.line ++ line_text told.now) }
    ensures whole { out.new.whole ≡ out.old.whole }
{
    put_told(out, told)?;
    out.push(b'\n')
}

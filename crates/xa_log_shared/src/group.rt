//! How the records that wait go to the log.
ghost use Rattle.std.specs.Prelude.{◌≡◌, ◌++◌, ◌∷◌, ◌≤◌, ℕ, [], true, None, length, map, vec_capacity};
ghost use Rattle.xa_log.specs.Log.{record_of, AreNew};
ghost use Rattle.xa_log_shared.specs.declared.ask.Deed.TheVariants.{Answers, Forgets, IsRefused};
ghost use Rattle.xa_log_shared.specs.Deeds.{IsToldBy, Does, Settles, answered_by, answer_each, deeds_in};
ghost use Rattle.xa_log_shared.specs.Deeds.{records_waiting};

use crate::ask::{Answered, AppendAnswer, Deed};
use http_server::Log;
use xa_log::{CommitRecord, DecisionLog, GroupLog, LogFault};
use xa_words::Tran;

/// A record that waits for its group, with the number of the coordinator that asked for it.
#[derive(Clone, Copy, Debug)]
pub(crate) struct Waiting {
    pub(crate) from: usize,
    pub(crate) decision: CommitRecord,
}

fn answered(from: usize, decision: &CommitRecord, answer: AppendAnswer) -> Answered
    ensures { result ≡ answered_by from decision.now answer }
{
    Answered {
        from,
        decision: *decision,
        answer,
    }
}

/// Notes that a record is answered.
pub(crate) fn note(
    deeds: &mut Log<Deed, ()>,
    from: usize,
    decision: &CommitRecord,
    answer: AppendAnswer,
)
    ensures { deeds_in deeds.new.items
        ≡ deeds_in deeds.old.items ++ Answers (answered_by from decision.now answer) ∷ [] }
{
    let deed = Deed::Answers(answered(from, decision, answer));
    *deeds = deeds.and(&deed, &());
}

/// Notes that a record is to be forgotten.
pub(crate) fn note_forgetting(deeds: &mut Log<Deed, ()>, from: usize, tran: &Tran)
    ensures { deeds_in deeds.new.items ≡ deeds_in deeds.old.items ++ Forgets from tran.now ∷ [] }
{
    let deed = Deed::Forgets(from, *tran);
    *deeds = deeds.and(&deed, &());
}

fn note_refusal(deeds: &mut Log<Deed, ()>)
    ensures { deeds_in deeds.new.items ≡ deeds_in deeds.old.items ++ IsRefused ∷ [] }
{
    let deed = Deed::IsRefused;
    *deeds = deeds.and(&deed, &());
}

// Appends one record alone, where the log is known.
fn append_one<L: DecisionLog>(
    log: &mut L,
    is_known: &mut bool,
    decision: &CommitRecord,
) -> AppendAnswer
    requires told { IsToldBy is_known.old (L.knows log.old) }
    requires new { is_known.old ≡ true → record_of (L.state log.old) decision.now.tran ≡ None }
    ensures told { IsToldBy is_known.new (L.knows log.new) }
    ensures does { (from : ℕ) → Does is_known.old (L.state log.old)
        (Answers (answered_by from decision.now result) ∷ []) is_known.new (L.state log.new) }
{
    if !log.is_known() {
        return AppendAnswer::Unknown;
    }
    match log.append(decision) {
        Ok(()) => AppendAnswer::Taken,
        Err(LogFault::Refused) => AppendAnswer::Refused,
        Err(LogFault::Unknown) => {
            *is_known = false;
            AppendAnswer::Unknown
        }
    }
}

// Answers each of the records alike.
fn answer_all(
    waiting: &[Waiting],
    answer: AppendAnswer,
    done: &mut Vec<Answered>,
    deeds: &mut Log<Deed, ()>,
)
    requires none { done.old.items ≡ [] }
    requires room { length waiting.now ≤ vec_capacity done.old }
    ensures done { done.new.items ≡ answer_each answer waiting.now }
    ensures space { vec_capacity done.new ≡ vec_capacity done.old }
    ensures deeds { deeds_in deeds.new.items
        ≡ deeds_in deeds.old.items ++ map Answers (answer_each answer waiting.now) }
{
    for one in waiting {
        note(deeds, one.from, &one.decision, answer);
        done.push_reserved(answered(one.from, &one.decision, answer));
    }
}

// Appends the records one after another.
fn append_each<L: DecisionLog>(
    log: &mut L,
    is_known: &mut bool,
    waiting: &[Waiting],
    done: &mut Vec<Answered>,
    deeds: &mut Log<Deed, ()>,
)
    requires told { IsToldBy is_known.old (L.knows log.old) }
    requires new { is_known.old ≡ true → AreNew (L.state log.old) (records_waiting waiting.now) }
    requires none { done.old.items ≡ [] }
    requires room { length waiting.now ≤ vec_capacity done.old }
    ensures told { IsToldBy is_known.new (L.knows log.new) }
    ensures space { vec_capacity done.new ≡ vec_capacity done.old }
    ensures settles { Settles waiting.now done.new.items deeds.old.items deeds.new.items is_known.old (L.state log.old)
        is_known.new (L.state log.new) }
{
    for one in waiting {
        let answer = append_one(log, is_known, &one.decision);
        note(deeds, one.from, &one.decision, answer);
        done.push_reserved(answered(one.from, &one.decision, answer));
    }
}

fn copy_records(waiting: &[Waiting], group: &mut Vec<CommitRecord>)
    requires none { group.old.items ≡ [] }
    requires room { length waiting.now ≤ vec_capacity group.old }
    ensures copied { group.new.items ≡ records_waiting waiting.now }
    ensures space { vec_capacity group.new ≡ vec_capacity group.old }
{
    for one in waiting {
        group.push_reserved(one.decision);
    }
}

/// Appends the records that wait, several by one call of the log. Where it refuses them together, each is tried alone.
#[tactic(auto, using(crate::proofs::Moves::settling))]
pub(crate) fn append_group<L: GroupLog>(
    log: &mut L,
    is_known: &mut bool,
    waiting: &[Waiting],
    group: &mut Vec<CommitRecord>,
    done: &mut Vec<Answered>,
    deeds: &mut Log<Deed, ()>,
)
    requires told { IsToldBy is_known.old (L.knows log.old) }
    requires new { is_known.old ≡ true → AreNew (L.state log.old) (records_waiting waiting.now) }
    requires none { done.old.items ≡ [] }
    requires empty { group.old.items ≡ [] }
    requires room { length waiting.now ≤ vec_capacity done.old }
    requires place { length waiting.now ≤ vec_capacity group.old }
    ensures told { IsToldBy is_known.new (L.knows log.new) }
    ensures space { vec_capacity done.new ≡ vec_capacity done.old }
    ensures places { vec_capacity group.new ≡ vec_capacity group.old }
    ensures emptied { group.new.items ≡ [] }
    ensures settles { Settles waiting.now done.new.items deeds.old.items deeds.new.items is_known.old (L.state log.old)
        is_known.new (L.state log.new) }
{
    if waiting.len() < 2 || !log.is_known() {
        append_each(log, is_known, waiting, done, deeds);
        return;
    }
    copy_records(waiting, group);
    let end = log.append_all(group);
    group.clear();
    match end {
        Ok(()) => answer_all(waiting, AppendAnswer::Taken, done, deeds),
        Err(LogFault::Unknown) => {
            *is_known = false;
            answer_all(waiting, AppendAnswer::Unknown, done, deeds);
        }
        Err(LogFault::Refused) => {
            note_refusal(deeds);
            append_each(log, is_known, waiting, done, deeds);
        }
    }
}

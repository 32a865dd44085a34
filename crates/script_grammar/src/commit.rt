//! The line of a commit of several branches, whose coordinator may die.
ghost use Rattle.std.specs.Prelude.{◌≡◌, ◌≤◌};
ghost use Rattle.script_grammar.specs.Commits.{answers_of, once_prepared, once_told, death_at, branches_at, commit_of};

use crate::fault::Reason;
use crate::name::Gtrid;
use crate::named::Named;
use crate::script::Script;
use crate::step::CommitAll;
use crate::words::{Words, number_in};
use xa_words::{Death, ManagerSet};

// How large a manager's number may be on a line, whether or not there is such a manager.
pub(crate) const MOST_MANAGER: u64 = u32::MAX as u64;

// How many answers a coordinator may have collected of a round in which it dies.
const MOST_ANSWERS: u64 = 7;

// How many answers of a round are collected, where a word says so.
#[tactic(auto, unfolding(crate::specs::Commits::answers_of))]
fn answers_of(words: &mut Words) -> Result<Option<u8>, Reason>
    ensures { result ≡ answers_of words.old }
{
    let Some(word) = words.next() else {
        return Ok(None);
    };
    let answers = number_in(0, MOST_ANSWERS, word)? as u8;
    words.end()?;
    Ok(Some(answers))
}

// Once all have voted, or when so many votes are collected.
fn once_prepared(answers: Option<u8>) -> Death
    ensures { result ≡ once_prepared answers }
{
    match answers {
        Some(votes) => Death::Preparing(votes),
        None => Death::Prepared,
    }
}

// Once all are told, or when so many of them have answered.
fn once_told(answers: Option<u8>) -> Death
    ensures { result ≡ once_told answers }
{
    match answers {
        Some(answers) => Death::Telling(answers),
        None => Death::Told,
    }
}

// The words after `dies`.
#[tactic(auto, unfolding(crate::specs::Commits::death_at))]
fn death_at(words: &mut Words) -> Result<Death, Reason>
    ensures { result ≡ death_at words.old }
{
    let point = words.word()?;
    if point == b"prepared".as_slice() {
        Ok(once_prepared(answers_of(words)?))
    } else if point == b"decided".as_slice() {
        words.end()?;
        Ok(Death::Decided)
    } else if point == b"told".as_slice() {
        Ok(once_told(answers_of(words)?))
    } else {
        Err(Reason::UnknownWord)
    }
}

// The words after the global transaction, where there are so many managers: where the branches are, and where the
// coordinator dies, if it does.
fn branches_at(count: u32, words: &mut Words) -> Result<(ManagerSet, Option<Death>), Reason>
    requires { count ≤ 8 }
    ensures { result ≡ branches_at count words.old }
{
    let mut named = Named::new(count);
    named.add(words.number(0, MOST_MANAGER)? as u32);
    while let Some(word) = words.next() {
        if word == b"dies".as_slice() {
            let death = death_at(words)?;
            return Ok((named.managers()?, Some(death)));
        }
        named.add(number_in(0, MOST_MANAGER, word)? as u32);
    }
    Ok((named.managers()?, None))
}

// The words after `commitall`.
#[tactic(auto, unfolding(crate::specs::Commits::commit_of))]
pub(crate) fn commit_of<'a>(
    script: &Script,
    words: &mut Words<'a>,
) -> Result<CommitAll<Gtrid<'a>>, Reason>
    ensures { result ≡ commit_of script.now words.old }
{
    let tran = words.tran()?;
    let (managers, death) = branches_at(script.managers(), words)?;
    Ok(CommitAll {
        tran,
        managers,
        death,
    })
}

//! What one line tells to do, and the words that tell it.
//!
//! `X` names a branch, `G` a global transaction and `K` a key. A script keeps places of them, in lists of its own
//! (steps.rt). What was read, and what is lent to be run, has names whose bytes stand elsewhere: in the line, and in
//! the script (name.rt).
ghost use Rattle.std.specs.Prelude.{◌≡◌, ◌≤◌, IfOk, ⊤};
ghost use Rattle.std.specs.Fn.{FnOnceReturnsAt, FnOnceTakesAt};
ghost use Rattle.script_grammar.specs.Contents.{is_reopen, AsksForFew, threads_of};
ghost use Rattle.script_grammar.specs.OwnTasks.{is_own};
ghost use Rattle.script_grammar.specs.Steps.{CallHas, ActionHas, StepHas, Computes, call_with, action_with, step_with};
ghost use Rattle.xa_base.specs.Lists.{IsUpTo};
ghost use Rattle.script_grammar.specs.Fields.{TakesWords};
ghost use Rattle.script_grammar.specs.Actions.{verb_of, call_at, call_of, action_of, task_on, turn_of, reopen_of};
ghost use Rattle.script_grammar.specs.Taking.{Gives, with_item_in, task_item, as_task};

use crate::commit::{MOST_MANAGER, commit_of};
use crate::fault::{LineFault, Reason};
use crate::name::Name;
use crate::script::Script;
use crate::words::{Words, meaning_in, number_in};
use std::alloc::AllocError;
use std::clone::Clone;
use xa_words::{Call, Death, Delta, Key, ManagerSet};

/// What a thread calls.
#[derive(PartialEq, Eq)]
pub enum ManagerCall<X, K = Key> {
    /// A call of XA but `xa_complete()` and `xa_recover()`, with its branch where it takes one.
    Xa(Call, Option<X>),
    /// A heuristic decision of a branch, to commit where true.
    Heur(X, bool),
    /// A change of a key.
    Add(K, Delta),
    /// The end of a manager's work.
    Shut,
    /// `xa_complete()` with the handle that the line gives, which isn't negative.
    Complete(i32),
    /// `xa_recover()`, with room for so many xids, 0 to 64.
    Recover(u32),
}

// It is copied whole. A derived clone goes by its variants.
impl<X: Copy, K: Copy> Clone for ManagerCall<X, K> {
    ghost is_clone = { λ a b. b ≡ a };

    ghost is_infallible = { λ _. ⊤ };

    fn clone(&self) -> Result<ManagerCall<X, K>, AllocError> {
        Ok(*self)
    }
}

impl<X: Copy, K: Copy> Copy for ManagerCall<X, K> {}

/// A call of a manager.
#[derive(Drop, PartialEq, Eq)]
pub struct Called<X, K = Key> {
    /// The number that the line gives, which need not be that of a manager.
    pub manager: u32,
    /// The flags of `xa.h`, joined bit by bit. Nothing says that they suit the call.
    pub flags: u32,
    // It stands last, where no gap is left: a script keeps one of these for each line.
    pub call: ManagerCall<X, K>,
}

/// A commit of a global transaction in two phases. Its branch at manager M is `G.M`.
#[derive(Drop, PartialEq, Eq)]
pub struct CommitAll<G> {
    /// The global transaction, of format 1.
    pub tran: G,
    /// Where its branches are.
    pub managers: ManagerSet,
    /// Where its coordinator dies, if it does.
    pub death: Option<Death>,
}

/// What a thread does.
#[derive(Drop, PartialEq, Eq)]
pub enum Action<X, G, K = Key> {
    Call(Called<X, K>),
    CommitAll(CommitAll<G>),
    /// A resolve, by the thread's log, of what the last reopening found left.
    Resolve,
}

/// What a thread does on a line of its own.
#[derive(Drop, PartialEq, Eq)]
pub struct Task<X, G, K = Key> {
    /// The number of its line, from 1.
    pub line: u32,
    /// The thread's number, from 1.
    pub thread: u32,
    pub action: Action<X, G, K>,
}

/// What is to be done next.
#[derive(Drop, PartialEq, Eq)]
pub enum Step<X, G, K = Key> {
    /// A thread does something.
    Task(Task<X, G, K>),
    /// A manager takes one request, if there is one.
    Turn {
        /// The number of its line, from 1.
        line: u32,
        /// The manager's number, from 1.
        manager: u32,
    },
    /// The opening ends and is settled, and the managers are opened again.
    Reopen {
        /// The number of its line, from 1.
        line: u32,
    },
}

impl<X, K> ManagerCall<X, K> {
    // With its branch and its key named otherwise.
    #[inline(always)]
    pub(crate) fn map<Y, J, N: FnOnce(&X) -> Y, L: FnOnce(&K) -> J>(
        &self,
        name: N,
        key: L,
    ) -> ManagerCall<Y, J>
        requires { CallHas (FnOnceTakesAt N.FnOnce name) (FnOnceTakesAt L.FnOnce key) self.now }
        ensures { (f : X → Y) (k : K → J) → Computes (FnOnceReturnsAt N.FnOnce name) f
            → Computes (FnOnceReturnsAt L.FnOnce key) k → result ≡ call_with f k self.now }
    {
        match self {
            ManagerCall::Xa(call, branch) => ManagerCall::Xa(*call, branch.as_ref().map(name)),
            ManagerCall::Heur(branch, commits) => ManagerCall::Heur(name(branch), *commits),
            ManagerCall::Add(added, delta) => ManagerCall::Add(key(added), *delta),
            ManagerCall::Shut => ManagerCall::Shut,
            ManagerCall::Complete(handle) => ManagerCall::Complete(*handle),
            ManagerCall::Recover(room) => ManagerCall::Recover(*room),
        }
    }
}

impl<X, G, K> Action<X, G, K> {
    // With its branch, its global transaction and its key named otherwise.
    #[inline(always)]
    fn map<Y, H, J, N: FnOnce(&X) -> Y, T: FnOnce(&G) -> H, L: FnOnce(&K) -> J>(
        &self,
        name: N,
        tran: T,
        key: L,
    ) -> Action<Y, H, J>
        requires { ActionHas (FnOnceTakesAt N.FnOnce name) (FnOnceTakesAt T.FnOnce tran) (FnOnceTakesAt L.FnOnce key)
            self.now }
        ensures { (f : X → Y) (g : G → H) (k : K → J) → Computes (FnOnceReturnsAt N.FnOnce name) f
            → Computes (FnOnceReturnsAt T.FnOnce tran) g → Computes (FnOnceReturnsAt L.FnOnce key) k
            → result ≡ action_with f g k self.now }
    {
        match self {
            Action::Call(called) => Action::Call(Called {
                manager: called.manager,
                flags: called.flags,
                call: called.call.map(name, key),
            }),
            Action::CommitAll(commit) => Action::CommitAll(CommitAll {
                tran: tran(&commit.tran),
                managers: commit.managers,
                death: commit.death,
            }),
            Action::Resolve => Action::Resolve,
        }
    }
}

impl<X, G, K> Step<X, G, K> {
    /// The step with its branch, its global transaction and its key named otherwise.
    #[inline(always)]
    pub fn map<Y, H, J, N: FnOnce(&X) -> Y, T: FnOnce(&G) -> H, L: FnOnce(&K) -> J>(
        &self,
        name: N,
        tran: T,
        key: L,
    ) -> Step<Y, H, J>
        requires { StepHas (FnOnceTakesAt N.FnOnce name) (FnOnceTakesAt T.FnOnce tran) (FnOnceTakesAt L.FnOnce key)
            self.now }
        ensures { (f : X → Y) (g : G → H) (k : K → J) → Computes (FnOnceReturnsAt N.FnOnce name) f
            → Computes (FnOnceReturnsAt T.FnOnce tran) g → Computes (FnOnceReturnsAt L.FnOnce key) k
            → result ≡ step_with f g k self.now }
    {
        match self {
            Step::Task(task) => Step::Task(Task {
                line: task.line,
                thread: task.thread,
                action: task.action.map(name, tran, key),
            }),
            Step::Turn { line, manager } => Step::Turn {
                line: *line,
                manager: *manager,
            },
            Step::Reopen { line } => Step::Reopen { line: *line },
        }
    }

    /// Whether it opens the managers again.
    pub fn is_reopen(&self) -> bool
        ensures { result ≡ is_reopen self.now }
    {
        matches!(self, Step::Reopen { .. })
    }

    /// Whether it is a task of the thread.
    pub fn is_of(&self, thread: u32) -> bool
        ensures { result ≡ is_own thread self.now }
    {
        matches!(self, Step::Task(task) if task.thread == thread)
    }
}

// It is copied part by part. A derived clone goes by its variants.
impl<X: Copy, G: Copy, K: Copy> Clone for Step<X, G, K> {
    ghost is_clone = { λ a b. b ≡ a };

    ghost is_infallible = { λ _. ⊤ };

    fn clone(&self) -> Result<Step<X, G, K>, AllocError> {
        Ok(self.map(|name| *name, |tran| *tran, |key| *key))
    }
}

// A handle is a positive 32-bit number with a sign, or 0, which is none.
const MOST_HANDLE: u64 = i32::MAX as u64;

// How many xids `xa_recover()` may be asked for.
const MOST_COUNT: u64 = 64;

/// The verb of a call, by what stands between the manager and the flags.
#[derive(Clone, Copy)]
pub(crate) enum Verb {
    /// Nothing: a call of XA that names no branch.
    Plain(Call),
    /// `XID`: a call of XA that names a branch.
    OnBranch(Call),
    /// `XID`: a heuristic decision, to commit where true.
    Heur(bool),
    /// `KEY DELTA`
    Add,
    /// Nothing.
    Shut,
    /// `HANDLE`
    Complete,
    /// `COUNT`
    Recover,
}

// The fourteen verbs.
const VERBS: [(&[u8], Verb); 14] = [
    (b"open", Verb::Plain(Call::OpenRm)),
    (b"close", Verb::Plain(Call::CloseRm)),
    (b"start", Verb::OnBranch(Call::Start)),
    (b"end", Verb::OnBranch(Call::End)),
    (b"prepare", Verb::OnBranch(Call::Prepare)),
    (b"commit", Verb::OnBranch(Call::Commit)),
    (b"rollback", Verb::OnBranch(Call::Rollback)),
    (b"forget", Verb::OnBranch(Call::Forget)),
    (b"heurcom", Verb::Heur(true)),
    (b"heurrb", Verb::Heur(false)),
    (b"add", Verb::Add),
    (b"shut", Verb::Shut),
    (b"complete", Verb::Complete),
    (b"recover", Verb::Recover),
];

fn verb_of(word: &[u8]) -> Option<Verb>
    ensures { result ≡ verb_of word.now }
{
    meaning_in(&VERBS, word)
}

// The words between the manager and the flags.
#[tactic(auto, unfolding(crate::specs::Actions::call_at))]
fn call_at<'a>(verb: Verb, words: &mut Words<'a>) -> Result<ManagerCall<Name<'a>>, Reason>
    ensures takes { TakesWords result words.new (call_at verb words.old) }
    ensures few { IfOk result AsksForFew }
{
    match verb {
        Verb::Plain(call) => Ok(ManagerCall::Xa(call, None)),
        Verb::OnBranch(call) => Ok(ManagerCall::Xa(call, Some(words.xid()?))),
        Verb::Heur(commits) => Ok(ManagerCall::Heur(words.xid()?, commits)),
        Verb::Add => {
            let key = words.key()?;
            let delta = words.delta()?;
            Ok(ManagerCall::Add(key, delta))
        }
        Verb::Shut => Ok(ManagerCall::Shut),
        Verb::Complete => Ok(ManagerCall::Complete(words.number(0, MOST_HANDLE)? as i32)),
        Verb::Recover => Ok(ManagerCall::Recover(words.number(0, MOST_COUNT)? as u32)),
    }
}

// The words after the verb of a call.
#[tactic(auto, unfolding(crate::specs::Actions::call_of))]
fn call_of<'a>(verb: &[u8], words: &mut Words<'a>) -> Result<Called<Name<'a>>, Reason>
    ensures call { result ≡ call_of verb.now words.old }
    ensures few { IfOk result (λ c. AsksForFew c.call) }
{
    let verb = verb_of(verb).ok_or(Reason::UnknownWord)?;
    let manager = words.number(0, MOST_MANAGER)? as u32;
    let call = call_at(verb, words)?;
    let flags = words.flags()?;
    Ok(Called {
        manager,
        call,
        flags,
    })
}

// Takes the words after the verb of a thread's task.
fn take_action(
    script: &mut Script,
    line: u32,
    thread: u32,
    verb: &[u8],
    words: &mut Words,
) -> Result<(), LineFault>
    requires thread { IsUpTo (threads_of script.old) thread }
    ensures { Gives result
        (with_item_in script.old (task_item (as_task line thread (action_of script.old verb.now words.old))))
        script.new }
{
    if verb == b"commitall".as_slice() {
        let commit = commit_of(script, words)?;
        Ok(script.add_task(line, thread, Action::CommitAll(commit))?)
    } else if verb == b"resolve".as_slice() {
        words.end()?;
        Ok(script.add_task(line, thread, Action::Resolve)?)
    } else {
        let called = call_of(verb, words)?;
        Ok(script.add_task(line, thread, Action::Call(called))?)
    }
}

// Takes the words after `first`, the word that names the thread.
#[tactic(auto, unfolding(crate::specs::Actions::task_on))]
pub(crate) fn take_task(
    script: &mut Script,
    line: u32,
    first: &[u8],
    words: &mut Words,
) -> Result<(), LineFault>
    ensures { Gives result
        (with_item_in script.old (task_item (task_on script.old line first.now words.old)))
        script.new }
{
    let thread = number_in(1, u64::from(script.threads()), first)? as u32;
    let verb = words.word()?;
    take_action(script, line, thread, verb, words)
}

// The words after `turn`: the manager.
#[tactic(auto, unfolding(crate::specs::Actions::turn_of))]
pub(crate) fn turn_of(script: &Script, threads_mode: bool, words: &mut Words) -> Result<u32, Reason>
    ensures { result ≡ turn_of threads_mode script.now words.old }
{
    if threads_mode {
        return Err(Reason::TurnInThreadsMode);
    }
    let manager = words.number(1, u64::from(script.managers()))? as u32;
    words.end()?;
    Ok(manager)
}

// The words after `reopen`: there are none.
#[tactic(auto, unfolding(crate::specs::Actions::reopen_of))]
pub(crate) fn reopen_of(threads_mode: bool, words: &mut Words) -> Result<(), Reason>
    ensures { result ≡ reopen_of threads_mode words.old }
{
    if threads_mode {
        return Err(Reason::ReopenInThreadsMode);
    }
    words.end()
}

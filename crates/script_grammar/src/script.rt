//! What a script says.
ghost use Rattle.std.specs.Prelude.{◌≡◌, ◌≤◌, ◌<◌, ◌^◌, ℕ, Some, true, All, IfSome, OnOk, length, nat_eq, slice_get};
ghost use Rattle.std.specs.Prelude.{IfOk};
ghost use Rattle.xa_base.specs.declared.limits.TheConstants.{MOST_HANDLES, MOST_MANAGERS, MOST_QUEUED, MOST_REQUESTS};
ghost use Rattle.xa_base.specs.declared.limits.TheConstants.{MOST_THREADS};
ghost use Rattle.xa_base.specs.Lists.{IsUpTo};
ghost use Rattle.script_grammar.specs.declared.setting.TheConstants.{MOST_APPENDS};

use crate::keys::DeclaredKeys;
use crate::name::{Gtrid, Name};
use crate::step::{Action, Step, Task};
use crate::steps::{Steps, Tasks};
use std::alloc::{AllocError, Global};
use std::marker::Model;
use std::sync::Arc;
use xa_words::Key;

/// A count that a line of its own sets.
#[derive(Clone, Copy)]
pub(crate) enum Count {
    Threads,
    Managers,
    Handles,
    Queue,
    Requests,
}

/// The counts that are set; what isn't has its default.
#[derive(Clone, Copy)]
pub(crate) struct Settings {
    pub(crate) threads: Option<u32>,
    pub(crate) managers: Option<u32>,
    pub(crate) handles: Option<u32>,
    pub(crate) queue: Option<u32>,
    pub(crate) requests: Option<u32>,
}

/// A key of a manager, and its committed value before the run or after it.
///
/// They are ordered by manager, then by the bytes of the key.
#[derive(Clone, Copy, Debug, PartialEq, Eq, PartialOrd, Ord)]
pub struct Declared {
    /// The manager's number, from 1.
    pub manager: u32,
    pub key: Key,
    /// At most 1,000,000,000,000.
    pub value: u64,
}

/// An append to a log whose end isn't known.
#[derive(Clone, Copy, Debug, PartialEq, Eq)]
pub struct UnknownAppend {
    /// Which append of the log it is, 1 to 1,000,000.
    pub append: u32,
    /// Whether the log turns out to have the record.
    pub kept: bool,
}

/// A whole script: its settings, and its keys and its steps, each in the order of the lines.
pub struct Script {
    settings: Settings,
    keys: DeclaredKeys,
    // The managers that take no asynchronous calls.
    syncs: Vec<u32>,
    // Which append of a thread's log fails: place t - 1 for thread t.
    failing: [Option<u32>; 8],
    // Which append of a thread's log has an unknown end: place t - 1 for thread t.
    unknown: [Option<UnknownAppend>; 8],
    // The threads that run them share them.
    steps: Arc<Steps, Global>,
}

// It is dropped by one call, wherever that is, and not part by part there.
impl Drop for Script {
    fn drop(self) {
        let Script {
            settings: _,
            keys: _,
            syncs: _,
            failing: _,
            unknown: _,
            steps: _,
        } = self;
    }
}

impl Model for Script {
    ghost use Rattle.std.specs.Arc.{arc_value};
    ghost use Rattle.script_grammar.specs.Contents.{Content, IsScript};

    ghost Value = { Content };

    ghost view = { λ s. record {
      settings = s.settings;
      keys = s.keys;
      syncs = s.syncs.items;
      failing = s.failing;
      unknown = s.unknown;
      steps = arc_value s.steps;
    } };

    ghost invariant = { λ s. IsScript (record {
      settings = s.settings;
      keys = s.keys;
      syncs = s.syncs.items;
      failing = s.failing;
      unknown = s.unknown;
      steps = arc_value s.steps;
    }) };
}

impl Script {
    ghost use Rattle.xa_words.specs.Accounts.{are_accounts};
    ghost use Rattle.std.specs.List.{list_any};
    ghost use Rattle.script_grammar.specs.Contents.{is_reopen, tasks_of, declared_accounts, IsOfManager, IsOfScript};
    ghost use Rattle.script_grammar.specs.Contents.{IsScript, threads_of, managers_of, handles_of, queue_of};
    ghost use Rattle.script_grammar.specs.Contents.{requests_of, declares_async, failing_append, nothing, with_count};
    ghost use Rattle.script_grammar.specs.Contents.{with_declared, with_sync, unknown_append, with_failing};
    ghost use Rattle.script_grammar.specs.Contents.{with_unknown, with_step, HasFewXids};
    ghost use Rattle.script_grammar.specs.KeptSteps.{task_step};

    pub(crate) fn new(alloc: Global) -> Result<Script, AllocError>
        ensures { IfOk result (λ s. s ≡ nothing) }
    {
        Ok(Script {
            settings: Settings {
                threads: None,
                managers: None,
                handles: None,
                queue: None,
                requests: None,
            },
            keys: DeclaredKeys::new(alloc),
            syncs: Vec::new(alloc),
            failing: [None; 8],
            unknown: [None; 8],
            steps: Arc::new(alloc, Steps::new(alloc))?,
        })
    }

    /// How many threads of control there are, 1 to 8.
    pub fn threads(&self) -> u32
        ensures threads { result ≡ threads_of self.now }
        ensures limits { IsUpTo MOST_THREADS result }
    {
        self.settings.threads.unwrap_or(1)
    }

    /// Whether a line opens the managers again.
    pub fn reopens(&self) -> bool
        ensures { result ≡ list_any is_reopen self.now.steps }
    {
        self.steps.any_reopens()
    }

    /// How many managers there are, 1 to 8.
    pub fn managers(&self) -> u32
        ensures managers { result ≡ managers_of self.now }
        ensures limits { IsUpTo MOST_MANAGERS result }
    {
        self.settings.managers.unwrap_or(1)
    }

    /// How many handles a thread has, 1 to 32.
    pub fn handles(&self) -> u32
        ensures handles { result ≡ handles_of self.now }
        ensures limits { IsUpTo MOST_HANDLES result }
    {
        self.settings.handles.unwrap_or(4)
    }

    /// How many requests a manager's queue holds, 1 to 64.
    pub fn queue(&self) -> u32
        ensures queue { result ≡ queue_of self.now }
        ensures limits { IsUpTo MOST_QUEUED result }
    {
        self.settings.queue.unwrap_or(8)
    }

    /// How many requests a thread may put to a manager, 1 to 4,096.
    pub fn requests(&self) -> u32
        ensures requests { result ≡ requests_of self.now }
        ensures limits { IsUpTo MOST_REQUESTS result }
    {
        self.settings.requests.unwrap_or(256)
    }

    /// The declared keys, in the order of their lines.
    pub fn keys(&self) -> &[Declared]
        ensures keys { result.now ≡ self.now.keys }
        ensures managers { All (IsOfManager self.now) result.now }
        ensures accounts { (m : ℕ) → are_accounts (declared_accounts m result.now) ≡ true }
    {
        self.keys.all()
    }

    pub(crate) fn declared(&self) -> &DeclaredKeys
        ensures { result.now ≡ self.now.keys }
    {
        &self.keys
    }

    /// Whether the manager takes asynchronous calls: whether its switch carries `TMUSEASYNC`.
    pub fn carries_async(&self, manager: u32) -> bool
        ensures { result ≡ declares_async self.now manager }
    {
        !self.syncs.contains(&manager)
    }

    /// Which append of the thread's log fails, from 1, if one does. No log fails of a thread that there isn't.
    pub fn failing_append(&self, thread: u32) -> Option<u32>
        ensures append { result ≡ failing_append self.now thread }
        ensures limits { IfSome result (λ k. IsUpTo MOST_APPENDS k) }
        ensures of { IfSome result (λ k. (1 ≤ thread) × (thread ≤ threads_of self.now)) }
    {
        match thread {
            1..=8 => self.failing[thread as usize - 1],
            _ => None,
        }
    }

    /// Which append of the thread's log has an unknown end, if one has. No log of a thread that there isn't has one.
    pub fn unknown_append(&self, thread: u32) -> Option<UnknownAppend>
        ensures append { result ≡ unknown_append self.now thread }
        ensures limits { IfSome result (λ u. IsUpTo MOST_APPENDS u.append) }
        ensures of { IfSome result (λ u. (1 ≤ thread) × (thread ≤ threads_of self.now)) }
    {
        match thread {
            1..=8 => self.unknown[thread as usize - 1],
            _ => None,
        }
    }

    /// How many steps there are.
    pub fn len(&self) -> usize
        ensures steps { result ≡ length self.now.steps }
        ensures fits { result < 2 ^ 63 }
    {
        self.steps.len()
    }

    /// Whether there is no step.
    pub fn is_empty(&self) -> bool
        ensures { result ≡ nat_eq (length self.now.steps) 0 }
    {
        self.steps.len() == 0
    }

    /// The step at a place, from 0. The steps are the tasks of all threads, the turns of managers and the reopenings,
    /// in the order of the lines. The bytes of a step's name are lent with it.
    #[inline(always)]
    pub fn step(&self, place: usize) -> Step<Name<'_>, Gtrid<'_>>
        requires { place < length self.now.steps }
        ensures step { slice_get self.now.steps place ≡ Some result }
        ensures of { IsOfScript self.now result }
    {
        self.steps.get(place)
    }

    /// Does nothing. What it ensures holds of every script: its steps are of its threads and managers.
    pub fn steps_are_of_it(&self)
        ensures { All (IsOfScript self.now) self.now.steps }
    {
        // The invariant says so. It is known where a field is used.
        let _ = &self.settings;
    }

    /// The tasks of a thread alone.
    pub fn tasks_of(&self, alloc: Global, thread: u32) -> Result<Tasks, AllocError>
        ensures { IfOk result (λ t. t ≡ tasks_of thread self.now.steps) }
    {
        let places = self.steps.places_of(alloc, thread)?;
        Ok(Tasks::new(Arc::try_clone(&self.steps)?, places))
    }

    pub(crate) fn settings(&self) -> &Settings
        ensures { result.now ≡ self.now.settings }
    {
        &self.settings
    }

    pub(crate) fn set(&mut self, count: Count, number: u32)
        requires { IsScript self.old → IsScript (with_count count number self.old) }
        ensures { self.new ≡ with_count count number self.old }
    {
        match count {
            Count::Threads => self.settings.threads = Some(number),
            Count::Managers => self.settings.managers = Some(number),
            Count::Handles => self.settings.handles = Some(number),
            Count::Queue => self.settings.queue = Some(number),
            Count::Requests => self.settings.requests = Some(number),
        }
    }

    pub(crate) fn add_key(&mut self, declared: Declared) -> Result<(), AllocError>
        requires { IsScript self.old → IsScript (with_declared declared self.old) }
        ensures { OnOk result (self.new ≡ with_declared declared self.old) }
    {
        self.keys.add(declared)
    }

    pub(crate) fn add_sync(&mut self, manager: u32) -> Result<(), AllocError>
        ensures { OnOk result (self.new ≡ with_sync manager self.old) }
    {
        self.syncs.push(manager)?;
        Ok(())
    }

    pub(crate) fn set_failing(&mut self, thread: u32, append: u32)
        requires script { IsScript self.old → IsScript (with_failing thread append self.old) }
        requires place { (1 ≤ thread) × (thread ≤ 8) }
        ensures { self.new ≡ with_failing thread append self.old }
    {
        self.failing[thread as usize - 1] = Some(append);
    }

    pub(crate) fn set_unknown(&mut self, thread: u32, unknown: UnknownAppend)
        requires script { IsScript self.old → IsScript (with_unknown thread unknown self.old) }
        requires place { (1 ≤ thread) × (thread ≤ 8) }
        ensures { self.new ≡ with_unknown thread unknown self.old }
    {
        self.unknown[thread as usize - 1] = Some(unknown);
    }

    /// Adds what a thread does on the line of this number.
    #[tactic(auto, using(crate::proofs::Scripts::step_kept))]
    pub(crate) fn add_task(
        &mut self,
        line: u32,
        thread: u32,
        action: Action<Name, Gtrid>,
    ) -> Result<(), AllocError>
        requires thread { IsUpTo (threads_of self.old) thread }
        requires few { HasFewXids action }
        ensures { OnOk result (self.new ≡ with_step (task_step line thread action.entry) self.old) }
    {
        self.add_step(&Step::Task(Task {
            line,
            thread,
            action,
        }))
    }

    pub(crate) fn add_step(&mut self, step: &Step<Name, Gtrid>) -> Result<(), AllocError>
        requires { IsScript self.old → IsScript (with_step step.now self.old) }
        ensures { OnOk result (self.new ≡ with_step step.now self.old) }
    {
        Arc::make_mut(&mut self.steps)?.push(step)
    }
}

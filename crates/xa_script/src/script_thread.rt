//! A thread of a script as a client of a crew.
ghost use Rattle.std.specs.Prelude.{◌≡◌, ◌+◌, ◌≤◌, ◌<◌, ◌++◌, ◌∷◌, [], Some, length, false, IfOk, OnOk, slice_get};
ghost use Rattle.std.specs.Prelude.{vec_capacity};
ghost use Rattle.xa_desk.specs.GoingOn.{GoesOn};
ghost use Rattle.xa_desk.specs.Kept.{AllKept};
ghost use Rattle.xa_base.specs.Lists.{Chain};
ghost use Rattle.script_session.specs.Sessions.{log_of, session_of, HasDone};
ghost use Rattle.xa_script.specs.ScriptThreads.{IsNewThread};

use script_grammar::{Script, Tasks};
use script_session::{carry_out, log_of};
use script_transcript::{Transcript, TranscriptLine};
use std::alloc::{AllocError, Global};
use std::sync::Wait;
use xa_crew::Client;
use xa_crew::laws::idles_go_on;
use xa_desk::laws::desks_go_on;
use xa_desk::{Desk, Idle};
use xa_log::{MemoryLog, TrialLog};
use xa_scan::Scan;

/// A thread of a script: its own tasks, its decision log, and what it told so far.
pub(crate) struct ScriptThread {
    /// Its number, from 1.
    pub(crate) thread: u32,
    alloc: Global,
    log: TrialLog<MemoryLog>,
    scan: Scan,
    tasks: Tasks,
    /// What its tasks answered, in their order.
    pub(crate) told: Transcript,
    /// Whether memory was refused, after which no task was done.
    pub(crate) wants_memory: bool,
}

// It is dropped by one call, wherever that is, and not part by part there.
impl Drop for ScriptThread {
    fn drop(self) {
        let ScriptThread {
            thread: _,
            alloc: _,
            log: _,
            scan: _,
            tasks: _,
            told: _,
            wants_memory: _,
        } = self;
    }
}

// Carries out the tasks, until memory is refused.
fn carry_out_all<R: Wait, I: Idle>(
    rt: &R,
    alloc: Global,
    desk: &mut Desk,
    log: &mut TrialLog<MemoryLog>,
    scan: &mut Scan,
    tasks: &Tasks,
    told: &mut Transcript,
    idle: &mut I,
) -> Result<(), AllocError>
    ensures runs { OnOk result (Chain HasDone (session_of desk.old log.old scan.old, told.old) tasks.now
        (session_of desk.new log.new scan.new, told.new)) }
    ensures goes_on { GoesOn desk.old desk.new }
    ensures kept { AllKept desk.old → AllKept desk.new }
    ensures idled { I.leads idle.old idle.new }
{
    desks_go_on();
    idles_go_on::<I>();
    for place in 0..tasks.len() {
        let task = tasks.get(place);
        let answer = carry_out(rt, alloc, desk, log, scan, &task.action, idle)?;
        told.tell(TranscriptLine::Answered {
            line: task.line,
            thread: task.thread,
            answer,
        })?;
    }
    Ok(())
}

impl ScriptThread {
    /// The thread of this number before it does anything, with room for what it tells.
    pub(crate) fn new(
        alloc: Global,
        script: &Script,
        thread: u32,
    ) -> Result<ScriptThread, AllocError>
        ensures { IfOk result (IsNewThread script.now thread) }
    {
        let tasks = script.tasks_of(alloc, thread)?;
        let told = Transcript::with_capacity(alloc, tasks.len())?;
        Ok(ScriptThread {
            thread,
            alloc,
            log: log_of(alloc, script, thread),
            scan: Scan::none(),
            tasks,
            told,
            wants_memory: false,
        })
    }
}

impl Client for ScriptThread {
    ghost use Rattle.xa_script.specs.ScriptThreads.{ThreadWorks};

    ghost works = { ThreadWorks };

    fn work<R: Wait, I: Idle>(&mut self, rt: &R, desk: &mut Desk, idle: &mut I) {
        let done = carry_out_all(
            rt,
            self.alloc,
            desk,
            &mut self.log,
            &mut self.scan,
            &self.tasks,
            &mut self.told,
            idle,
        );
        self.wants_memory = done.is_err();
    }
}

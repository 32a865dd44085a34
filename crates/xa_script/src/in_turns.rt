//! Running a script in turns, step by step in one thread.
ghost use Rattle.std.specs.Prelude.{◌≡◌, ◌+◌, ◌<◌, ◌++◌, ◌∷◌, ℕ, List, [], length, map, All, IfOk, OnOk, IsErrOf};
ghost use Rattle.xa_base.specs.Lists.{IsUpTo};
ghost use Rattle.xa_desk.specs.Kept.{AllKept};
ghost use Rattle.script_grammar.specs.Steps.{ScriptStep};
ghost use Rattle.script_grammar.specs.Contents.{Content};
ghost use Rattle.laws_transcript.specs.ToldOpenings.{Beginning, ToldOpening, Former, beginning};
ghost use Rattle.script_command.specs.declared.mode.RunMode.TheVariants as mode;
ghost use Rattle.xa_script.specs.InTurns.{stage_of, closing_of, HasCalled, HasEndedDesk, HasTurned, HaveEnded};
ghost use Rattle.xa_desk.specs.Ended.{EndedView};
ghost use Rattle.xa_script.specs.TurnsSoFar.{IsOpen, Goes, IsClosedOpening};
ghost use Rattle.xa_script.specs.Outcome.{FollowsOpening, IsOutcome, Writes};

use crate::outcome::show;
use crate::plan::{again_of, plan_of};
use script_grammar::{Gtrid, Name, Script, Step, Task};
use script_session::{Session, carry_out, sessions_again, sessions_of};
use script_transcript::{RunFault, Transcript, TranscriptLine, tell_ended};
use std::alloc::{AllocError, Global};
use std::io::Write;
use std::sync::Wait;
use xa_base::MOST_HANDLES;
use xa_crew::{Turns, end_desk, settle_all};
use xa_desk::EndedDesk;
use xa_desk::laws::desks_go_on;
use xa_log::{MemoryLog, TrialLog};
use xa_switch::laws::opened_desks_keep_what_is_outstanding;
use xa_switch::{OpenFault, Settled, open_switch, reopen};

// What runs an opening of a script: its number, its threads of control, and the workers, which take turns.
struct Runner {
    opening: u64,
    sessions: Vec<Session>,
    turns: Turns,
}

// It is dropped by one call, wherever that is, and not part by part there.
impl Drop for Runner {
    fn drop(self) {
        let Runner {
            opening: _,
            sessions: _,
            turns: _,
        } = self;
    }
}

// What an opening has come to: its number, the logs of its threads, and how it was settled.
#[derive(Drop)]
struct Closed {
    opening: u64,
    logs: Vec<TrialLog<MemoryLog>>,
    settled: Settled,
}

impl Runner {
    // The first opening of a script.
    fn open<R: Wait>(rt: &R, alloc: Global, script: &Script) -> Result<Runner, AllocError>
        ensures number { IfOk result (λ r. r.opening ≡ 1) }
        ensures opened { IfOk result (λ r. IsOpen script.now (beginning script.now) r.sessions.items r.turns) }
    {
        let plan = plan_of(alloc, script)?;
        let (desks, workers) = match open_switch(rt, alloc, &plan) {
            Ok(opened) => opened,
            Err(OpenFault::NoMemory) => return Err(AllocError),
            // A script's counts are within the limits, and its managers can be opened with their keys.
            Err(OpenFault::BadPlan) => unreachable!(),
        };
        let sessions = sessions_of(alloc, script, desks)?;
        Ok(Runner {
            opening: plan.opening,
            sessions,
            turns: Turns::new(workers),
        })
    }

    // A thread does a task, which is told. It fails only for want of memory.
    fn call<R: Wait>(
        &mut self,
        rt: &R,
        alloc: Global,
        task: &Task<Name, Gtrid>,
    ) -> Result<TranscriptLine, AllocError>
        requires { IsUpTo (length self.old.sessions.items) task.now.thread }
        ensures calls { IfOk result (HasCalled task.now (stage_of self.old.sessions.items self.old.turns)
            (stage_of self.new.sessions.items self.new.turns)) }
        ensures number { self.new.opening ≡ self.old.opening }
    {
        let Session { desk, log, scan } = &mut self.sessions[task.thread as usize - 1];
        let answer = carry_out(rt, alloc, desk, log, scan, &task.action, &mut self.turns)?;
        Ok(TranscriptLine::Answered {
            line: task.line,
            thread: task.thread,
            answer,
        })
    }

    // A manager's worker takes a turn, which is told.
    fn turn<R: Wait>(&mut self, rt: &R, line: u32, manager: u32) -> TranscriptLine
        requires { IsUpTo (length self.old.turns) manager }
        ensures turns { HasTurned line manager (stage_of self.old.sessions.items self.old.turns)
            (stage_of self.new.sessions.items self.new.turns) result }
        ensures number { self.new.opening ≡ self.old.opening }
    {
        TranscriptLine::Turned {
            line,
            step: self.turns.turn(rt, manager),
        }
    }

    // The opening ends: what is outstanding is told, the workers run to the last end mark, and all is settled.
    fn close<R: Wait>(
        self,
        rt: &R,
        alloc: Global,
        transcript: &mut Transcript,
    ) -> Result<Closed, AllocError>
        requires { (s : Content) × (b : Beginning) × (steps : List ScriptStep) × (answers : List TranscriptLine)
            × Goes s b steps answers self.sessions.items self.turns }
        ensures number { IfOk result (λ c. c.opening ≡ self.opening) }
        ensures closed { IfOk result (λ c. (s : Content) (b : Beginning) (steps : List ScriptStep)
            (answers : List TranscriptLine) → Goes s b steps answers self.sessions.items self.turns
            → (more : List TranscriptLine) × (transcript.new ≡ transcript.old ++ more)
            × IsClosedOpening s b (record {
              steps = steps;
              answers = answers ++ more;
              settled = c.settled;
            }) c.logs.items) }
    {
        opened_desks_keep_what_is_outstanding();
        desks_go_on();
        let Runner {
            opening,
            sessions,
            mut turns,
        } = self;
        let (ended, logs) = end_desks(rt, alloc, sessions, &mut turns, transcript)?;
        let done = Vec::with_capacity(alloc, turns.managers())?;
        let done = turns.run(rt, done);
        let settled = settle_all(rt, alloc, ended, done)?;
        Ok(Closed {
            opening,
            logs,
            settled,
        })
    }
}

impl Closed {
    // It is opened again, with the next number.
    fn reopen<R: Wait>(self, rt: &R, alloc: Global, script: &Script) -> Result<Runner, AllocError>
        requires closed { (b : Beginning) × (o : ToldOpening) × IsClosedOpening script.now b o self.logs.items
            × (o.settled ≡ self.settled) × (self.opening ≡ b.opening) }
        requires few { self.opening < 18446744073709551615 }
        ensures opened { IfOk result (λ r. (b : Beginning) (o : ToldOpening) (line : ℕ)
            → IsClosedOpening script.now b o self.logs.items → o.settled ≡ self.settled → self.opening ≡ b.opening
            → (next : Beginning) × FollowsOpening mode.Turns script.now (record { opening = o; line = line }) b next
            × (r.opening ≡ next.opening) × IsOpen script.now next r.sessions.items r.turns) }
        ensures number { IfOk result (λ r. r.opening ≡ self.opening + 1) }
    {
        let Closed {
            opening,
            logs,
            settled,
        } = self;
        let again = again_of(script, opening + 1);
        let (desks, workers, scans) = match reopen(rt, alloc, settled, &again) {
            Ok(opened) => opened,
            Err(unopened) => match unopened.why {
                OpenFault::NoMemory => return Err(AllocError),
                // A script's counts are within the limits, and the number is the opening's own.
                OpenFault::BadPlan => unreachable!(),
            },
        };
        let sessions = sessions_again(alloc, desks, logs, scans)?;
        Ok(Runner {
            opening: again.opening,
            sessions,
            turns: Turns::new(workers),
        })
    }
}

// Ends the desk of a thread, tells what was outstanding, and gives the ended desk and the thread's log.
fn end_session<R: Wait>(
    rt: &R,
    alloc: Global,
    session: Session,
    turns: &mut Turns,
    transcript: &mut Transcript,
) -> Result<(EndedDesk, TrialLog<MemoryLog>), AllocError>
    requires { AllKept session.desk }
    ensures ended { IfOk result (λ r. (before : List EndedView) → HasEndedDesk session
        (closing_of before turns.old transcript.old) (closing_of (before ++ r.0 ∷ []) turns.new transcript.new)) }
    ensures log { IfOk result (λ r. r.1 ≡ session.log) }
{
    let Session { desk, log, scan: _ } = session;
    let thread = desk.thread();
    let mut outstanding = Vec::with_capacity(alloc, MOST_HANDLES)?;
    let ended = end_desk(rt, desk, turns, &mut outstanding);
    tell_ended(thread, &outstanding, transcript)?;
    Ok((ended, log))
}

// Ends the desks by rising thread, tells what was outstanding, and gives the threads' logs.
fn end_desks<R: Wait>(
    rt: &R,
    alloc: Global,
    sessions: Vec<Session>,
    turns: &mut Turns,
    transcript: &mut Transcript,
) -> Result<(Vec<EndedDesk>, Vec<TrialLog<MemoryLog>>), AllocError>
    requires { All (λ s. AllKept s.desk) sessions.items }
    ensures ended { IfOk result (λ r. HaveEnded (closing_of [] turns.old transcript.old) sessions.items
        (closing_of r.0.items turns.new transcript.new)) }
    ensures logs { IfOk result (λ r. r.1.items ≡ map (λ x. x.log) sessions.items) }
{
    let mut ended = Vec::with_capacity(alloc, sessions.len())?;
    let mut logs = Vec::with_capacity(alloc, sessions.len())?;
    for session in sessions {
        let (end, log) = end_session(rt, alloc, session, turns, transcript)?;
        ended.push_reserved(end);
        logs.push_reserved(log);
    }
    Ok((ended, logs))
}

// Runs a script in turns, and settles what the threads and the managers of each opening have come to: the last one's.
fn run<R: Wait>(rt: &R, alloc: Global, script: &Script) -> Result<(Transcript, Settled), AllocError>
    ensures { IfOk result (λ r. (before : List Former) × (last : ToldOpening)
        × IsOutcome mode.Turns script.now r.0 before last × (last.settled ≡ r.1)) }
{
    let mut runner = Runner::open(rt, alloc, script)?;
    let ends = runner.sessions.len() * MOST_HANDLES;
    let mut transcript = Transcript::with_capacity(alloc, script.len().saturating_add(ends))?;
    for place in 0..script.len() {
        match script.step(place) {
            Step::Task(task) => transcript.tell(runner.call(rt, alloc, &task)?)?,
            Step::Turn { line, manager } => transcript.tell(runner.turn(rt, line, manager))?,
            Step::Reopen { line } => {
                let closed = runner.close(rt, alloc, &mut transcript)?;
                transcript.tell(TranscriptLine::Reopened { line })?;
                runner = closed.reopen(rt, alloc, script)?;
            }
        }
    }
    let closed = runner.close(rt, alloc, &mut transcript)?;
    Ok((transcript, closed.settled))
}

/// Runs a script in turns and writes its transcript: the answer to each step in the order of the lines, what was
/// outstanding before each line that reopens and after the last line, and the committed value of each declared key.
///
/// Nothing is written before the run is over. On `NoMemory` nothing is written at all; after
/// `Write` the writer may have taken a part. It returns once all that it waits for has come.
pub fn run_turns<R: Wait, W: Write>(
    rt: &R,
    alloc: Global,
    script: &Script,
    writer: &mut W,
) -> Result<(), RunFault>
    ensures ok { OnOk result (Writes mode.Turns script.now (W.contents writer.old) (W.contents writer.new)) }
    ensures memory { IsErrOf result RunFault.NoMemory → W.contents writer.new ≡ W.contents writer.old }
{
    let (transcript, settled) = run(rt, alloc, script)?;
    show(alloc, script, transcript.text(), &settled, writer)
}

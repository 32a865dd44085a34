//! Running a script in threads: one for each of its threads, and one for each manager's worker.
ghost use Rattle.std.specs.Prelude.{◌≡◌, ◌++◌, List, [], length, All, IfOk, OnOk, IsErrOf, false};
ghost use Rattle.std.specs.List.{flat_map, range_with_len};
ghost use Rattle.xa_base.specs.Lists.{Pairwise};
ghost use Rattle.script_grammar.specs.Contents.{threads_of, NoneReopens};
ghost use Rattle.laws_transcript.specs.ToldOpenings.{ToldOpening};
ghost use Rattle.script_transcript.specs.declared.answer.TranscriptLine.{TranscriptLine};
ghost use Rattle.xa_script.specs.ScriptThreads.{IsNewThread};
ghost use Rattle.script_transcript.specs.Text.{lines_text};
ghost use Rattle.script_command.specs.declared.mode.RunMode.TheVariants as mode;
ghost use Rattle.xa_script.specs.InThreads.{lines_of_thread};
ghost use Rattle.xa_script.specs.Outcome.{IsOutcome, Writes};

use crate::outcome::show;
use crate::plan::plan_of;
use crate::script_thread::ScriptThread;
use script_grammar::Script;
use script_transcript::{LINE, RunFault, tell_ended};
use std::alloc::{AllocError, Global};
use std::io::Write;
use std::sync::Wait;
use std::thread::Threads;
use xa_crew::{Attended, CrewFault, run_clients};
use xa_switch::Settled;
use xa_worker::Pace;

// The threads of the script by rising number, before they do anything.
fn threads_of(alloc: Global, script: &Script) -> Result<Vec<ScriptThread>, AllocError>
    ensures { IfOk result (λ v. Pairwise (IsNewThread script.now) (range_with_len 1 (threads_of script.now)) v.items) }
{
    let mut threads = Vec::with_capacity(alloc, script.threads() as usize)?;
    for before in 0..script.threads() {
        threads.push(ScriptThread::new(alloc, script, before + 1)?)?;
    }
    Ok(threads)
}

// Adds the lines that a thread tells. It fails where memory was refused to the thread.
fn tell(attended: Attended<ScriptThread>, lines: &mut Vec<u8>) -> Result<(), AllocError>
    ensures done { OnOk result (attended.client.wants_memory ≡ false) }
    ensures told { OnOk result (lines.new.items ≡ lines.old.items ++ lines_text (lines_of_thread attended)) }
{
    let Attended {
        mut client,
        outstanding,
    } = attended;
    if client.wants_memory {
        return Err(AllocError);
    }
    tell_ended(client.thread, &outstanding, &mut client.told)?;
    lines.extend_from_slice(client.told.text())
}

// The lines that the threads tell, one after the other.
fn lines_of(threads: Vec<Attended<ScriptThread>>, mut lines: Vec<u8>) -> Result<Vec<u8>, AllocError>
    requires { lines.items ≡ [] }
    ensures done { IfOk result (λ _. All (λ t. t.client.wants_memory ≡ false) threads.items) }
    ensures lines { IfOk result (λ v. v.items ≡ lines_text (flat_map lines_of_thread threads.items)) }
{
    for attended in threads {
        tell(attended, &mut lines)?;
    }
    Ok(lines)
}

// Runs a script in threads, which settles what its threads and managers have come to.
fn run<R: Threads + Wait + Copy + Send + 'static, P: Pace + Drop + Send + 'static>(
    rt: &R,
    alloc: Global,
    script: &Script,
    paces: Vec<P>,
) -> Result<(Vec<u8>, Settled), AllocError>
    requires paces { length paces.items ≡ 8 }
    requires one { NoneReopens script.now.steps }
    ensures { IfOk result (λ r. (answers : List TranscriptLine) × (last : ToldOpening)
        × (r.0.items ≡ lines_text answers)
        × IsOutcome mode.Threads script.now answers [] last × (last.settled ≡ r.1)) }
{
    script.steps_are_of_it();
    let plan = plan_of(alloc, script)?;
    let threads = threads_of(alloc, script)?;
    let lines = Vec::with_capacity(alloc, script.len().saturating_mul(LINE))?;
    match run_clients(rt, alloc, &plan, threads, paces) {
        Ok(run) => Ok((lines_of(run.clients, lines)?, run.settled)),
        Err(CrewFault::NoMemory | CrewFault::Unsettled(_)) => Err(AllocError),
        // A script's counts are within the limits, and its managers can be opened with their keys.
        Err(CrewFault::BadPlan) => unreachable!(),
    }
}

/// Runs a script in threads, one for each of its threads and one for each manager's worker, and writes its transcript:
/// the answers to the lines of thread 1 in their order and what was outstanding after the last, then those of thread 2,
/// and so on; then the committed value of each declared key.
///
/// A script that was read for threads has no turns, and one that has is run without them. It must not open its managers
/// again, as none does that was read for threads; `Script::reopens` tells. There are eight paces; the worker of manager
/// m has that at place m - 1.
///
/// Nothing is written before the run is over. On `NoMemory` nothing is written at all; a thread that can't be started
/// counts as that. After `Write` the writer may have taken a part. It returns once all that it waits for has come.
pub fn run_threads<
    R: Threads + Wait + Copy + Send + 'static,
    W: Write,
    P: Pace + Drop + Send + 'static,
>(rt: &R, alloc: Global, script: &Script, writer: &mut W, paces: Vec<P>) -> Result<(), RunFault>
    requires paces { length paces.items ≡ 8 }
    requires one { NoneReopens script.now.steps }
    ensures ok { OnOk result (Writes mode.Threads script.now (W.contents writer.old) (W.contents writer.new)) }
    ensures memory { IsErrOf result RunFault.NoMemory → W.contents writer.new ≡ W.contents writer.old }
{
    let (lines, settled) = run(rt, alloc, script, paces)?;
    show(alloc, script, &lines, &settled, writer)
}

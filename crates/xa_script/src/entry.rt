//! The program, over any reader and writers.
ghost use Rattle.std.specs.Prelude.{◌≡◌, ◌≢◌, ◌⊎◌, ◌<◌, ◌≤◌, length, Err, OnOk, IfErr, IsErrOf, IfSome};
ghost use Rattle.script_command.specs.declared.mode.RunMode.{RunMode};
ghost use Rattle.script_grammar.specs.Contents.{NoneReopens};
ghost use Rattle.xa_script.specs.declared.entry.Fault.{Fault};
ghost use Rattle.script_command.specs.Words.{AreWords, IsMode};
ghost use Rattle.xa_script.specs.Outcome.{Writes};
ghost use Rattle.xa_script.specs.Program.{status_of, fault_line_text, text_of, IsJudged, ShowsRun, AppendsSome};
ghost use Rattle.xa_script.specs.Program.{IsFaulty, FailsBy, has_threads};

use crate::in_threads::run_threads;
use crate::in_turns::run_turns;
use itoa::Buffer;
use script_command::{RunMode, WordsFault, mode_of};
use script_grammar::{Reason, Script, ScriptFault, read_script};
use script_transcript::RunFault;
use std::alloc::Global;
use std::io::{IoSlice, Read, Write};
use std::sync::Wait;
use std::thread::Threads;
use xa_worker::Free;

// What is told of want of memory, which takes none.
const OUT_OF_MEMORY: &[u8] = b"out of memory\n";

// Why the program shows no transcript, or not all of it.
#[derive(Clone, Copy)]
pub(crate) enum Fault {
    Usage,
    // Memory ran out while the words were judged.
    NoMemory,
    Script(ScriptFault),
    Run(RunFault),
}

// The exit status of a fault.
fn status_of(fault: Fault) -> u8
    ensures status { result ≡ status_of fault }
    ensures few { (1 ≤ result) × (result ≤ 4) }
{
    match fault {
        Fault::Script(ScriptFault::Line { .. }) => 1,
        Fault::Usage => 2,
        Fault::NoMemory | Fault::Script(ScriptFault::NoMemory) | Fault::Run(RunFault::NoMemory) =>
            3,
        Fault::Script(ScriptFault::Read) | Fault::Run(RunFault::Write) => 4,
    }
}

// Writes these bytes, as far as the writer takes them at once.
fn put<E: Write>(bytes: &[u8], err: &mut E)
    ensures { AppendsSome (E.contents err.old) (E.contents err.new) bytes.now }
{
    let _ = err.write(bytes);
}

// Tells of a faulty line: its number and the reason.
fn put_line<E: Write>(line: u32, why: Reason, err: &mut E)
    ensures { AppendsSome (E.contents err.old) (E.contents err.new) (fault_line_text line why) }
{
    let mut number = Buffer::new();
    let parts = [
        IoSlice::new(b"line "),
        IoSlice::new(number.format(line).as_bytes()),
        IoSlice::new(b": "),
        IoSlice::new(why.text().as_bytes()),
        IoSlice::new(b"\n"),
    ];
    let _ = err.write_vectored(&parts);
}

// Tells of a fault, in one line.
fn tell<E: Write>(fault: Fault, err: &mut E)
    ensures { AppendsSome (E.contents err.old) (E.contents err.new) (text_of fault) }
{
    match fault {
        Fault::Script(ScriptFault::Line { line, why }) => put_line(line, why, err),
        Fault::Script(ScriptFault::Read) => put(b"input failed\n", err),
        Fault::Run(RunFault::Write) => put(b"output failed\n", err),
        Fault::Usage => put(b"usage: xaswitch turns or threads\n", err),
        Fault::NoMemory | Fault::Script(ScriptFault::NoMemory) | Fault::Run(RunFault::NoMemory) => {
            put(OUT_OF_MEMORY, err)
        }
    }
}

// Whether each thread of a script has a thread of its own.
fn has_threads(mode: RunMode) -> bool
    ensures { result ≡ has_threads mode }
{
    match mode {
        RunMode::Turns => false,
        RunMode::Threads => true,
    }
}

// Runs the script in this mode.
fn run<H: Threads + Wait + Copy + Send + 'static, W: Write>(
    rt: &H,
    alloc: Global,
    mode: RunMode,
    script: &Script,
    out: &mut W,
) -> Result<(), RunFault>
    requires one { mode ≡ RunMode.Threads → NoneReopens script.now.steps }
    ensures ok { OnOk result (Writes mode script.now (W.contents out.old) (W.contents out.new)) }
    ensures memory { IsErrOf result RunFault.NoMemory → W.contents out.new ≡ W.contents out.old }
{
    match mode {
        RunMode::Turns => run_turns(rt, alloc, script, out),
        RunMode::Threads => match Vec::from_array(alloc, [Free; 8]) {
            Ok(paces) => run_threads(rt, alloc, script, out, paces),
            Err(_) => Err(RunFault::NoMemory),
        },
    }
}

// Reads the script and runs it in this mode.
fn show<H: Threads + Wait + Copy + Send + 'static, R: Read, W: Write>(
    rt: &H,
    alloc: Global,
    mode: RunMode,
    reader: &mut R,
    out: &mut W,
) -> Result<(), Fault>
    ensures ok { OnOk result (ShowsRun mode (R.remaining reader.old) (W.contents out.old) (W.contents out.new)) }
    ensures err { IfErr result (λ fault.
        FailsBy fault mode (R.remaining reader.old) (W.contents out.old) (W.contents out.new)) }
    ensures judged { IfErr result (λ fault. IsJudged fault → ⊥) }
{
    let script = match read_script(alloc, reader, has_threads(mode)) {
        Ok(script) => script,
        Err(fault) => return Err(Fault::Script(fault)),
    };
    match run(rt, alloc, mode, &script, out) {
        Ok(()) => Ok(()),
        Err(fault) => Err(Fault::Run(fault)),
    }
}

// Judges the words, and only then reads the script and runs it.
#[tactic(auto, using(std::proofs::lemmas::Result::on_ok_weaker))]
fn carry_out<H: Threads + Wait + Copy + Send + 'static, R: Read, W: Write>(
    rt: &H,
    alloc: Global,
    words: &[&str],
    reader: &mut R,
    out: &mut W,
) -> Result<(), Fault>
    ensures err_words { IfErr result (λ fault. IsJudged fault ⊎ AreWords words.now) }
    ensures usage { IsErrOf result Fault.Usage → ¬ AreWords words.now }
    ensures unread { IsErrOf result Fault.Usage → reader.new ≡ reader.old }
    ensures several { length words.now ≢ 1 → result ≡ Err Fault.Usage }
    ensures unshown { IfErr result (λ fault. IsJudged fault → W.contents out.new ≡ W.contents out.old) }

    ensures ok { OnOk result ((mode : RunMode) × IsMode words.now mode
        × ShowsRun mode (R.remaining reader.old) (W.contents out.old) (W.contents out.new)) }
    ensures err { IfErr result (λ fault. (mode : RunMode) → IsMode words.now mode →
        FailsBy fault mode (R.remaining reader.old) (W.contents out.old) (W.contents out.new)) }
{
    match mode_of(alloc, words) {
        Ok(mode) => show(rt, alloc, mode, reader, out),
        Err(WordsFault::Usage) => Err(Fault::Usage),
        Err(WordsFault::NoMemory) => Err(Fault::NoMemory),
    }
}

/// The whole program: judges the words after its name, reads the script, runs it and writes its
/// transcript to `out`, and answers the exit status.
///
/// | status | cause | written to `err` |
/// |---|---|---|
/// | 0 | the run ended | nothing |
/// | 1 | a fault of the script | `line N: ` and what is wrong |
/// | 2 | the words aren't just `turns` or `threads` | the usage |
/// | 3 | want of memory | `out of memory` |
/// | 4 | a read or a write that failed | `input failed` or `output failed` |
///
/// The words are judged before anything is read. What `err` doesn't take is left out, and changes nothing.
pub fn program<H: Threads + Wait + Copy + Send + 'static, R: Read, W: Write, E: Write>(
    rt: &H,
    alloc: Global,
    words: &[&str],
    reader: &mut R,
    out: &mut W,
    err: &mut E,
) -> u8
    ensures statuses { result ≤ 4 }

    // Other words than the two modes' come to the usage, unless memory runs out before they are judged.
    ensures words { (result ≡ 2) ⊎ (result ≡ 3) ⊎ AreWords words.now }
    ensures usage { result ≡ 2 → ¬ AreWords words.now }
    ensures several { length words.now ≢ 1 → result ≡ 2 }
    ensures unread { result ≡ 2 → reader.new ≡ reader.old }

    ensures ran { result ≡ 0 → (mode : RunMode) × IsMode words.now mode
        × ShowsRun mode (R.remaining reader.old) (W.contents out.old) (W.contents out.new) }
    ensures faulty { result ≡ 1 → (mode : RunMode) × IsMode words.now mode
        × IfSome (R.remaining reader.old) (IsFaulty mode) }
    ensures nothing_shown { 0 < result → result < 4 → W.contents out.new ≡ W.contents out.old }

    // Nothing is told of a run that ended; and else the fault that there was.
    ensures silent { result ≡ 0 → err.new ≡ err.old }
    ensures told { 0 < result → (fault : Fault) × (status_of fault ≡ result)
        × ((mode : RunMode) → IsMode words.now mode
        → FailsBy fault mode (R.remaining reader.old) (W.contents out.old) (W.contents out.new))
        × AppendsSome (E.contents err.old) (E.contents err.new) (text_of fault) }
{
    match carry_out(rt, alloc, words, reader, out) {
        Ok(()) => 0,
        Err(fault) => {
            tell(fault, err);
            status_of(fault)
        }
    }
}

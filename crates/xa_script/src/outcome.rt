//! What a run shows once it is settled.
ghost use Rattle.std.specs.Prelude.{◌≡◌, List, OnOk, IsErrOf};
ghost use Rattle.script_transcript.specs.declared.answer.TranscriptLine.{TranscriptLine};
ghost use Rattle.script_transcript.specs.Text.{lines_text};
ghost use Rattle.laws_transcript.specs.ToldOpenings.{Former, ToldOpening};
ghost use Rattle.script_command.specs.declared.mode.RunMode.{RunMode};
ghost use Rattle.xa_script.specs.Outcome.{IsScriptRun, IsOutcome, Writes};

use script_grammar::Script;
use script_transcript::{RunFault, values_of, write_transcript};
use std::alloc::Global;
use std::io::Write;
use xa_switch::Settled;

/// Writes the transcript of a run whose answers have these lines, and that was settled so at last.
///
/// On `NoMemory` nothing is written; after `Write` the writer may have taken a part.
pub(crate) fn show<W: Write>(
    alloc: Global,
    script: &Script,
    lines: &[u8],
    settled: &Settled,
    writer: &mut W,
) -> Result<(), RunFault>
    requires { (answers : List TranscriptLine) × IsScriptRun script.now answers settled.now }
    ensures ok { OnOk result ((mode : RunMode) (answers : List TranscriptLine) (before : List Former)
        (last : ToldOpening)
        → lines.now ≡ lines_text answers → IsOutcome mode script.now answers before last
        → last.settled ≡ settled.now → Writes mode script.now (W.contents writer.old) (W.contents writer.new)) }
    ensures memory { IsErrOf result RunFault.NoMemory → W.contents writer.new ≡ W.contents writer.old }
{
    let values = values_of(alloc, script, settled)?;
    write_transcript(alloc, lines, &values, writer)
}

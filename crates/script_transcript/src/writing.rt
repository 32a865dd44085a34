//! Writing the transcript of a run.
ghost use Rattle.std.specs.Prelude.{◌≡◌, ◌++◌, OnOk, IfOk, IsErrOf};
ghost use Rattle.std.specs.Io.KnownBytes.{Appends};
ghost use Rattle.script_transcript.specs.Transcript.{value_text, values_text};

use crate::lines::Lines;
use crate::text::put_number;
use script_grammar::Declared;
use std::alloc::{AllocError, Global};
use std::io::Write;
use thiserror::Error;

/// Why a run shows nothing, or not all.
#[derive(Clone, Copy, Debug, PartialEq, Eq, Error)]
pub enum RunFault {
    #[error("out of memory")]
    NoMemory,
    #[error("output failed")]
    Write,
}

impl From<AllocError> for RunFault {
    ghost use Rattle.script_transcript.specs.declared.writing.RunFault.TheVariants.{NoMemory};

    ghost from_gives = { λ _ fault. fault ≡ NoMemory };

    fn from(_error: AllocError) -> RunFault {
        RunFault::NoMemory
    }
}

fn put_value(out: &mut Lines, value: &Declared) -> Result<(), AllocError>
    ensures line { OnOk result (out.new.line ≡ out.old.line ++ value_text value.now) }
    ensures whole { out.new.whole ≡ out.old.whole }
{
    out.extend(b"value ")?;
    put_number(out, value.manager)?;
    out.push(b' ')?;
    out.extend(value.key.as_bytes())?;
    out.push(b' ')?;
    put_number(out, value.value)?;
    out.push(b'\n')
}

// The lines of the values.
fn values_text(alloc: Global, values: &[Declared]) -> Result<Lines, AllocError>
    ensures { IfOk result (λ l. l.whole ≡ values_text values.now) }
{
    let mut text = Lines::with_capacity(alloc, 0)?;
    for value in values {
        put_value(&mut text, value)?;
    }
    text.end_line();
    Ok(text)
}

/// Writes the transcript: the lines of the answers, and then those of the values. Where memory runs out nothing is
/// written; after `Write` the writer may have taken a part.
pub fn write_transcript<W: Write>(
    alloc: Global,
    lines: &[u8],
    values: &[Declared],
    writer: &mut W,
) -> Result<(), RunFault>
    ensures ok { OnOk result
        (Appends (W.contents writer.old) (W.contents writer.new) (lines.now ++ values_text values.now)) }
    ensures memory { IsErrOf result RunFault.NoMemory
        → W.contents writer.new ≡ W.contents writer.old }
{
    let last = values_text(alloc, values)?;
    writer.write_all(lines).map_err(|_| RunFault::Write)?;
    writer.write_all(last.whole()).map_err(|_| RunFault::Write)
}

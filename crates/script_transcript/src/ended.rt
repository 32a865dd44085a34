//! The lines of what was outstanding after a thread's last line.
ghost use Rattle.std.specs.Prelude.{◌≡◌, ◌++◌, OnOk};
ghost use Rattle.script_transcript.specs.ThreadEnds.{end_line, all_ended};

use crate::answer::TranscriptLine;
use crate::transcript::Transcript;
use std::alloc::AllocError;
use xa_words::Code;

// The line of an operation by its handle and its code.
fn ended(thread: u32, handle: u32, code: Code) -> TranscriptLine
    ensures { result ≡ end_line thread (handle, code) }
{
    TranscriptLine::Ended {
        thread,
        handle,
        retval: code.value(),
    }
}

/// Tells what was outstanding at the end of a thread: the number of each handle with the code of its operation.
pub fn tell_ended(
    thread: u32,
    outstanding: &[(u32, Code)],
    transcript: &mut Transcript,
) -> Result<(), AllocError>
    ensures { OnOk result (transcript.new ≡ transcript.old ++ all_ended thread outstanding.now) }
{
    for &(handle, code) in outstanding {
        transcript.tell(ended(thread, handle, code))?;
    }
    Ok(())
}

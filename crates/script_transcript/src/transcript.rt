//! The lines that a script has told so far, as text.
ghost use Rattle.std.specs.Prelude.{◌≡◌, ◌++◌, ◌∷◌, [], IfOk, OnOk, OnErr};
ghost use Rattle.script_transcript.specs.Text.{lines_text};

use crate::answer::TranscriptLine;
use crate::lines::Lines;
use crate::text::put_line;
use http_server::Log;
use std::alloc::{AllocError, Global};
use std::marker::Model;

/// How many bytes most lines of a transcript have at most, as `100000 8 -106` and its line feed have.
pub const LINE: usize = 16;

/// What was told so far. Only its text is kept; contracts see the lines.
pub struct Transcript {
    text: Lines,
    // What the lines tell. They have no bytes: only proofs read them.
    told: Log<TranscriptLine, ()>,
}

// It is dropped by one call, wherever that is, and not part by part there.
impl Drop for Transcript {
    fn drop(self) {
        let Transcript { text: _, told: _ } = self;
    }
}

impl Model for Transcript {
    ghost use Rattle.std.specs.Prelude.{◌≡◌, List, [], map};
    ghost use Rattle.script_transcript.specs.declared.answer.TranscriptLine.{TranscriptLine};
    ghost use Rattle.script_transcript.specs.Text.{lines_text};

    ghost Value = { List TranscriptLine };

    ghost view = { λ t. map (λ x. x.0) t.told.items };

    ghost invariant = { λ t. (t.text.whole ≡ lines_text (map (λ x. x.0) t.told.items)) × (t.text.line ≡ []) };
}

impl Transcript {
    /// Nothing, with room for the text of so many lines, unless some are long.
    pub fn with_capacity(alloc: Global, lines: usize) -> Result<Transcript, AllocError>
        ensures { IfOk result (λ t. t ≡ []) }
    {
        Ok(Transcript {
            text: Lines::with_capacity(alloc, lines.saturating_mul(LINE))?,
            told: Log::new(),
        })
    }

    /// Tells one more line.
    pub fn tell(&mut self, told: TranscriptLine) -> Result<(), AllocError>
        ensures told { OnOk result (self.new ≡ self.old ++ told ∷ []) }
        ensures same { OnErr result (self.new ≡ self.old) }
    {
        let put = put_line(&mut self.text, &told);
        if put.is_ok() {
            self.text.end_line();
            self.told = self.told.and(&told, &());
        } else {
            self.text.drop_line();
        }
        put
    }

    /// The lines' bytes.
    pub fn text(&self) -> &[u8]
        ensures { result.now ≡ lines_text self.now }
    {
        self.text.whole()
    }
}

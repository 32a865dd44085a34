//! The bytes of whole lines, and of the line that is put together after them.
ghost use Rattle.std.specs.Prelude.{◌≡◌, ◌++◌, ◌∷◌, [], IfOk, OnOk};

use std::alloc::{AllocError, Global};
use std::marker::Model;

/// Whole lines, and after them what there is of the next. Where that can't be put together, for want of memory, it is
/// dropped, and the whole lines are as they were.
#[derive(Drop)]
pub(crate) struct Lines {
    bytes: Vec<u8>,
    // How many of the bytes are those of whole lines.
    whole: usize,
}

impl Model for Lines {
    ghost use Rattle.std.specs.Prelude.{◌≤◌, length, take, drop};
    ghost use Rattle.script_transcript.specs.Lines.{LinesView};

    ghost Value = { LinesView };

    ghost view = { λ l. record { whole = take l.whole l.bytes.items; line = drop l.whole l.bytes.items } };

    ghost invariant = { λ l. l.whole ≤ length l.bytes.items };
}

impl Lines {
    /// No line, with room for so many bytes.
    pub(crate) fn with_capacity(alloc: Global, bytes: usize) -> Result<Lines, AllocError>
        ensures whole { IfOk result (λ l. l.whole ≡ []) }
        ensures line { IfOk result (λ l. l.line ≡ []) }
    {
        Ok(Lines {
            bytes: Vec::with_capacity(alloc, bytes)?,
            whole: 0,
        })
    }

    /// Puts a byte to the line.
    #[inline(always)]
    pub(crate) fn push(&mut self, byte: u8) -> Result<(), AllocError>
        ensures line { OnOk result (self.new.line ≡ self.old.line ++ byte ∷ []) }
        ensures whole { self.new.whole ≡ self.old.whole }
    {
        self.bytes.push(byte)?;
        Ok(())
    }

    /// Puts bytes to the line.
    #[inline(always)]
    pub(crate) fn extend(&mut self, bytes: &[u8]) -> Result<(), AllocError>
        ensures line { OnOk result (self.new.line ≡ self.old.line ++ bytes.now) }
        ensures whole { self.new.whole ≡ self.old.whole }
    {
        self.bytes.extend_from_slice(bytes)
    }

    /// The line is whole.
    #[inline(always)]
    pub(crate) fn end_line(&mut self)
        ensures whole { self.new.whole ≡ self.old.whole ++ self.old.line }
        ensures line { self.new.line ≡ [] }
    {
        self.whole = self.bytes.len();
    }

    /// Drops what there is of the line.
    pub(crate) fn drop_line(&mut self)
        ensures whole { self.new.whole ≡ self.old.whole }
        ensures line { self.new.line ≡ [] }
    {
        self.bytes.truncate(self.whole);
    }

    /// The whole lines.
    pub(crate) fn whole(&self) -> &[u8]
        ensures { result.now ≡ self.now.whole }
    {
        &self.bytes[..self.whole]
    }
}

//! The lines of standard output. Each is written by one call, so that lines of several threads stay whole.

use crate::fault::Fault;
use std::alloc::{AllocError, Global};
use std::io::Write;
use xa_words::Tran;

/// What is told of a transaction.
#[derive(Clone, Copy, Debug, PartialEq, Eq)]
pub enum Event {
    /// Each store has heard that it is committed, or will by the log.
    Committed,
    /// Its record goes.
    Forgotten,
    /// Nobody knows whether the log has its record.
    Undecided,
}

impl Event {
    fn word(self) -> &'static str {
        match self {
            Event::Committed => "committed",
            Event::Forgotten => "forgotten",
            Event::Undecided => "undecided",
        }
    }
}

/// A transaction's gtrid in hex.
pub fn name_of(alloc: Global, tran: &Tran) -> Result<String, AllocError> {
    hex::encode(alloc, tran.gtrid())
}

/// Adds the line of an event to these: `committed 1 0000000100000040`.
pub fn add_event(
    alloc: Global,
    lines: &mut String,
    event: Event,
    teller: u32,
    tran: &Tran,
) -> Result<(), AllocError> {
    let name = name_of(alloc, tran)?;
    let word = event.word();
    let line = format!(in alloc; "{word} {teller} {name}\n")?;
    lines.push_str(&line)
}

/// Writes these lines at once.
pub fn write_lines<W: Write>(out: &mut W, lines: &String) -> Result<(), Fault> {
    if out.write_all(lines.as_bytes()).is_err() || out.flush().is_err() {
        return Err(Fault::Output);
    }
    Ok(())
}

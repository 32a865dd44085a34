//! What can be wrong with a script.
ghost use Rattle.std.specs.Prelude.{◌≡◌};
ghost use Rattle.script_grammar.specs.declared.fault.LineFault.TheVariants as line;
ghost use Rattle.script_grammar.specs.declared.fault.ScriptFault.TheVariants.{NoMemory};

use std::alloc::AllocError;
use std::fmt;
use thiserror::Error;

/// Why a line is refused. The numbers are those that the script's format gives its faults.
#[derive(Clone, Copy, Debug, PartialEq, Eq)]
pub enum Reason {
    LineTooLong = 1,
    BadByte = 2,
    TooManyLines = 3,
    UnknownWord = 4,
    MissingWord = 5,
    ExtraWord = 6,
    BadNumber = 7,
    OutOfRange = 8,
    BadKey = 9,
    BadXid = 10,
    SettingAfterAction = 11,
    SettingTwice = 12,
    KeyTwice = 13,
    TooManyKeys = 14,
    BadBranches = 15,
    TurnInThreadsMode = 16,
    ReopenInThreadsMode = 17,
}

impl Reason {
    ghost use Rattle.script_grammar.specs.Faults.{reason_text};

    /// What is wrong, in the words of the format.
    pub fn text(self) -> &'static str
        ensures { result.now ≡ reason_text self }
    {
        match self {
            Reason::LineTooLong => "line too long",
            Reason::BadByte => "bad byte",
            Reason::TooManyLines => "too many lines",
            Reason::UnknownWord => "unknown word",
            Reason::MissingWord => "missing word",
            Reason::ExtraWord => "extra word",
            Reason::BadNumber => "bad number",
            Reason::OutOfRange => "out of range",
            Reason::BadKey => "bad key",
            Reason::BadXid => "bad xid",
            Reason::SettingAfterAction => "setting after action",
            Reason::SettingTwice => "setting twice",
            Reason::KeyTwice => "key twice",
            Reason::TooManyKeys => "too many keys",
            Reason::BadBranches => "bad branches",
            Reason::TurnInThreadsMode => "turn in threads mode",
            Reason::ReopenInThreadsMode => "reopen in threads mode",
        }
    }
}

impl fmt::Display for Reason {
    ghost use Rattle.std.specs.Prelude.{Some};
    ghost use Rattle.script_grammar.specs.Faults.{reason_text};

    ghost output = { λ why. Some (reason_text why) };

    fn fmt<W: fmt::Write>(&self, f: &mut fmt::Formatter<W>) -> fmt::Result {
        f.write_str(self.text())
    }
}

impl std::error::Error for Reason {}

/// Why a line isn't taken.
#[derive(Clone, Copy)]
pub(crate) enum LineFault {
    /// What is wrong with it.
    Wrong(Reason),
    NoMemory,
}

impl From<Reason> for LineFault {
    ghost from_gives = { λ why fault. fault ≡ line.Wrong why };

    fn from(why: Reason) -> LineFault {
        LineFault::Wrong(why)
    }
}

impl From<AllocError> for LineFault {
    ghost from_gives = { λ _ fault. fault ≡ line.NoMemory };

    fn from(_error: AllocError) -> LineFault {
        LineFault::NoMemory
    }
}

/// Why there is no script.
#[derive(Clone, Copy, Debug, PartialEq, Eq, Error)]
pub enum ScriptFault {
    /// The first faulty line, counted from 1.
    #[error("line {line}: {why}")]
    Line { line: u32, why: Reason },
    #[error("input failed")]
    Read,
    #[error("out of memory")]
    NoMemory,
}

impl From<AllocError> for ScriptFault {
    ghost from_gives = { λ _ fault. fault ≡ NoMemory };

    fn from(_error: AllocError) -> ScriptFault {
        ScriptFault::NoMemory
    }
}

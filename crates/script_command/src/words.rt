//! The words after the program's name.
ghost use Rattle.std.specs.Prelude.{◌≡◌, ◌≢◌, length, Err, OnOk, IfOk, IsErrOf};
ghost use Rattle.script_command.specs.declared.words.WordsFault.TheVariants.{NoMemory, Usage};
ghost use Rattle.script_command.specs.Words.{AreWords, IsMode};

use crate::mode::RunMode;
use clap::error::ErrorKind;
use clap::{Arg, Command};
use std::alloc::{AllocError, Global};

/// Why the words name no mode.
#[derive(Clone, Copy, PartialEq, Eq)]
pub enum WordsFault {
    /// They aren't the one word of a mode.
    Usage,
    /// Memory ran out while they were judged.
    NoMemory,
}

impl From<AllocError> for WordsFault {
    ghost from_gives = { λ _ fault. fault ≡ NoMemory };

    fn from(_error: AllocError) -> WordsFault {
        WordsFault::NoMemory
    }
}

// Judges whether the words are the one word of a mode. A word that could be an option is judged before clap reads it.
fn judge(alloc: Global, words: &[&str]) -> Result<(), WordsFault>
    ensures ok { OnOk result (AreWords words.now) }
    ensures usage { IsErrOf result Usage → ¬ AreWords words.now }
    ensures several { length words.now ≢ 1 → result ≡ Err Usage }
{
    if words.len() != 1 || words[0].starts_with('-') {
        return Err(WordsFault::Usage);
    }
    let mode = Arg::new(alloc, "mode")
        .required(true)
        .value_parser(["turns", "threads"].as_slice());
    let command = Command::new(alloc, "xaswitch")
        .no_binary_name(true)
        .disable_help_flag(true)
        .arg(mode)?;
    match command.try_get_matches_from(words) {
        Ok(_matches) => Ok(()),
        Err(error) => {
            if error.kind() == ErrorKind::OutOfMemory {
                Err(WordsFault::NoMemory)
            } else {
                Err(WordsFault::Usage)
            }
        }
    }
}

// The mode that the words are the one word of.
fn named(words: &[&str]) -> RunMode
    requires { AreWords words.now }
    ensures { IsMode words.now result }
{
    if words[0] == "threads" {
        RunMode::Threads
    } else {
        RunMode::Turns
    }
}

/// The mode that the words name: they have to be one word, `turns` or `threads`.
pub fn mode_of(alloc: Global, words: &[&str]) -> Result<RunMode, WordsFault>
    ensures ok { IfOk result (IsMode words.now) }
    ensures usage { IsErrOf result Usage → ¬ AreWords words.now }
    ensures several { length words.now ≢ 1 → result ≡ Err Usage }
{
    judge(alloc, words)?;
    Ok(named(words))
}

//! The words of the command line: a folder, and perhaps how many days are to be kept; or `--help`.

use clap::error::ErrorKind;
use clap::{Arg, Command};
use std::alloc::{AllocError, Global};

const ABOUT: &str =
    "A bank whose decision logs are files: four tellers move money between three stores in memory.\n\
It first lists what was decided when the last run ended, and then tells of each commit: `committed TELLER NAME`.";

const AFTER: &str = "Statuses:
   0  all days are kept, or this was asked for
   2  the words aren't FOLDER [DAYS]
   3  memory or a thread was refused
   4  the folder or a file there can't be used: it isn't there, or the program may not open it
   5  a file of the folder is missing, damaged or no decision log: bring it back from a copy
   6  a log has lost a record, which may be there or not: start again, and what it has is listed
   7  the folder has had all its 2^26 days: take another
   8  the stores can't be opened or used
   9  another program has the folder: wait for its end
  10  the disk has no room
  11  the disk failed: start again once it is well
  12  all slots of a log are taken
  13  standard input, output or error is closed, or standard output takes no more

Example:
  mkdir bank; demo_accounts bank 2";

/// What the words order.
#[derive(Clone, Copy, Debug, PartialEq, Eq)]
pub enum Order<'a> {
    /// To keep days.
    Keep {
        /// Where the logs are.
        folder: &'a str,
        /// After how many days the program ends; without it it never does.
        days: Option<u32>,
    },
    /// To say what the program does.
    Help,
}

/// Why the words order nothing.
#[derive(Clone, Copy, Debug, PartialEq, Eq)]
pub enum OrderFault {
    /// They are no folder with perhaps a number, nor `--help`.
    Usage,
    /// Memory ran out while they were judged.
    NoMemory,
}

impl From<AllocError> for OrderFault {
    fn from(_error: AllocError) -> OrderFault {
        OrderFault::NoMemory
    }
}

// What clap judges words by, and makes the help of.
fn command<'a>(alloc: Global) -> Result<Command<'a>, AllocError> {
    let folder = Arg::new(alloc, "folder")
        .value_name("FOLDER")
        .required(true)
        .help("Where the logs are; they are made in a folder that is new");
    let days = Arg::new(alloc, "days").value_name("DAYS").help(
        "After how many days it ends, below 2^32; without it it never does",
    );
    Command::new(alloc, "demo_accounts")
        .no_binary_name(true)
        .about(ABOUT)
        .after_help(AFTER)
        .arg(folder)?
        .arg(days)
}

/// What `--help` prints.
pub fn help(alloc: Global) -> Result<String, AllocError> {
    let mut command = command(alloc)?;
    command.render_help()
}

// Judges how many words there are. A word that could be an option is judged before clap reads it.
fn judge(alloc: Global, words: &[&str]) -> Result<(), OrderFault> {
    if words.is_empty() || words.len() > 2 {
        return Err(OrderFault::Usage);
    }
    for word in words {
        if word.is_empty() || word.starts_with('-') {
            return Err(OrderFault::Usage);
        }
    }
    match command(alloc)?.try_get_matches_from(words) {
        Ok(_matches) => Ok(()),
        Err(error) => {
            if error.kind() == ErrorKind::OutOfMemory {
                Err(OrderFault::NoMemory)
            } else {
                Err(OrderFault::Usage)
            }
        }
    }
}

/// What the words order: a folder, which is no option, and perhaps a number of days below 2^32; or `--help`.
pub fn order_of<'a>(alloc: Global, words: &[&'a str]) -> Result<Order<'a>, OrderFault> {
    if let [word] = words
        && (*word == "--help" || *word == "-h")
    {
        return Ok(Order::Help);
    }
    judge(alloc, words)?;
    let Some(folder) = words.first() else {
        return Err(OrderFault::Usage);
    };
    let days = match words.get(1) {
        None => None,
        Some(word) => match word.parse::<u32>() {
            Ok(days) => Some(days),
            Err(_) => return Err(OrderFault::Usage),
        },
    };
    Ok(Order::Keep {
        folder: *folder,
        days,
    })
}

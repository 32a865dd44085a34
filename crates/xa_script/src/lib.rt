//! Scripts are run: in turns or in threads, over the desks and the workers of one opening, to a transcript.
//!
//! `run_turns` does all in one thread, `run_threads` gives each thread of the script and each manager a
//! thread of its own. `specs/Outcome.antt` says what a run comes to, `specs/InTurns.antt` and
//! `specs/InThreads.antt` how its threads and managers came to it in either way, and `program` is the whole
//! program over any reader and writers. What a script says, and how it is read, is script_grammar's; what a
//! thread does is script_session's, which bytes a transcript has is script_transcript's, and what it tells is
//! laws_transcript's.
#![tactic(auto)]

mod entry;
mod in_threads;
mod in_turns;
mod outcome;
mod plan;
mod script_thread;

pub use entry::program;
pub use in_threads::run_threads;
pub use in_turns::run_turns;
pub use script_grammar::{
    Action, Called, CommitAll, Declared, Gtrid, ManagerCall, Name, Reason, Script, ScriptFault,
    Step, Task, read_script,
};
pub use script_transcript::{Answer, RunFault, TranscriptLine};

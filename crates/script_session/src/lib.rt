//! One thread of a script: its desk, its decision log, and what its tasks answer.
//!
//! `carry_out` does what a task asks for over the thread's desk and its log, and gives its answer: one match from a
//! step to a call. `specs/ManagerCalls.antt` says what a call answers, `specs/Committing.antt` what a commit of several
//! branches does, and `specs/Sessions.antt` what a task does. What a script says, and how it is read, is
//! script_grammar's; how an answer is shown is script_transcript's.
#![tactic(auto)]

mod calls;
mod commits;
mod resolving;
mod session;

pub use calls::carry_out;
pub use session::{Session, log_of, sessions_again, sessions_of};

//! Jobs, each in a thread of its own, which are all done or none of them.
//!
//! Write what a thread does as a `Job`, and give all of them to `do_all`: it starts a thread for each before any job
//! begins, and the threads wait for one word. The word is go where all were started, and else stop: then each job comes
//! back as it was. `specs/Hands.antt` says what becomes of a job.
#![tactic(auto)]

mod hands;
mod job;
mod word;

pub use hands::do_all;
pub use job::Job;
pub use word::Go;

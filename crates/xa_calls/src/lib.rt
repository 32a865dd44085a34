//! The calls of XA over a thread's desk (C193, chapters 3 to 5).
//!
//! `xa_call` puts what a call asks for to a manager, and `native` a request outside XA (putting.rt).
//! `xa_complete` collects what was put asynchronously (completing.rt), and `xa_recover` lists what a reopening found
//! left (recovering.rt). Each answers a code of `xa.h`, or the first two a handle.
#![tactic(auto)]

mod completing;
pub mod laws;
mod putting;
mod recovering;

pub use completing::xa_complete;
pub use putting::{native, xa_call};
pub use recovering::xa_recover;
pub use xa_words::RmOp;

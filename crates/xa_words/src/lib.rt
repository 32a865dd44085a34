//! The words of the switch: names of transactions and keys, changes, codes, calls with their flags,
//! requests and completions, and the points of a commit at which its coordinator may die.
#![tactic(auto)]

mod code;
mod death;
mod flags;
mod key;
pub mod laws;
mod manager_set;
mod padded;
mod request;
mod tran;
mod xid;

pub use code::Code;
pub use death::Death;
pub use flags::{
    Call, Mode, TMASYNC, TMENDRSCAN, TMFAIL, TMJOIN, TMMULTIPLE, TMNOFLAGS, TMNOWAIT, TMONEPHASE,
    TMRESUME, TMSTARTRSCAN, TMSUCCESS, TMSUSPEND, TMUSEASYNC, check_flags,
};
pub use key::Key;
pub use manager_set::{ManagerSet, Managers};
pub use request::{Completion, Delta, EndHow, Op, Request, RmOp, StartHow};
pub use tran::Tran;
pub use xid::{Xid, XidFault};

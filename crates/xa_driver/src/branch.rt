//! Branches of a global transaction.
use xa_words::Xid;

/// A branch: the manager that it is at, and its name there.
#[derive(Clone, Copy, Debug)]
pub struct Branch {
    /// The manager, from 1.
    pub m: u32,
    /// The branch's name, with the gtrid of its global transaction.
    pub xid: Xid,
}

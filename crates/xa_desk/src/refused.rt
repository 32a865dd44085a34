//! Why a call of a desk did nothing.

/// Why a request wasn't sent: the first reason that holds, in this order.
#[derive(Clone, Copy, Debug, PartialEq, Eq)]
pub enum Refused {
    /// The desk has no manager of this number.
    NoSuchManager,
    /// The desk has collected `XAER_RMFAIL` from the manager.
    Shut,
    /// As many operations are outstanding as the thread has handles.
    TooMany,
    /// As many requests were sent to the manager as were planned.
    Spent,
    /// The lane to the manager is full.
    Full,
}

/// No operation that was asked for is kept.
#[derive(Clone, Copy, Debug, PartialEq, Eq)]
pub struct NothingOutstanding;

/// Why nothing was collected of what is kept.
#[derive(Clone, Copy, Debug, PartialEq, Eq)]
pub enum AnyFault {
    /// No operation that was asked for is kept.
    NothingOutstanding,
    /// None that was asked for has completed: `XA_RETRY`.
    Retry,
}

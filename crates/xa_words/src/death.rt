//! Points of a commit at which its coordinator may die.

/// The point of a commit at which its coordinator dies.
///
/// A round is sent whole before any of its answers is waited for, and these are collected in the order of the branches.
/// A coordinator that dies in one has collected so many answers, or all where there are fewer.
#[derive(Clone, Copy, Debug, PartialEq, Eq)]
pub enum Death {
    /// All branches were asked to prepare, and so many votes were collected.
    Preparing(u8),
    /// All branches have voted. Nothing is decided.
    Prepared,
    /// It is decided, and logged where that is wanted. No branch has heard of it.
    Decided,
    /// All branches that want the decision were told, and so many of their answers were collected.
    Telling(u8),
    /// All branches were told, and have answered. None was told to forget a decision of its own.
    Told,
}

//! What a thread does.
use crate::word::Go;
use std::sync::Wait;

/// What a thread does once, and comes to a `D` by.
pub trait Job<D>: Drop {
    /// Where it can be done.
    ghost can_run: { Self → Type 0 };

    /// What it may come to.
    ghost comes_to: { Self → D → Type 0 };

    /// Does it, where the word is go.
    fn run<R: Wait>(self, rt: &R, go: &Go<'_>) -> D
        requires { can_run self }
        ensures { comes_to self result };
}

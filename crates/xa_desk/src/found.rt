//! What a look for one completion finds.
use xa_words::Code;

/// What a take from the lane of completions found, as an operation is waited for.
#[derive(Clone, Copy)]
pub(crate) enum Found {
    /// Nothing stood there.
    Nothing,
    /// Something else than the operation's completion.
    Other,
    /// The operation's completion, with this code.
    Its(Code),
}

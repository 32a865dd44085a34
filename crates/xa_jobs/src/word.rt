//! The word that all threads of a run wait for.
ghost use Rattle.std.specs.Prelude.{IsTrue};

use crossbeam_utils::Backoff;
use std::alloc::{AllocError, Global};
use std::sync::{Arc, OnceLock, OnceToken, Wait};

/// What shows that a word is go. A word is given once, so there is none of a word that is stop.
#[derive(Drop)]
pub struct Go<'a> {
    token: OnceToken<'a, bool>,
    ghost go: { IsTrue token.value },
}

/// One word for many threads: go, so that each does its job, or stop.
#[derive(Drop)]
pub(crate) struct Word(Arc<OnceLock<bool>, Global>);

impl Word {
    /// One that wasn't given yet.
    pub(crate) fn new(alloc: Global) -> Result<Word, AllocError> {
        Ok(Word(Arc::new(alloc, OnceLock::new())?))
    }

    /// The same word, for a thread more. There is none where too many have it.
    pub(crate) fn share(&self) -> Option<Word> {
        Arc::try_clone(&self.0).ok().map(Word)
    }

    /// Gives it: go, or else stop. What was given before stays.
    pub(crate) fn give<R: Wait>(&self, rt: &R, go: bool) {
        let _ = self.0.set(rt, go);
    }

    /// Waits until it is given, and shows that it is go, where it is.
    pub(crate) fn wait<R: Wait>(&self, rt: &R) -> Option<Go<'_>> {
        let word: &OnceLock<bool> = &self.0;
        let backoff = Backoff::new();
        for _ in rt.forever() {
            if let Some(token) = word.witness() {
                let go = *word.value(&token);
                return if go { Some(Go { token }) } else { None };
            }
            backoff.snooze();
        }
        unreachable!()
    }
}

//! Requests to a manager, with the changes of values that they ask for, and its completions.
ghost use Rattle.std.specs.Prelude.{◌≡◌};
ghost use Rattle.xa_words.specs.Delta.{IsDelta, delta_of};

use crate::code::Code;
use crate::key::Key;
use crate::xid::Xid;
use std::fmt;
use std::marker::Model;
use xa_base::MOST_VALUE;

/// A change of a value, at most 1,000,000,000,000 up or down; 0 is a change too.
#[derive(Clone, Copy)]
pub struct Delta {
    // The amount's bytes, lowest first: so no list of requests has gaps that align it.
    amount: [u8; 8],
}

impl Model for Delta {
    ghost use Rattle.std.specs.Prelude.{ℤ};
    ghost use Rattle.std.specs.Int.{w64};
    ghost use Rattle.xa_words.specs.Delta.{IsDelta};
    ghost use Rattle.xa_words.specs.NumberBytes.{number_of, bytes_of_number, IsOfItsNumber};

    ghost Value = { ℤ };

    ghost view = { λ d. number_of w64 d.amount };

    ghost invariant = { λ d. IsDelta (number_of w64 d.amount) × IsOfItsNumber w64 d.amount };

    ghost inverse = { λ z. record { amount = bytes_of_number w64 z } };

    ghost inverse_ok = { λ d ok i. record { amount = ok.1.again i } };
}

impl Delta {
    const LIMIT: i64 = MOST_VALUE as i64;

    /// The change by this amount, `None` where it is beyond the limit.
    #[tactic(auto, unfolding(crate::specs::NumberBytes::number_of, crate::specs::NumberBytes::bytes_of_number))]
    pub fn new(amount: i64) -> Option<Delta>
        ensures { result ≡ delta_of amount }
    {
        if (-Self::LIMIT..=Self::LIMIT).contains(&amount) {
            Some(Delta {
                amount: amount.to_le_bytes(),
            })
        } else {
            None
        }
    }

    /// What is added to the value.
    #[tactic(auto, unfolding(crate::specs::NumberBytes::number_of))]
    pub fn amount(self) -> i64
        ensures value { result ≡ self }
        ensures within_limit { IsDelta result }
    {
        i64::from_le_bytes(self.amount)
    }
}

impl PartialEq for Delta {
    ghost use Rattle.std.specs.Cmp.{int_eq_equiv, partial_equiv_from_equiv};
    ghost use Rattle.std.specs.Ordering.{int_eq};

    ghost eq = { int_eq };

    ghost laws = { partial_equiv_from_equiv int_eq_equiv };

    fn eq(&self, other: &Delta) -> bool {
        self.amount() == other.amount()
    }
}

impl Eq for Delta {
    ghost use Rattle.std.specs.Cmp.{int_eq_equiv};

    ghost laws = { int_eq_equiv };
}

impl fmt::Debug for Delta {
    fn fmt<W: fmt::Write>(&self, f: &mut fmt::Formatter<W>) -> fmt::Result {
        f.debug_struct("Delta")
            .field("amount", &self.amount())
            .finish()
    }
}

/// How a thread starts work on a branch: the flags of `xa_start()` (C193, chapter 5).
#[derive(Clone, Copy, Debug, PartialEq, Eq)]
pub enum StartHow {
    /// The branch is new: neither `TMJOIN` nor `TMRESUME`.
    Fresh,
    /// `TMJOIN`: the branch exists, and the thread joins it.
    Join,
    /// `TMRESUME`: the thread goes on with the branch that it has suspended.
    Resume,
}

/// How a thread ends work on a branch: the flags of `xa_end()` (C193, chapter 5).
#[derive(Clone, Copy, Debug, PartialEq, Eq)]
pub enum EndHow {
    /// `TMSUCCESS`: the thread's part succeeded.
    Success,
    /// `TMSUSPEND`: the thread may resume later.
    Suspend,
    /// `TMFAIL`: the thread's part failed, so the branch can only be rolled back.
    Fail,
}

/// What a manager is asked to do. The calls named here are those of C193, chapter 5.
#[derive(Clone, Copy, Debug, PartialEq, Eq)]
pub enum Op {
    /// `xa_open()`: the thread opens the manager.
    OpenRm,
    /// `xa_close()`: the thread closes the manager.
    CloseRm,
    /// `xa_start()`: the thread starts work on the branch.
    Start(Xid, StartHow),
    /// Native, outside XA: the thread's branch adds to the key's value.
    Add(Key, Delta),
    /// `xa_end()`: the thread ends work on the branch.
    End(Xid, EndHow),
    /// `xa_prepare()`: the branch is to be made ready to commit.
    Prepare(Xid),
    /// `xa_commit()`: in one phase, `TMONEPHASE`, where true; else the branch is prepared.
    Commit(Xid, bool),
    /// `xa_rollback()`: the branch's work is to be undone.
    Rollback(Xid),
    /// `xa_forget()`: the heuristic decision on the branch is known, and is to be forgotten.
    Forget(Xid),
    /// Native, outside XA: the prepared branch is decided heuristically; it is committed where true, else rolled back.
    Heur(Xid, bool),
    /// What `xa_recover()` asks: whether the branch is prepared or heuristically completed; of no branch, whether the
    /// manager answers at all.
    Listed(Option<Xid>),
    /// Native, outside XA: the manager takes nothing from then on.
    Shut,
}

/// A request outside XA.
#[derive(Clone, Copy, Debug, PartialEq, Eq)]
pub enum RmOp {
    /// The thread's branch adds to the key's value.
    Add(Key, Delta),
    /// The prepared branch is decided heuristically; it is committed where true, else rolled back.
    Heur(Xid, bool),
    /// The manager takes nothing from then on.
    Shut,
}

/// One request to a manager.
#[derive(Clone, Copy, Debug, PartialEq, Eq)]
pub struct Request {
    /// The thread of control that asks, from 1.
    pub thread: u32,
    /// The thread's number for the request, by which the answer is told.
    pub number: u32,
    /// What is asked.
    pub op: Op,
}

/// The answer to one request.
#[derive(Clone, Copy, Debug, PartialEq, Eq)]
pub struct Completion {
    /// The manager that answers, from 1.
    pub manager: u32,
    /// The number that the thread of control gave the request.
    pub number: u32,
    /// The request's return code.
    pub code: Code,
}

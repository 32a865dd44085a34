//! Return codes.
ghost use Rattle.std.specs.Prelude.{◌≡◌};

/// What a manager or the switch answers: the return codes of xa.h.
#[derive(Clone, Copy, Debug, PartialEq, Eq)]
pub enum Code {
    /// `XA_OK`: done.
    Done,
    /// `XA_RDONLY`: the branch changed nothing, and is gone.
    RdOnly,
    /// `XA_RETRY`: nothing yet; call again.
    Retry,
    /// `XA_HEURMIX`: by a heuristic decision, partly committed and partly rolled back.
    HeurMix,
    /// `XA_HEURRB`: by a heuristic decision, rolled back.
    HeurRb,
    /// `XA_HEURCOM`: by a heuristic decision, committed.
    HeurCom,
    /// `XA_HEURHAZ`: perhaps completed by a heuristic decision.
    HeurHaz,
    /// `XA_RBROLLBACK`: rolled back, for no reason of the others.
    RbRollback,
    /// `XA_RBCOMMFAIL`: rolled back, since communication failed.
    RbCommFail,
    /// `XA_RBDEADLOCK`: rolled back, since a deadlock was found.
    RbDeadlock,
    /// `XA_RBINTEGRITY`: rolled back, since the changes would break the integrity of the data.
    RbIntegrity,
    /// `XA_RBOTHER`: rolled back, for a reason that has no code.
    RbOther,
    /// `XA_RBPROTO`: rolled back, after a protocol error within the manager.
    RbProto,
    /// `XA_RBTIMEOUT`: rolled back, since the branch took too long.
    RbTimeout,
    /// `XA_RBTRANSIENT`: rolled back, and may be tried again.
    RbTransient,
    /// `XAER_ASYNC`: no asynchronous call can be taken now.
    Async,
    /// `XAER_RMERR`: an error in the manager.
    RmErr,
    /// `XAER_NOTA`: the XID is not known.
    Nota,
    /// `XAER_INVAL`: an argument that isn't valid.
    Inval,
    /// `XAER_PROTO`: called in an improper context.
    Proto,
    /// `XAER_RMFAIL`: the manager is unavailable.
    RmFail,
    /// `XAER_DUPID`: the XID exists already.
    DupId,
    /// `XAER_OUTSIDE`: the manager is doing work outside a global transaction.
    Outside,
}

impl Code {
    ghost use Rattle.xa_words.specs.CodeNumbers.{number_of};

    /// The number of the code in xa.h.
    pub fn value(self) -> i32
        ensures { result ≡ number_of self }
    {
        match self {
            Code::Done => 0,
            Code::RdOnly => 3,
            Code::Retry => 4,
            Code::HeurMix => 5,
            Code::HeurRb => 6,
            Code::HeurCom => 7,
            Code::HeurHaz => 8,
            Code::RbRollback => 100,
            Code::RbCommFail => 101,
            Code::RbDeadlock => 102,
            Code::RbIntegrity => 103,
            Code::RbOther => 104,
            Code::RbProto => 105,
            Code::RbTimeout => 106,
            Code::RbTransient => 107,
            Code::Async => -2,
            Code::RmErr => -3,
            Code::Nota => -4,
            Code::Inval => -5,
            Code::Proto => -6,
            Code::RmFail => -7,
            Code::DupId => -8,
            Code::Outside => -9,
        }
    }
}

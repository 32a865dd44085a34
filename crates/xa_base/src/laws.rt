//! The limits as numbers, so that a definition which names one doesn't move with the code.
ghost use Rattle.std.specs.Prelude.{◌≡◌};
ghost use Rattle.xa_base.specs.declared.limits.TheConstants.{MOST_THREADS, MOST_MANAGERS, MOST_SENDERS};
ghost use Rattle.xa_base.specs.declared.limits.TheConstants.{MOST_HANDLES, MOST_QUEUED, MOST_REQUESTS};
ghost use Rattle.xa_base.specs.declared.limits.TheConstants.{MOST_JOURNALED, MOST_KEYS, MOST_VALUE};

/// The limits of an opening have these values.
pub fn limits_have_their_values()
    ensures threads { MOST_THREADS ≡ 8 }
    ensures managers { MOST_MANAGERS ≡ 8 }
    ensures senders { MOST_SENDERS ≡ 8 }
    ensures handles { MOST_HANDLES ≡ 32 }
    ensures queued { MOST_QUEUED ≡ 64 }
    ensures requests { MOST_REQUESTS ≡ 4096 }
    ensures journaled { MOST_JOURNALED ≡ 32768 }
    ensures keys { MOST_KEYS ≡ 256 }
    ensures value { MOST_VALUE ≡ 1000000000000 }
{}

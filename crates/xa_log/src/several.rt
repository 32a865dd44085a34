//! The records of several logs, read as one.
ghost use Rattle.std.specs.List.{All};
ghost use Rattle.std.specs.Prelude.{map};
ghost use Rattle.xa_log.specs.Log.{all_records};

use crate::log::DecisionRecords;
use xa_words::{ManagerSet, Tran};

/// So that a slice may be of logs that stand apart, each lent.
impl<L: DecisionRecords> DecisionRecords for &L {
    ghost records = { λ log. L.records log.now };

    ghost knows = { λ log. L.knows log.now };

    fn has(&self, tran: &Tran) -> Option<ManagerSet> {
        (**self).has(tran)
    }

    fn is_known(&self) -> bool {
        (**self).is_known()
    }
}

/// What several coordinators recorded, each in a log of its own. Where more than one log has a record of a transaction,
/// the first one's counts.
impl<L: DecisionRecords> DecisionRecords for &[L] {
    ghost records = { λ logs. all_records (map L.records logs.now) };

    ghost knows = { λ logs. All L.knows logs.now };

    fn has(&self, tran: &Tran) -> Option<ManagerSet> {
        for log in *self {
            let found = log.has(tran);
            if found.is_some() {
                return found;
            }
        }
        None
    }

    fn is_known(&self) -> bool {
        for log in *self {
            if !log.is_known() {
                return false;
            }
        }
        true
    }
}

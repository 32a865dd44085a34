//! Laws of logs.
ghost use Rattle.std.specs.List.{All};
ghost use Rattle.std.specs.Prelude.{◌≡◌, ◌≢◌, None, List, [], ◌∷◌};
ghost use Rattle.std.specs.Prelude.{◌++◌};
ghost use Rattle.xa_words.specs.Tran.{TranName};
ghost use Rattle.std.specs.Option.{option_or};
ghost use Rattle.xa_log.specs.Log.{LogState, Records, all_records, record_in, with_failure};

/// A failed append is always told: no count of failures is the last one.
pub fn failed_appends_are_told()
    ensures { (log : LogState) → with_failure log ≢ log }
{}

/// What several logs have that are read as one: of a transaction the record of the first, or else that of the others.
/// So where its own log alone may have a record of it, a resolve by all finds what one by that log would.
pub fn several_logs_are_read_as_one()
    ensures none { (tran : TranName) → record_in (all_records []) tran ≡ None }
    ensures more { (first : Records) (others : List Records) (tran : TranName)
        → record_in (all_records (first ∷ others)) tran
        ≡ option_or (record_in first tran) (record_in (all_records others) tran) }
    ensures own { (before after : List Records) (own : Records) (tran : TranName)
        → All (λ log. record_in log tran ≡ None) (before ++ after)
        → record_in (all_records (before ++ own ∷ after)) tran ≡ record_in own tran }
{}

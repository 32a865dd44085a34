//! Laws of the definitions.
ghost use Rattle.std.specs.Prelude.{◌≡◌, ◌<◌, ◌+◌, List, [], ◌∷◌, length, map, ℕ};
ghost use Rattle.xa_log.specs.declared.log.CommitRecord.{CommitRecord};
ghost use Rattle.xa_log_file.specs.declared.slot.LogSlot.{LogSlot};
ghost use Rattle.xa_log_file.specs.Appends.{HasWithAnyOf, HasWithOrWithout};
ghost use Rattle.xa_log_file.specs.Memory.{IsFull, forgotten_in, records_in, shut, used};
ghost use Rattle.xa_log_file.specs.Slots.{RecordTable, StandsFor};

/// A file stands for one table at most: so what is read of it is what was written.
#[tactic(auto, using(crate::proofs::Tables::one_table))]
pub fn a_file_has_one_table()
    ensures { (one other : RecordTable) (file : List ℕ) → StandsFor one file → StandsFor other file → one ≡ other }
{}

/// What `IsAppend` and `IsLoss` say of a single record: a crash leaves the records from before, with the new one or
/// without, and perhaps forgotten ones; and a log that has no room for one more is full.
#[tactic(auto, using(crate::proofs::Grouped::with_or_without, crate::proofs::Grouped::no_room_is_full))]
pub fn one_record_is_there_or_not()
    ensures left { (slots : List LogSlot) (r : CommitRecord) (file : List ℕ)
        → HasWithAnyOf (records_in slots) (forgotten_in slots) (r ∷ []) file → HasWithOrWithout slots r file }
    ensures full { (slots : List LogSlot) → length slots < used (map shut slots) + 1 → IsFull slots }
{}

//! Records into the log, all of them or none.
ghost use Rattle.std.specs.Prelude.{◌≡◌, ◌≢◌, ◌⊎◌, ◌↔◌, ◌+◌, ◌<◌, ◌≤◌, map, length, IsTrue, true, false};
ghost use Rattle.std.specs.Prelude.{OnOk, IsErrOf};
ghost use Rattle.std.specs.List.{All};
ghost use Rattle.xa_log.specs.Log.{AreNew, with_failure, with_records};
ghost use Rattle.xa_log.specs.declared.log.LogFault.TheVariants.{Refused, Unknown};
ghost use Rattle.xa_log_file.specs.declared.condition.Condition.TheVariants.{Ready, Lost};
ghost use Rattle.xa_log_file.specs.Appends.{IsAppend, IsLoss};
ghost use Rattle.xa_log_file.specs.Device.{LeavesOnly};
ghost use Rattle.xa_log_file.specs.RecordBytes.{IsValid};
ghost use Rattle.xa_log_file.specs.Memory.{HasNoName, HasFreeSlots, MayShow, state_of_slots, shut, used};

use crate::condition::Condition;
use crate::device::Device;
use crate::file_log::FileLog;
use crate::spelling::is_valid;
use crate::writing::write_records;
use xa_log::{CommitRecord, LogFault};

// Whether a file can have all of these records.
fn are_valid(decisions: &[CommitRecord]) -> bool
    ensures { IsTrue result ↔ All IsValid decisions.now }
{
    for decision in decisions {
        if !is_valid(decision) {
            return false;
        }
    }
    true
}

impl<D: Device> FileLog<D> {
    // Whether the log takes all records: then there are free slots for them.
    fn makes_room_for(&mut self, decisions: &[CommitRecord]) -> bool
        requires known { self.old.condition ≢ Lost }
        requires new { AreNew (state_of_slots self.old.table.slots.items self.old.failures) decisions.now }
        ensures ready { result ≡ true → self.new.condition ≡ Ready }
        ensures valid { result ≡ true → All IsValid decisions.now }
        ensures unnamed { result ≡ true → All (λ r. HasNoName self.new.table.slots.items r.tran) decisions.now }
        ensures room { result ≡ true → HasFreeSlots self.new.table.slots.items (length decisions.now) }
        ensures cause { result ≡ false → (self.old.condition ≢ Ready)
            ⊎ ((length self.old.table.slots.items < used (map shut self.old.table.slots.items) + length decisions.now)
            ⊎ ((D.faults self.old.device < D.faults self.new.device) ⊎ (All IsValid decisions.now → ⊥))) }
        ensures known { self.new.condition ≢ Lost }
        ensures goes_on { (self.new.condition ≡ self.old.condition)
            ⊎ ((result ≡ false) × (D.faults self.old.device < D.faults self.new.device)) }
        ensures slots { (self.new.table.slots.items ≡ self.old.table.slots.items)
            ⊎ (self.new.table.slots.items ≡ map shut self.old.table.slots.items) }
        ensures failures { self.new.failures ≡ self.old.failures }
        ensures faults { D.faults self.old.device ≤ D.faults self.new.device }
        ensures any_moment { LeavesOnly D.moment D.left_since self.old.device self.new.device
            (MayShow self.old.table.slots.items) }
    {
        if self.condition != Condition::Ready || !are_valid(decisions) {
            return false;
        }
        if self.table.has_room_for(decisions) {
            return true;
        }
        if !self.shut_forgotten() {
            return false;
        }
        self.table.has_room_for(decisions)
    }

    // Records these, all of them or none: what every append is.
    pub(crate) fn record_all(&mut self, decisions: &[CommitRecord]) -> Result<(), LogFault>
        requires known { self.old.condition ≢ Lost }
        requires new { AreNew (state_of_slots self.old.table.slots.items self.old.failures) decisions.now }
        ensures appended { OnOk result ((state_of_slots self.new.table.slots.items self.new.failures
            ≡ with_records (state_of_slots self.old.table.slots.items self.old.failures) decisions.now)
            × (self.new.condition ≢ Lost)
            × IsAppend (record { moment = D.moment; left_since = D.left_since; faults = D.faults }) decisions.now true
            (record { condition = self.old.condition; slots = self.old.table.slots.items; device = self.old.device })
            (record { condition = self.new.condition; slots = self.new.table.slots.items; device = self.new.device })) }
        ensures refused { IsErrOf result Refused → (state_of_slots self.new.table.slots.items self.new.failures
            ≡ with_failure (state_of_slots self.old.table.slots.items self.old.failures))
            × (self.new.condition ≢ Lost)
            × IsAppend (record { moment = D.moment; left_since = D.left_since; faults = D.faults }) decisions.now false
            (record { condition = self.old.condition; slots = self.old.table.slots.items; device = self.old.device })
            (record { condition = self.new.condition; slots = self.new.table.slots.items; device = self.new.device }) }
        ensures unknown { IsErrOf result Unknown → (self.new.condition ≢ Lost → ⊥)
            × IsLoss (record { moment = D.moment; left_since = D.left_since; faults = D.faults }) decisions.now
            (record { condition = self.old.condition; slots = self.old.table.slots.items; device = self.old.device })
            (record { condition = self.new.condition; slots = self.new.table.slots.items; device = self.new.device }) }
    {
        if decisions.is_empty() {
            return Ok(());
        }
        if !self.makes_room_for(decisions) {
            self.failures = self.failures.wrapping_add(1);
            return Err(LogFault::Refused);
        }
        let first = self.table.first();
        match write_records(&mut self.device, &self.table.slots, first, decisions) {
            Ok(()) => {
                self.table.take_all(decisions);
                Ok(())
            }
            Err(LogFault::Refused) => {
                self.condition = Condition::Halted;
                self.failures = self.failures.wrapping_add(1);
                Err(LogFault::Refused)
            }
            Err(LogFault::Unknown) => {
                self.condition = Condition::Lost;
                Err(LogFault::Unknown)
            }
        }
    }
}

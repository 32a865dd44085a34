//! What the log has of a slot.

use xa_log::CommitRecord;

/// What the log has of a slot.
#[derive(Clone, Copy, Debug)]
pub enum LogSlot {
    /// Its gate is shut.
    Free,
    /// It has a record.
    Taken(CommitRecord),
    /// Its record is forgotten; on the disk its gate may be open still.
    Forgotten(CommitRecord),
}

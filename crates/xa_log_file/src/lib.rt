//! A decision log on a disk: records in the slots of a file.
//!
//! A log is a map from transactions to the managers that voted yes, so its order means nothing. The file is a table of
//! slots, and no journal:
//!
//! ```text
//! head  18 bytes: "xa decisions 1", and the number of slots in 4, high byte first
//! slot  94 bytes: a gate (0 is shut, 255 open), and a body of 93
//! body  the format in 4 bytes, the length of the gtrid in 1, the gtrid and zeros in 64, a byte for each of 8 managers,
//!       and the MD5 of these 77 in 16, against rot
//! ```
//!
//! A slot counts where its gate is open. An append writes the body into a slot whose gate is shut, syncs, opens the
//! gate, and syncs. So a crash leaves the records from before with the new one or without, and until the gate is
//! written every failure is a refusal. A file keeps its length, so an append needs no room on the disk; a log whose
//! slots are all taken refuses.
//!
//! An append of several records writes all bodies, syncs, opens all gates, and syncs: a crash leaves any of them, each
//! whole.
//!
//! Forgetting is of the memory alone, so a crash may bring a forgotten record back. Where no slot is free, or a record
//! of a forgotten transaction is appended, the gates of all forgotten records are shut first: a byte each, and one
//! sync. A forgotten record does no harm if its name isn't used again. If it is, its gate is shut at the next append of
//! that name, and not as its branches are prepared: a crash between the two brings the old record back, and a resolve
//! then commits what is prepared. `FileLog::shut_forgotten` shuts these gates at once, as at a clean end.
//!
//! `create` makes a log in an empty file; `open` reads one, and writes nothing. Both take a `Device`, whose contract
//! says what a crash may leave. `Mirrored` is one over any `LogBacking`, and `LogHostFile` is a file of the operating
//! system.
//! `Mirrored::new` judges the size before it reads, and the head before it writes: no other file is touched.
//!
//! That a file is given the bytes of its device, and that the disk is asked to keep them at each sync, is proved
//! (`Mirrored`). Trusted and not proved is of the file, its file system and its disk:
//!
//! * that `LogHostFile` notes its calls as they were: what was read, rewritten, written, and synced (`Notes`);
//! * that a sync which succeeded keeps what was written before it, and the length of the file with it;
//! * that a crash leaves the bytes beside a write that it tore: slots aren't aligned to sectors, so a disk that loses
//!   a whole sector as it writes a part of it may lose the records beside;
//! * that a byte which is written alone is there or not, as a gate is;
//! * that bytes which are written once more, as a log is opened, stay through a crash where they are on the disk, and
//! that a sync then keeps all that was read (`LogBacking::rewrite`). Until that sync a crash may leave what the disk
//! has in place of what was read; no record was told by then;
//! * that a sync of the folder keeps the name of a new log;
//! * that the lock is held against each other process: it is advisory, so only one that asks for it is refused;
//! * that no sector turns to zeros: a gate of 0 is a free slot, so records in a sector of zeros are hidden, and no
//!   digest shows it.
#![tactic(auto)]

mod condition;
mod creating;
mod device;
mod file_log;
mod folder;
mod host;
pub mod laws;
mod layout;
mod mirrored;
mod notes;
mod opening;
mod recording;
mod shutting;
mod slot;
mod slot_table;
mod spelling;
mod synced;
mod writing;

pub use condition::Condition;
pub use creating::{CreateFault, create};
pub use device::{Device, LogDeviceFault, LogReadFault};
pub use file_log::FileLog;
pub use folder::{DiskLog, FolderFault, LogFolder};
pub use host::LogHostFile;
pub use mirrored::{DeviceCall, LogBacking, Mirrored};
pub use opening::{LogOpenFault, open};
pub use slot::LogSlot;

//! A disk for SQLite's files that passes on what is written, and answers reads from a copy.
//!
//! The kit's disk for real files (`sqlite_std_file`) says of what a file held that it agrees with a type, and all files
//! that are opened under that type share it; several stores in one list have one type, so that two files which held
//! different bytes can't both agree with it. Here what a file held is what was read of it as it was opened, and it is
//! read no more. So no answer of the file can be false: `WriteThrough` meets the kit's `Disk`, is always clean, and
//! nothing is said under a premise, for any number of files. A `HostFile` reads and writes by the kit's disk, and no
//! clause on its values is used.
//!
//! That the file is given the bytes of its disk, and is asked to keep them at each sync, is proved (`Backing`). Once a
//! write, a change of the length or a sync has failed, nobody knows what the file has, and each later one fails.
//!
//! Trusted and not proved is of the file, its file system and its disk:
//!
//! * that `HostFile` notes its calls as they were: what was read, rewritten, written, cut, and synced (`Notes`);
//! * that a sync which succeeded keeps what was written before it, and the length of the file with it;
//! * that a crash leaves the bytes beside a write that it tore, as `sqlite_disk::Disk` says;
//! * that bytes which are written once more, as a file is opened, stay through a crash where they are on the disk, and
//!   that a sync then keeps all that was read (`Backing::rewrite`);
//! * that the kit opens the files at the path's names, the log for the log, and syncs their folder, and that such a
//!   sync keeps the names;
//! * that the lock is held against each other process: it is SQLite's, and advisory, so only one that asks is refused.
#![tactic(auto)]

mod backing;
mod host;
mod notes;
mod opening;
mod tape;
mod write_through;

pub use backing::{Backing, DeviceFault, ReadFault};
pub use host::{FileFault, HostFile};
pub use opening::{DiskFiles, open_files};
pub use tape::{Tape, Tear};
pub use write_through::{DiskOpenFault, WriteThrough};

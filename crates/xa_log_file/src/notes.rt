//! What was read of a file and written to it, which only proofs read.
ghost use Rattle.std.specs.Prelude.{◌≡◌};
ghost use Rattle.xa_log_file.specs.Device.{log_overwritten};
ghost use Rattle.xa_log_file.specs.FileNotes.{log_found_by, log_given_by, log_kept_by, log_part, log_told_by};

use http_server::Log;

/// A call of a file that succeeded.
#[derive(Clone, Copy, Debug)]
pub(crate) enum FileCall {
    /// All the bytes.
    Read,
    /// All the bytes that were read.
    Rewrote,
    /// At this offset, so many bytes, which are those of the copy there.
    Wrote(usize, usize),
}

/// The calls of a file that succeeded, which take no memory.
#[derive(Drop)]
pub(crate) struct Notes {
    // Each call, with the bytes that were read, or the copy that was written from.
    pub(crate) calls: Log<FileCall, Vec<u8>>,
    // Each size that was told.
    pub(crate) sizes: Log<(), u64>,
    // At each sync the calls up to it.
    pub(crate) syncs: Log<(), Log<FileCall, Vec<u8>>>,
}

impl Notes {
    /// Nothing was told, read, written or synced yet.
    pub(crate) fn new() -> Notes {
        Notes {
            calls: Log::new(),
            sizes: Log::new(),
            syncs: Log::new(),
        }
    }

    /// The file has so many bytes.
    pub(crate) fn add_size(&mut self, size: u64)
        ensures told { log_told_by self.new.sizes.items ≡ size }
        ensures calls { self.new.calls ≡ self.old.calls }
        ensures syncs { self.new.syncs ≡ self.old.syncs }
    {
        self.sizes = self.sizes.and(&(), &size);
    }

    /// A read, which returned these bytes.
    pub(crate) fn add_read(&mut self, bytes: &Vec<u8>)
        ensures found { log_found_by self.new.calls.items ≡ bytes.now.items }
        ensures given { log_given_by self.new.calls.items ≡ log_given_by self.old.calls.items }
        ensures sizes { self.new.sizes ≡ self.old.sizes }
    {
        self.calls = self.calls.and(&FileCall::Read, bytes);
    }

    /// These bytes were written once more.
    pub(crate) fn add_rewrite(&mut self, bytes: &Vec<u8>)
        ensures given { log_given_by self.new.calls.items ≡ bytes.now.items }
        ensures kept { log_kept_by self.new.syncs.items ≡ log_kept_by self.old.syncs.items }
    {
        self.calls = self.calls.and(&FileCall::Rewrote, bytes);
    }

    /// The part of the copy at this offset, of so many bytes, was written at its place.
    pub(crate) fn add_write(&mut self, copy: &Vec<u8>, at: usize, len: usize)
        ensures given { log_given_by self.new.calls.items
            ≡ log_overwritten (log_given_by self.old.calls.items) at (log_part at len copy.now.items) }
        ensures kept { log_kept_by self.new.syncs.items ≡ log_kept_by self.old.syncs.items }
    {
        self.calls = self.calls.and(&FileCall::Wrote(at, len), copy);
    }

    /// The disk keeps all that was written.
    pub(crate) fn add_sync(&mut self)
        ensures given { log_given_by self.new.calls.items ≡ log_given_by self.old.calls.items }
        ensures kept { log_kept_by self.new.syncs.items ≡ log_given_by self.old.calls.items }
    {
        self.syncs = self.syncs.and(&(), &self.calls);
    }
}

//! A device over any file: its model is what was written, and the calls that were made.
ghost use Rattle.std.specs.Prelude.{◌≡◌, ◌⊎◌, ◌≤◌, ◌+◌, ℕ, List, true, length, IfOk, IfErr, IfNone, IfSome, OnOk};
ghost use Rattle.xa_log_file.specs.Device.{Only, log_overwritten};
ghost use Rattle.xa_log_file.specs.DeviceHistories.{leaves, writing, LeftSince, failures, last_synced};
ghost use Rattle.xa_log_file.specs.FileNotes.{log_part};
ghost use Rattle.xa_log_file.specs.Slots.{IsNoLog, IsNoLogSize, MayBeLog};
ghost use Rattle.xa_log_file.specs.declared.opening.LogOpenFault.TheVariants.{NotALog};
ghost use Rattle.std.proofs.Props.{props};
ghost use Rattle.xa_log_file.specs.HistoryLaws.{now_is_since, only_the_last};

use crate::device::{Device, LogDeviceFault, LogReadFault};
use crate::layout::{HEAD, LARGEST, SLOT};
use crate::opening::{LogOpenFault, may_be_log};
use http_server::Log;
use std::alloc::{AllocError, Global};

/// What is asked of a file: the clauses say what it is given, and what the disk is asked to keep.
///
/// That the disk does keep it is trusted, and what a crash leaves of a call that hasn't ended: `rewrite` says what of
/// its own, and `Device` what of the others.
pub trait LogBacking {
    /// How many bytes it has, as it was told last.
    ghost told: { Self → ℕ };

    /// The bytes that were read of it last.
    ghost found: { Self → List ℕ };

    /// The bytes that it was given, all of them: what was rewritten, and written over that.
    ghost given: { Self → List ℕ };

    /// The bytes that the disk was last asked to keep, and answered that it does.
    ghost kept: { Self → List ℕ };

    /// How many bytes it has.
    fn size(&mut self) -> Result<u64, LogDeviceFault>
        ensures told { IfOk result (λ n. n ≡ told self.new) }
        ensures given { given self.new ≡ given self.old };

    /// All the bytes, which are so many.
    fn read_all(&mut self, alloc: Global, len: usize) -> Result<Vec<u8>, LogReadFault>
        requires few { len ≤ 6160402 }
        requires told { len ≡ told self.old }
        ensures found { IfOk result (λ v. v.items ≡ found self.new) }
        ensures given { given self.new ≡ given self.old }
        ensures told { told self.new ≡ told self.old };

    /// Writes the bytes that were read once more, each with the value that it has.
    ///
    /// An earlier process may have written bytes that it failed to sync, and the kernel may then return them while the
    /// disk has others: a sync alone wouldn't write them. Trusted of it: a crash leaves each byte as it was on the disk
    /// or as it was read, so one that is the same in both stays; and a sync after it keeps all that was read.
    fn rewrite(&mut self, bytes: &Vec<u8>) -> Result<(), LogDeviceFault>
        requires { bytes.now.items ≡ found self.old }
        ensures { OnOk result (given self.new ≡ bytes.now.items) };

    /// Writes the part of the copy at this offset, of so many bytes, at its place in the file.
    fn write_part(&mut self, copy: &Vec<u8>, at: usize, len: usize) -> Result<(), LogDeviceFault>
        requires within { at + len ≤ length copy.now.items }
        requires at { at ≤ length (given self.old) }
        ensures given { OnOk result (given self.new
            ≡ log_overwritten (given self.old) at (log_part at len copy.now.items)) }
        ensures kept { OnOk result (kept self.new ≡ kept self.old) };

    /// Has the disk keep all that was written.
    fn sync_all(&mut self) -> Result<(), LogDeviceFault>
        ensures given { OnOk result (given self.new ≡ given self.old) }
        ensures kept { OnOk result (kept self.new ≡ given self.old) };
}

/// A call that was made, and whether it succeeded.
#[derive(Clone, Copy, Debug)]
pub enum DeviceCall {
    /// At this offset, so many bytes.
    Wrote(usize, usize, bool),
    /// At this offset, this byte alone.
    WroteByte(usize, u8, bool),
    Synced(bool),
}

/// A device over a file that is empty or begins as a log. It keeps what the file has, by what was read as it was opened
/// and written since, and answers reads from that. Until a call fails, the file was given just these bytes, and was
/// asked to keep those of the last sync that succeeded.
#[derive(Drop)]
pub struct Mirrored<F: LogBacking> {
    file: F,
    bytes: Vec<u8>,
    // No write or sync has failed. After one has, what was written may be lost with no further error.
    is_usable: bool,
    // Each call with the bytes after it: only proofs read it.
    past: Log<DeviceCall, Vec<u8>>,
    ghost given: { is_usable ≡ true → F.given file ≡ bytes.items } by { Prim.hlevel props },
    ghost kept: { is_usable ≡ true → F.kept file ≡ last_synced past.items } by { Prim.hlevel props },
    ghost usable: { is_usable ≡ true → failures past.items ≡ 0 } by { Prim.hlevel props },
}

// Puts the bytes in the place of those that are there, and past the end.
fn overwrite(file: &mut Vec<u8>, at: usize, bytes: &[u8]) -> Result<(), AllocError>
    requires { at ≤ length file.old.items }
    ensures { OnOk result (file.new.items ≡ log_overwritten file.old.items at bytes.now) }
{
    let end = at.checked_add(bytes.len()).ok_or(AllocError)?;
    if end > file.len() {
        file.resize(end, 0)?;
    }
    file[at..end].copy_from_slice(bytes);
    Ok(())
}

// The call that wrote these bytes.
fn call_of(at: usize, bytes: &[u8], ok: bool) -> DeviceCall
    ensures { result ≡ writing at bytes.now ok }
{
    match bytes {
        [byte] => DeviceCall::WroteByte(at, *byte, ok),
        _ => DeviceCall::Wrote(at, bytes.len(), ok),
    }
}

// Writes to the copy and to the file. Whether both succeeded.
fn write_both<F: LogBacking>(
    file: &mut F,
    copy: &mut Vec<u8>,
    is_usable: bool,
    at: usize,
    bytes: &[u8],
) -> bool
    requires at { at ≤ length copy.old.items }
    requires given { is_usable ≡ true → F.given file.old ≡ copy.old.items }
    ensures written { result ≡ true → copy.new.items ≡ log_overwritten copy.old.items at bytes.now }
    ensures given { result ≡ true → F.given file.new ≡ copy.new.items }
    ensures kept { result ≡ true → F.kept file.new ≡ F.kept file.old }
    ensures usable { result ≡ true → is_usable ≡ true }
{
    is_usable
        && overwrite(copy, at, bytes).is_ok()
        && file.write_part(copy, at, bytes.len()).is_ok()
}

// Whether all that was written is on the disk.
fn sync_file<F: LogBacking>(file: &mut F, is_usable: bool) -> bool
    ensures given { result ≡ true → F.given file.new ≡ F.given file.old }
    ensures kept { result ≡ true → F.kept file.new ≡ F.given file.old }
    ensures usable { result ≡ true → is_usable ≡ true }
{
    is_usable && file.sync_all().is_ok()
}

// The size as a length, where it is none or that of a log.
fn length_of(size: u64) -> Option<usize>
    ensures same { IfSome result (λ len. len ≡ size) }
    ensures few { IfSome result (λ len. len ≤ 6160402) }
    ensures none { IfNone result (IsNoLogSize size) }
{
    if size > LARGEST as u64 {
        return None;
    }
    let len = size as usize;
    if len == 0 || (len >= HEAD && (len - HEAD) % SLOT == 0) {
        Some(len)
    } else {
        None
    }
}

// The bytes of a file that is empty or begins as a log, which are written once more and synced. To any other nothing is
// written, and where its size is another nothing is read.
fn kept_bytes<F: LogBacking>(alloc: Global, file: &mut F) -> Result<Vec<u8>, LogOpenFault>
    ensures log { IfOk result (λ v. MayBeLog v.items) }
    ensures given { IfOk result (λ v. F.given file.new ≡ v.items) }
    ensures kept { IfOk result (λ v. F.kept file.new ≡ v.items) }
    ensures refused { IfErr result (λ fault. fault ≡ NotALog
        → IsNoLogSize (F.told file.new) ⊎ IsNoLog (F.found file.new)) }
    ensures untouched { IfErr result (λ fault. fault ≡ NotALog → F.given file.new ≡ F.given file.old) }
{
    let Some(len) = length_of(file.size()?) else {
        return Err(LogOpenFault::NotALog);
    };
    let bytes = file.read_all(alloc, len)?;
    if !may_be_log(&bytes) {
        return Err(LogOpenFault::NotALog);
    }
    file.rewrite(&bytes)?;
    file.sync_all()?;
    Ok(bytes)
}

impl<F: LogBacking> Mirrored<F> {
    /// A device over a file that is empty or begins as a log. What is read of it is written once more, and synced
    /// (`LogBacking::rewrite`). Another file is `NotALog`, and nothing is written to it; nor is it read where its size
    /// is another. An `Err` hands the file back.
    pub fn new(alloc: Global, mut file: F) -> Result<Mirrored<F>, (LogOpenFault, F)>
        ensures durable { IfOk result (λ m. Only m.bytes.items (leaves m.past.items)) }
        ensures log { IfOk result (λ m. MayBeLog m.bytes.items) }
        ensures refused { IfErr result (λ e. e.0 ≡ NotALog
            → IsNoLogSize (F.told e.1) ⊎ IsNoLog (F.found e.1)) }
        ensures untouched { IfErr result (λ e. e.0 ≡ NotALog → F.given e.1 ≡ F.given file) }
    {
        match kept_bytes(alloc, &mut file) {
            Ok(bytes) => {
                let past = Log::new().and(&DeviceCall::Synced(true), &bytes);
                Ok(Mirrored {
                    file,
                    bytes,
                    is_usable: true,
                    past,
                })
            }
            Err(fault) => Err((fault, file)),
        }
    }

    /// The file.
    pub fn into_file(self) -> F
        ensures { result ≡ self.file }
    {
        let Mirrored {
            file,
            bytes: _,
            is_usable: _,
            past: _,
        } = self;
        file
    }
}

impl<F: LogBacking> Device for Mirrored<F> {
    ghost seen = { λ m. m.bytes.items };

    ghost may_leave = { λ m. leaves m.past.items };

    ghost moment = { λ m. length m.past.items };

    ghost left_since = { λ m t c. LeftSince m.past.items t c };

    ghost faults = { λ m. failures m.past.items };

    ghost counts_now = { λ m t c le now. now_is_since m.past.items t c le now };

    ghost only_now = { λ m c left. only_the_last m.past.items c left };

    fn read(&mut self, alloc: Global) -> Result<Vec<u8>, LogReadFault> {
        Ok(self.bytes.to_vec(alloc)?)
    }

    fn write_at(&mut self, at: usize, bytes: &[u8]) -> Result<(), LogDeviceFault> {
        let ok = write_both(&mut self.file, &mut self.bytes, self.is_usable, at, bytes);
        self.is_usable = ok;
        self.past = self.past.and(&call_of(at, bytes, ok), &self.bytes);
        if ok { Ok(()) } else { Err(LogDeviceFault) }
    }

    fn sync(&mut self) -> Result<(), LogDeviceFault> {
        let ok = sync_file(&mut self.file, self.is_usable);
        self.is_usable = ok;
        self.past = self.past.and(&DeviceCall::Synced(ok), &self.bytes);
        if ok { Ok(()) } else { Err(LogDeviceFault) }
    }
}

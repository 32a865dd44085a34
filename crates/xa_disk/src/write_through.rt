//! A disk over any file.
ghost use Rattle.std.specs.Prelude.{◌≡◌, ◌⊎◌, ◌≤◌, ◌<◌, ◌+◌, ◌∷◌, ℕ, [], false, true, min, refl, take, drop, length};
ghost use Rattle.std.specs.Prelude.{is_ok, IfErr, IfOk, IsTrue, MatchBool, OnOk};
ghost use Rattle.std.proofs.Common.{inl};
ghost use Rattle.std.proofs.Props.{props};
ghost use Rattle.sqlite_disk.specs.Disk.{CountsFault, Cut, Holds, MoreFaults, Only, Torn};
ghost use Rattle.sqlite_disk.specs.History.{MayLeave, step_from, steps_of};
ghost use Rattle.sqlite_disk.specs.Refusal.{finds_no_room};
ghost use Rattle.xa_disk.specs.{overwritten, part, remembered, resized};
ghost use Rattle.xa_disk.specs.declared.backing.DeviceFault.TheVariants as device;
ghost use Rattle.xa_disk.specs.declared.write_through.DiskOpenFault.TheVariants.{Failed, Memory, TooLarge};

use crate::backing::{Backing, DeviceFault, ReadFault};
use http_server::Log;
use sqlite_disk::{Disk, Tally};
use std::alloc::{AllocError, Global};
use std::io;

/// Why there is no disk over a file.
#[derive(Clone, Copy, Debug, PartialEq, Eq)]
pub enum DiskOpenFault {
    /// There was no memory.
    Memory,
    /// The file has more bytes than may be read. It is left as it was.
    TooLarge,
    /// It can't be read, written or synced.
    Failed(DeviceFault),
}

impl From<ReadFault> for DiskOpenFault {
    ghost from_gives = { λ _ fault. (fault ≡ Memory) ⊎ (fault ≡ Failed device.Failed) };

    fn from(fault: ReadFault) -> DiskOpenFault {
        match fault {
            ReadFault::Memory => DiskOpenFault::Memory,
            ReadFault::Failed => DiskOpenFault::Failed(DeviceFault::Failed),
        }
    }
}

impl From<DeviceFault> for DiskOpenFault {
    ghost from_gives = { λ of_device fault. fault ≡ Failed of_device };

    fn from(fault: DeviceFault) -> DiskOpenFault {
        DiskOpenFault::Failed(fault)
    }
}

/// How many calls of a disk have failed. Each count stops at the top of its type.
#[derive(Clone, Copy, Debug, PartialEq, Eq)]
struct Failures {
    all: u64,
    // Writes, changes of the length and syncs that found no room.
    refused: u64,
}

/// A disk over a file. It keeps what the file has, by what was read as it was opened and written since, and answers
/// reads from that. Until a call fails, the file was given just these bytes, and was asked to keep those of the last
/// sync. After one has failed, each later write, change of the length and sync fails.
#[derive(Drop)]
pub struct WriteThrough<B: Backing> {
    file: B,
    bytes: Vec<u8>,
    // A write, a change of the length or a sync has failed: the file may have other bytes than the copy.
    has_failed: bool,
    // No sync has failed.
    is_usable: bool,
    failures: Failures,
    // The bytes at the last sync, and the steps since, the first of them first: a write has its offset and its length,
    // and a change of the length has no offset. Only proofs read these.
    synced: Log<(), Vec<u8>>,
    steps: Log<Option<usize>, usize>,
    ghost given: { has_failed ≡ false → B.given file ≡ bytes.items } by { Prim.hlevel props },
    ghost kept: { has_failed ≡ false → B.kept file ≡ remembered synced.items } by { Prim.hlevel props },
    ghost counted: { failures.all ≡ 0 → has_failed ≡ false } by { Prim.hlevel props },
}

// ---- what only proofs read

// These bytes alone are remembered.
fn remember(bytes: &Vec<u8>) -> Log<(), Vec<u8>>
    ensures { remembered result.items ≡ bytes.now.items }
{
    Log::new().and(&(), bytes)
}

// One step more.
fn note(
    steps: &Log<Option<usize>, usize>,
    at: Option<usize>,
    len: usize,
) -> Log<Option<usize>, usize>
    ensures { steps_of result.items ≡ step_from at len ∷ steps_of steps.now.items }
{
    steps.and(&at, &len)
}

// ---- failures

// Counts a call that failed, and tells why as a disk does.
fn counted(outcome: Result<(), DeviceFault>, failures: &mut Failures) -> io::Result<()>
    ensures variant { is_ok result ≡ is_ok outcome }
    ensures all { CountsFault result failures.old.all failures.new.all }
    ensures refused { MatchBool (finds_no_room result) (MoreFaults failures.old.refused failures.new.refused)
        (failures.new.refused ≡ failures.old.refused) }
{
    let Err(fault) = outcome else {
        return Ok(());
    };
    failures.all = failures.all.saturating_add(1);
    match fault {
        DeviceFault::NoRoom => {
            failures.refused = failures.refused.saturating_add(1);
            Err(io::ErrorKind::StorageFull.into())
        }
        DeviceFault::Failed => Err(io::Error::other("the file has failed")),
    }
}

// ---- writing to the copy and to the file

fn lengthen(copy: &mut Vec<u8>, len: usize) -> Result<(), AllocError>
    ensures len { OnOk result (length copy.new.items ≡ len) }
    ensures others { Cut len copy.old.items copy.new.items }
    ensures resized { OnOk result (copy.new.items ≡ resized copy.old.items len) }
{
    copy.resize(len, 0)
}

// Puts the bytes at the offset, after zeros where that lies past the end.
fn overwrite(copy: &mut Vec<u8>, at: usize, bytes: &[u8]) -> Result<(), AllocError>
    ensures written { OnOk result (Holds copy.new.items at bytes.now) }
    ensures others { Torn at (length bytes.now) copy.old.items copy.new.items }
{
    let end = at.checked_add(bytes.len()).ok_or(AllocError)?;
    if end > copy.len() {
        copy.resize(end, 0)?;
    }
    copy[at..end].copy_from_slice(bytes);
    Ok(())
}

// Writes to the copy and to the file, unless a call has failed. What lies between the end of the file and the offset
// is zeros, which are written too.
#[tactic(auto, using(crate::proofs::Writes::written_over))]
fn write_both<B: Backing>(
    file: &mut B,
    copy: &mut Vec<u8>,
    has_failed: bool,
    at: usize,
    bytes: &[u8],
) -> Result<(), DeviceFault>
    requires given { has_failed ≡ false → B.given file.old ≡ copy.old.items }
    ensures written { OnOk result (Holds copy.new.items at bytes.now) }
    ensures others { Torn at (length bytes.now) copy.old.items copy.new.items }
    ensures given { OnOk result (B.given file.new ≡ copy.new.items) }
    ensures kept { OnOk result (B.kept file.new ≡ B.kept file.old) }
    ensures usable { OnOk result (has_failed ≡ false) }
{
    if has_failed {
        return Err(DeviceFault::Failed);
    }
    let from = at.min(copy.len());
    if overwrite(copy, at, bytes).is_err() {
        return Err(DeviceFault::Failed);
    }
    file.write_part(copy, from, at + bytes.len() - from)
}

// Changes the length of the copy and of the file, unless a call has failed.
fn resize_both<B: Backing>(
    file: &mut B,
    copy: &mut Vec<u8>,
    has_failed: bool,
    len: usize,
) -> Result<(), DeviceFault>
    requires given { has_failed ≡ false → B.given file.old ≡ copy.old.items }
    ensures len { OnOk result (length copy.new.items ≡ len) }
    ensures others { Cut len copy.old.items copy.new.items }
    ensures given { OnOk result (B.given file.new ≡ copy.new.items) }
    ensures kept { OnOk result (B.kept file.new ≡ B.kept file.old) }
    ensures usable { OnOk result (has_failed ≡ false) }
{
    if has_failed || lengthen(copy, len).is_err() {
        return Err(DeviceFault::Failed);
    }
    file.resize(len)
}

// Has the disk keep what the file was given, unless a call has failed.
fn sync_file<B: Backing>(file: &mut B, has_failed: bool) -> Result<(), DeviceFault>
    ensures given { OnOk result (B.given file.new ≡ B.given file.old) }
    ensures kept { OnOk result (B.kept file.new ≡ B.given file.old) }
    ensures found { B.found file.new ≡ B.found file.old }
    ensures usable { OnOk result (has_failed ≡ false) }
{
    if has_failed {
        return Err(DeviceFault::Failed);
    }
    file.sync_all()
}

// The bytes of a file that has at most so many, which are written once more and synced.
fn kept_bytes<B: Backing>(
    alloc: Global,
    file: &mut B,
    most: usize,
) -> Result<Vec<u8>, DiskOpenFault>
    ensures found { IfOk result (λ v. v.items ≡ B.found file.new) }
    ensures few { IfOk result (λ v. length v.items ≤ most) }
    ensures given { IfOk result (λ v. B.given file.new ≡ v.items) }
    ensures kept { IfOk result (λ v. B.kept file.new ≡ v.items) }
    ensures too_large { IfErr result (λ fault. fault ≡ TooLarge → most < B.told file.new) }
    ensures untouched { IfErr result (λ fault. fault ≡ TooLarge → B.given file.new ≡ B.given file.old) }
{
    let size = file.size()?;
    if size > most as u64 {
        return Err(DiskOpenFault::TooLarge);
    }
    let bytes = file.read_all(alloc, size as usize)?;
    file.rewrite(&bytes)?;
    sync_file(file, false)?;
    Ok(bytes)
}

impl<B: Backing> WriteThrough<B> {
    /// A disk over a file of at most so many bytes. What is read of it is written once more, and synced
    /// (`Backing::rewrite`). An `Err` hands the file back.
    pub fn new(
        alloc: Global,
        mut file: B,
        most: usize,
    ) -> Result<WriteThrough<B>, (DiskOpenFault, B)>
        ensures durable { IfOk result (λ disk. Only (⟦<WriteThrough<B> as Disk>⟧.seen disk)
            (⟦<WriteThrough<B> as Disk>⟧.may_leave disk)) }
        ensures usable { IfOk result (λ disk. IsTrue (⟦<WriteThrough<B> as Disk>⟧.is_usable disk)) }
        ensures found { IfOk result (λ disk. ⟦<WriteThrough<B> as Disk>⟧.seen disk ≡ B.found disk.file) }
        ensures given { IfOk result (λ disk. B.given disk.file ≡ ⟦<WriteThrough<B> as Disk>⟧.seen disk) }
        ensures kept { IfOk result (λ disk. B.kept disk.file ≡ ⟦<WriteThrough<B> as Disk>⟧.seen disk) }
        ensures faults { IfOk result (λ disk. ⟦<WriteThrough<B> as Disk>⟧.faults disk ≡ 0) }
        ensures too_large { IfErr result (λ e. e.0 ≡ TooLarge → most < B.told e.1) }
        ensures untouched { IfErr result (λ e. e.0 ≡ TooLarge → B.given e.1 ≡ B.given file) }
    {
        match kept_bytes(alloc, &mut file, most) {
            Ok(bytes) => {
                let synced = remember(&bytes);
                Ok(WriteThrough {
                    file,
                    bytes,
                    has_failed: false,
                    is_usable: true,
                    failures: Failures { all: 0, refused: 0 },
                    synced,
                    steps: Log::new(),
                })
            }
            Err(fault) => Err((fault, file)),
        }
    }

    /// Whether a write, a change of the length or a sync has failed, which it hasn't while no failure is counted. Until
    /// then the file was given the bytes that a read returns, and the disk was asked to keep those of the last sync.
    pub fn has_failed(&self) -> bool
        ensures counted { ⟦<WriteThrough<B> as Disk>⟧.faults self.now ≡ 0 → result ≡ false }
        ensures given { result ≡ false → B.given self.now.file ≡ ⟦<WriteThrough<B> as Disk>⟧.seen self.now }
        ensures kept { result ≡ false → B.kept self.now.file ≡ remembered self.now.synced.items }
    {
        self.has_failed
    }

    /// The file, with no call to it.
    pub fn into_file(self) -> B
        ensures { result ≡ self.file }
    {
        let WriteThrough {
            file,
            bytes: _,
            has_failed: _,
            is_usable: _,
            failures: _,
            synced: _,
            steps: _,
        } = self;
        file
    }
}

impl<B: Backing> Disk for WriteThrough<B> {
    ghost seen = { λ d. d.bytes.items };

    ghost may_leave = { λ d. MayLeave false d.bytes.items (remembered d.synced.items) (steps_of d.steps.items) };

    ghost is_usable = { λ d. d.is_usable };

    ghost faults = { λ d. d.failures.all };

    ghost tally_of = { λ d. record { caught = 0; refused = d.failures.refused } };

    ghost key_of = { λ _. 0 };

    ghost is_clean = { λ _. true };

    ghost is_fair = { λ _ _. true };

    ghost fair_if_clean = { λ _ _ _. refl };

    ghost seen_may_stay = { λ _. inl refl };

    fn mixes(&self) -> bool {
        false
    }

    // The copy tells no lie, so it needs no secret.
    fn key(&self) -> u64 {
        0
    }

    fn tally(&self) -> Tally {
        Tally {
            caught: 0,
            refused: self.failures.refused,
        }
    }

    fn may_be_used(&self) -> bool {
        self.is_usable
    }

    fn len(&mut self) -> io::Result<usize> {
        Ok(self.bytes.len())
    }

    fn read_at(&mut self, at: usize, buf: &mut [u8]) -> io::Result<()> {
        if at > self.bytes.len() || buf.len() > self.bytes.len() - at {
            return Err(io::ErrorKind::UnexpectedEof.into());
        }
        buf.copy_from_slice(&self.bytes[at..at + buf.len()]);
        Ok(())
    }

    // What is read of the copy has the digest that is asked for, so it needs no test.
    fn read_checked(&mut self, _key: u64, _want: u64, at: usize, buf: &mut [u8]) -> io::Result<()> {
        self.read_at(at, buf)
    }

    fn write_at(&mut self, at: usize, bytes: &[u8]) -> io::Result<()> {
        self.steps = note(&self.steps, Some(at), bytes.len());
        let written = write_both(&mut self.file, &mut self.bytes, self.has_failed, at, bytes);
        self.has_failed = written.is_err();
        counted(written, &mut self.failures)
    }

    fn set_len(&mut self, len: usize) -> io::Result<()> {
        self.steps = note(&self.steps, None, len);
        let resized = resize_both(&mut self.file, &mut self.bytes, self.has_failed, len);
        self.has_failed = resized.is_err();
        counted(resized, &mut self.failures)
    }

    fn sync(&mut self) -> io::Result<()> {
        let synced = sync_file(&mut self.file, self.has_failed);
        self.has_failed = synced.is_err();
        self.is_usable = synced.is_ok();
        if synced.is_err() {
            return counted(synced, &mut self.failures);
        }
        self.synced = remember(&self.bytes);
        self.steps = Log::new();
        Ok(())
    }
}

//! The bytes of a record.
ghost use Rattle.std.specs.Prelude.{◌≡◌, ◌==◌, ◌↔◌, length, map, IfSome, IsTrue, None, Some};
ghost use Rattle.xa_log.specs.declared.log.CommitRecord.{CommitRecord};
ghost use Rattle.xa_log_file.specs.RecordBytes.{fields, spelling, yes_bytes, IsValid};

use md5::{Digest, Md5};
use std::array;
use xa_base::MOST_MANAGERS;
use xa_log::CommitRecord;
use xa_words::{ManagerSet, Tran};

/// The most bytes of a gtrid.
const GTRID: usize = 64;

/// The bytes of a record's fields: the format, the length of the gtrid, the gtrid, the managers.
const FIELDS: usize = 5 + GTRID + MOST_MANAGERS;

/// The bytes of a record: its fields, and their digest.
pub(crate) const BODY: usize = FIELDS + md5::DIGEST_LEN;

// A byte for each manager: whether it voted yes.
fn yes_bytes(yes: &ManagerSet) -> [u8; MOST_MANAGERS]
    ensures { result ≡ yes_bytes yes.now }
{
    array::from_fn(|place| u8::from(yes.contains(place as u32 + 1)))
}

// The set that these bytes tell of.
fn yes_of(bytes: &[u8]) -> ManagerSet
    requires { length bytes.now ≡ 8 }
    ensures { result ≡ map (λ b. b == 1) bytes.now }
{
    ManagerSet::from_fn(|manager| bytes[manager as usize - 1] == 1)
}

/// Whether a file can have the record. It can have each that the program makes: this only shows it to the log.
pub(crate) fn is_valid(decision: &CommitRecord) -> bool
    ensures { IsTrue result ↔ IsValid decision.now }
{
    decision.yes.tells_of_all();
    Tran::new(decision.tran.format(), decision.tran.gtrid()).is_ok()
}

// The bytes of a record's fields.
fn fields(decision: &CommitRecord) -> [u8; FIELDS]
    ensures { result ≡ fields decision.now }
{
    let gtrid = decision.tran.gtrid();
    let mut bytes = [0; FIELDS];
    let (format, rest) = bytes.split_at_mut(4);
    format.copy_from_slice(&decision.tran.format().to_be_bytes());
    let (len, rest) = rest.split_at_mut(1);
    len.copy_from_slice(&[gtrid.len() as u8]);
    let (name, rest) = rest.split_at_mut(gtrid.len());
    name.copy_from_slice(gtrid);
    let (_, yes) = rest.split_at_mut(GTRID - gtrid.len());
    yes.copy_from_slice(&yes_bytes(&decision.yes));
    bytes
}

/// The bytes of a record.
pub(crate) fn spelled(decision: &CommitRecord) -> [u8; BODY]
    ensures bytes { result ≡ spelling decision.now }
    ensures size { length result ≡ 93 }
{
    let fields = fields(decision);
    let mut body = [0; BODY];
    let (front, digest) = body.split_at_mut(FIELDS);
    front.copy_from_slice(&fields);
    digest.copy_from_slice(&Md5::digest(&fields));
    body
}

// What the bytes would spell, if they spell a record.
fn guessed(body: &[u8]) -> Option<CommitRecord>
    requires { length body.now ≡ 93 }
    ensures valid { IfSome result IsValid }
    ensures only { (r : CommitRecord) → IsValid r → body.now ≡ spelling r → result ≡ Some r }
{
    let format = i32::from_be_bytes([body[0], body[1], body[2], body[3]]);
    let len = body[4] as usize;
    if len > GTRID {
        return None;
    }
    let tran = Tran::new(format, &body[5..5 + len]).ok()?;
    let yes = yes_of(&body[5 + GTRID..FIELDS]);
    Some(CommitRecord { tran, yes })
}

/// The record that the bytes spell, if they spell one.
pub(crate) fn read_body(body: &[u8]) -> Option<CommitRecord>
    requires { length body.now ≡ 93 }
    ensures valid { IfSome result IsValid }
    ensures found { IfSome result (λ r. body.now ≡ spelling r) }
    ensures none { result ≡ None → (r : CommitRecord) → IsValid r → body.now ≡ spelling r → ⊥ }
{
    let record = guessed(body)?;
    if spelled(&record).as_slice() != body {
        return None;
    }
    Some(record)
}

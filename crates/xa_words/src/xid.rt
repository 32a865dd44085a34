//! Names of transaction branches.
ghost use Rattle.std.specs.Prelude.{◌≡◌, ◌+◌, ◌-◌, ◌≤◌, ◌++◌, IsTrue, length, replicate};
ghost use Rattle.std.specs.Int.{w32};
ghost use Rattle.xa_words.specs.NewXid.{is_part, xid_of};
ghost use Rattle.xa_words.specs.NumberBytes.{number_of, IsOfItsNumber};
ghost use Rattle.xa_words.specs.Tran.{tran_of};

use crate::tran::Tran;
use std::cmp::Ordering;
use std::fmt;
use std::hash::{Hash, Hasher};
use std::marker::Model;

/// The name of a transaction branch, the XID of xa.h: a format, a global transaction
/// identifier (gtrid) and a branch qualifier (bqual).
///
/// Names are ordered by the format, then the length of the gtrid, then that of the bqual, then
/// the bytes of both; so the branch `b.1` stands before `aa.1`.
#[derive(Clone, Copy)]
pub struct Xid {
    // The format's bytes, lowest first: so no list of requests has gaps that align it.
    format: [u8; 4],
    parts: Parts,
}

// The order of the fields is the order in which names of one format are compared.
#[derive(Clone, Copy, PartialEq, Eq, PartialOrd, Ord)]
struct Parts {
    gtrid_len: u8,
    bqual_len: u8,
    // The gtrid, the bqual, then zeros.
    bytes: [u8; 128],
}

impl Model for Xid {
    ghost use Rattle.std.specs.Prelude.{length, take, drop};
    ghost use Rattle.std.specs.Int.{w32};
    ghost use Rattle.xa_words.specs.NumberBytes.{number_of, bytes_of_number, IsOfItsNumber};
    ghost use Rattle.xa_words.specs.Xid.{XidName, xid_code, bytes_of};
    ghost use Rattle.xa_words.specs.XidInverse.{IsPaddedXid, bytes_again, length_first, length_second};

    ghost Value = { XidName };

    ghost coded = { xid_code };

    ghost view = { λ x. record {
      format = number_of w32 x.format;
      gtrid = take x.parts.gtrid_len x.parts.bytes;
      bqual = take x.parts.bqual_len (drop x.parts.gtrid_len x.parts.bytes);
    } };

    ghost invariant = { λ x.
        IsPaddedXid x.parts.gtrid_len x.parts.bqual_len x.parts.bytes × IsOfItsNumber w32 x.format };

    ghost inverse = { λ name. record {
      format = bytes_of_number w32 name.format;
      parts = record {
        gtrid_len = length name.gtrid;
        bqual_len = length name.bqual;
        bytes = bytes_of name;
      };
    } };

    ghost inverse_ok = { λ x ok i. record {
      format = ok.1.again i;
      parts = record {
        gtrid_len = length_first x.parts.gtrid_len x.parts.bqual_len x.parts.bytes ok.0 i;
        bqual_len = length_second x.parts.gtrid_len x.parts.bqual_len x.parts.bytes ok.0 i;
        bytes = bytes_again x.parts.gtrid_len x.parts.bqual_len x.parts.bytes ok.0 i;
      };
    } };
}

/// Why a name is refused: the first of these that holds.
#[derive(Clone, Copy, Debug, PartialEq, Eq)]
pub enum XidFault {
    /// The format is -1, that of the null XID.
    NullFormat,
    /// The gtrid has no byte, or more than 64.
    GtridLength,
    /// The bqual has no byte, or more than 64.
    BqualLength,
}

impl Xid {
    const MAX_PART_LEN: usize = 64;

    /// A name, where the format isn't -1 and both parts have 1 to 64 bytes.
    pub fn new(format: i32, gtrid: &[u8], bqual: &[u8]) -> Result<Xid, XidFault>
        ensures { result ≡ xid_of format gtrid.now bqual.now }
    {
        if format == -1 {
            return Err(XidFault::NullFormat);
        }
        if !is_part(gtrid) {
            return Err(XidFault::GtridLength);
        }
        if !is_part(bqual) {
            return Err(XidFault::BqualLength);
        }
        Ok(Xid {
            format: format_bytes(format),
            parts: Parts {
                gtrid_len: gtrid.len() as u8,
                bqual_len: bqual.len() as u8,
                bytes: joined(gtrid, bqual),
            },
        })
    }

    /// The format, which tells how the bytes are to be read.
    #[tactic(auto, unfolding(crate::specs::NumberBytes::number_of))]
    pub fn format(&self) -> i32
        ensures { result ≡ self.now.format }
    {
        i32::from_le_bytes(self.format)
    }

    /// The gtrid, 1 to 64 bytes, which all branches of a global transaction share.
    pub fn gtrid(&self) -> &[u8]
        ensures gtrid { result.now ≡ self.now.gtrid }
        ensures valid { IsTrue (is_part result.now) }
    {
        &self.parts.bytes[..self.parts.gtrid_len as usize]
    }

    /// The bqual, 1 to 64 bytes, which tells the branches of a global transaction apart.
    pub fn bqual(&self) -> &[u8]
        ensures bqual { result.now ≡ self.now.bqual }
        ensures valid { IsTrue (is_part result.now) }
    {
        let start = self.parts.gtrid_len as usize;
        &self.parts.bytes[start..start + self.parts.bqual_len as usize]
    }

    /// The global transaction that the branch belongs to.
    pub fn tran(&self) -> Tran
        ensures { result ≡ tran_of self.now }
    {
        Tran::of_parts(self.format(), self.gtrid())
    }

    // The bytes that are used: the gtrid, then the bqual.
    fn used(&self) -> &[u8]
        ensures { result.now ≡ self.now.gtrid ++ self.now.bqual }
    {
        &self.parts.bytes[..self.parts.gtrid_len as usize + self.parts.bqual_len as usize]
    }
}

impl PartialEq for Xid {
    ghost use Rattle.std.specs.Cmp.{decided, partial_equiv_from_equiv};
    ghost use Rattle.xa_words.specs.Xid.{xid_eq};
    ghost use Rattle.xa_words.specs.Orders.{Decides-xid_eq};

    ghost eq = { xid_eq };

    ghost laws = { partial_equiv_from_equiv (decided xid_eq Decides-xid_eq) };

    fn eq(&self, other: &Xid) -> bool {
        self.format() == other.format()
            && self.parts.gtrid_len == other.parts.gtrid_len
            && self.used() == other.used()
    }
}

impl Eq for Xid {
    ghost use Rattle.std.specs.Cmp.{decided};
    ghost use Rattle.xa_words.specs.Xid.{xid_eq};
    ghost use Rattle.xa_words.specs.Orders.{Decides-xid_eq};

    ghost laws = { decided xid_eq Decides-xid_eq };
}

impl Hash for Xid {
    ghost use Rattle.std.specs.Prelude.{[], ◌∷◌, ◌++◌};
    ghost use Rattle.std.specs.Hash.{same_Alike};
    ghost use Rattle.xa_words.specs.Orders.{Decides-xid_eq};

    ghost hash_input = { λ x. (x.gtrid ++ x.bqual) ∷ [] };

    ghost respects_eq = { (same_Alike (λ x. (x.gtrid ++ x.bqual) ∷ []) Decides-xid_eq).fed };

    fn hash<H: Hasher>(&self, state: &mut H) {
        state.write(self.used());
    }
}

impl Ord for Xid {
    ghost use Rattle.std.specs.Prelude.{refl};
    ghost use Rattle.xa_words.specs.Xid.{xid_cmp};
    ghost use Rattle.xa_words.specs.Orders.{xid_cmp_total, xid_eq-by_cmp};

    ghost cmp = { xid_cmp };

    ghost total = { xid_cmp_total };

    ghost matches_partial_cmp = { λ _ _. refl };

    ghost matches_eq = { xid_eq-by_cmp };

    fn cmp(&self, other: &Xid) -> Ordering {
        self.format()
            .cmp(&other.format())
            .then(self.parts.cmp(&other.parts))
    }
}

impl PartialOrd for Xid {
    ghost use Rattle.std.specs.Prelude.{refl};
    ghost use Rattle.std.specs.Ordering.{as_partial_cmp};
    ghost use Rattle.std.specs.Cmp.{partial_order_from_agreeing_total};
    ghost use Rattle.xa_words.specs.Xid.{xid_cmp};
    ghost use Rattle.xa_words.specs.Orders.{xid_cmp_total, xid_eq-by_cmp};

    ghost partial_cmp = { as_partial_cmp xid_cmp };

    ghost laws = { partial_order_from_agreeing_total xid_cmp xid_cmp_total (λ _ _. refl) xid_eq-by_cmp };

    fn partial_cmp(&self, other: &Xid) -> Option<Ordering> {
        Some(self.cmp(other))
    }
}

impl fmt::Debug for Xid {
    fn fmt<W: fmt::Write>(&self, f: &mut fmt::Formatter<W>) -> fmt::Result {
        f.debug_struct("Xid")
            .field("format", &self.format())
            .field("gtrid", &self.gtrid())
            .field("bqual", &self.bqual())
            .finish()
    }
}

pub(crate) fn is_part(bytes: &[u8]) -> bool
    ensures { result ≡ is_part bytes.now }
{
    (1..=Xid::MAX_PART_LEN).contains(&bytes.len())
}

// The bytes of a format, lowest first.
#[tactic(auto, unfolding(crate::specs::NumberBytes::number_of, crate::specs::NumberBytes::bytes_of_number))]
fn format_bytes(format: i32) -> [u8; 4]
    ensures format { number_of w32 result ≡ format }
    ensures only { IsOfItsNumber w32 result }
{
    format.to_le_bytes()
}

// The two parts, one after the other, and zeros up to the end.
fn joined(gtrid: &[u8], bqual: &[u8]) -> [u8; 128]
    requires gtrid { length gtrid.now ≤ 64 }
    requires bqual { length bqual.now ≤ 64 }
    ensures { result ≡ gtrid.now ++ (bqual.now ++ replicate (128 - (length gtrid.now + length bqual.now)) 0) }
{
    let mut bytes = [0; 128];
    let (first, rest) = bytes.split_at_mut(gtrid.len());
    first.copy_from_slice(gtrid);
    let (second, _) = rest.split_at_mut(bqual.len());
    second.copy_from_slice(bqual);
    bytes
}

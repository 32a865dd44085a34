//! Names of global transactions.
ghost use Rattle.std.specs.Prelude.{◌≡◌, IsTrue, length};
ghost use Rattle.xa_words.specs.NewXid.{is_part, new_tran};

use crate::padded::padded;
use crate::xid::{XidFault, is_part};
use std::hash::{Hash, Hasher};
use std::marker::Model;

/// The name of a global transaction: the format and the gtrid that its branches share.
#[derive(Clone, Copy, Debug)]
pub struct Tran {
    parts: Parts,
}

#[derive(Clone, Copy, Debug)]
struct Parts {
    format: i32,
    gtrid_len: u8,
    // The gtrid, then zeros.
    bytes: [u8; 64],
}

impl Model for Tran {
    ghost use Rattle.std.specs.Prelude.{length, take};
    ghost use Rattle.xa_words.specs.Tran.{TranName, tran_code, tran_bytes};
    ghost use Rattle.xa_words.specs.TranInverse.{IsPaddedTran, tran_bytes_again, tran_length};

    ghost Value = { TranName };

    ghost coded = { tran_code };

    ghost view = { λ t. record {
      format = t.parts.format;
      gtrid = take t.parts.gtrid_len t.parts.bytes;
    } };

    ghost invariant = { λ t. IsPaddedTran t.parts.gtrid_len t.parts.bytes };

    ghost inverse = { λ name. record {
      parts = record {
        format = name.format;
        gtrid_len = length name.gtrid;
        bytes = tran_bytes name;
      };
    } };

    ghost inverse_ok = { λ t padded i. record {
      parts = record {
        format = t.parts.format;
        gtrid_len = tran_length t.parts.gtrid_len t.parts.bytes padded i;
        bytes = tran_bytes_again t.parts.gtrid_len t.parts.bytes padded i;
      };
    } };
}

impl Tran {
    /// A name, where the format isn't -1 and the gtrid has 1 to 64 bytes.
    pub fn new(format: i32, gtrid: &[u8]) -> Result<Tran, XidFault>
        ensures { result ≡ new_tran format gtrid.now }
    {
        if format == -1 {
            return Err(XidFault::NullFormat);
        }
        if !is_part(gtrid) {
            return Err(XidFault::GtridLength);
        }
        Ok(Tran::of_parts(format, gtrid))
    }

    pub(crate) fn of_parts(format: i32, gtrid: &[u8]) -> Tran
        requires { IsTrue (is_part gtrid.now) }
        ensures format { result.format ≡ format }
        ensures gtrid { result.gtrid ≡ gtrid.now }
    {
        Tran {
            parts: Parts {
                format,
                gtrid_len: gtrid.len() as u8,
                bytes: padded(gtrid),
            },
        }
    }

    /// The format, which tells how the bytes are to be read.
    pub fn format(&self) -> i32
        ensures { result ≡ self.now.format }
    {
        self.parts.format
    }

    /// The gtrid, 1 to 64 bytes.
    pub fn gtrid(&self) -> &[u8]
        ensures gtrid { result.now ≡ self.now.gtrid }
        ensures valid { IsTrue (is_part result.now) }
    {
        &self.parts.bytes[..self.parts.gtrid_len as usize]
    }
}

impl PartialEq for Tran {
    ghost use Rattle.std.specs.Cmp.{decided, partial_equiv_from_equiv};
    ghost use Rattle.xa_words.specs.Tran.{tran_eq};
    ghost use Rattle.xa_words.specs.TranOrders.{Decides-tran_eq};

    ghost eq = { tran_eq };

    ghost laws = { partial_equiv_from_equiv (decided tran_eq Decides-tran_eq) };

    fn eq(&self, other: &Tran) -> bool {
        self.format() == other.format() && self.gtrid() == other.gtrid()
    }
}

impl Eq for Tran {
    ghost use Rattle.std.specs.Cmp.{decided};
    ghost use Rattle.xa_words.specs.Tran.{tran_eq};
    ghost use Rattle.xa_words.specs.TranOrders.{Decides-tran_eq};

    ghost laws = { decided tran_eq Decides-tran_eq };
}

impl Hash for Tran {
    ghost use Rattle.std.specs.Prelude.{[], ◌∷◌};
    ghost use Rattle.std.specs.Hash.{same_Alike};
    ghost use Rattle.xa_words.specs.TranOrders.{Decides-tran_eq};

    ghost hash_input = { λ t. t.gtrid ∷ [] };

    ghost respects_eq = { (same_Alike (λ t. t.gtrid ∷ []) Decides-tran_eq).fed };

    fn hash<H: Hasher>(&self, state: &mut H) {
        state.write(self.gtrid());
    }
}

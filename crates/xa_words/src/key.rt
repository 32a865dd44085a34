//! Keys of a store.
ghost use Rattle.std.specs.Prelude.{◌≡◌, IsTrue};
ghost use Rattle.std.specs.List.{list_all};
ghost use Rattle.xa_words.specs.Key.{is_key, is_key_byte, key_of};

use crate::padded::padded;
use std::cmp::Ordering;
use std::hash::{Hash, Hasher};
use std::marker::Model;

/// The name of a value in a store: 1 to 16 bytes of `a` to `z` and `0` to `9`.
///
/// Keys are ordered as their bytes are, so `a` stands before `a0` and `a0` before `b`.
#[derive(Clone, Copy, Debug, PartialEq, Eq)]
pub struct Key {
    // The key's bytes, then zeros.
    bytes: [u8; 16],
    count: u8,
}

impl Model for Key {
    ghost use Rattle.std.specs.Prelude.{◌≡◌, ℕ, List, length, take, drop, replicate, ◌-◌};
    ghost use Rattle.xa_words.specs.Key.{padded_key};
    ghost use Rattle.xa_words.specs.NewKey.{IsPaddedKey, padded_again, length_key};

    ghost Value = { List ℕ };

    ghost view = { λ k. take k.count k.bytes };

    ghost invariant = { λ k. IsPaddedKey k.count k.bytes };

    ghost inverse = { λ name. record { bytes = padded_key name; count = length name } };

    ghost inverse_ok = { λ k padded i. record {
      bytes = padded_again k.count k.bytes padded i;
      count = length_key k.count k.bytes padded i;
    } };
}

impl Key {
    const MAX_LEN: usize = 16;

    /// The key with this name, `None` where it is empty, too long or has another byte.
    pub fn new(name: &[u8]) -> Option<Key>
        ensures { result ≡ key_of name.now }
    {
        if !is_key(name) {
            return None;
        }
        Some(Key {
            bytes: padded(name),
            count: name.len() as u8,
        })
    }

    /// The name.
    pub fn as_bytes(&self) -> &[u8]
        ensures name { result.now ≡ self.now }
        ensures valid { IsTrue (is_key result.now) }
    {
        &self.bytes[..self.count as usize]
    }
}

impl Hash for Key {
    ghost use Rattle.std.specs.Prelude.{[], ◌∷◌};
    ghost use Rattle.std.specs.Hash.{same_Alike};
    ghost use Rattle.xa_words.specs.Orders.{Decides-key_eq};

    ghost hash_input = { λ k. k ∷ [] };

    ghost respects_eq = { (same_Alike (λ k. k ∷ []) Decides-key_eq).fed };

    fn hash<H: Hasher>(&self, state: &mut H) {
        state.write(self.as_bytes());
    }
}

impl Ord for Key {
    ghost use Rattle.std.specs.Prelude.{refl};
    ghost use Rattle.xa_words.specs.Key.{key_cmp};
    ghost use Rattle.xa_words.specs.Orders.{key_cmp_total, key_eq-by_cmp};

    ghost cmp = { key_cmp };

    ghost total = { key_cmp_total };

    ghost matches_partial_cmp = { λ _ _. refl };

    ghost matches_eq = { key_eq-by_cmp };

    fn cmp(&self, other: &Key) -> Ordering {
        self.as_bytes().cmp(other.as_bytes())
    }
}

impl PartialOrd for Key {
    ghost use Rattle.std.specs.Prelude.{refl};
    ghost use Rattle.std.specs.Ordering.{as_partial_cmp};
    ghost use Rattle.std.specs.Cmp.{partial_order_from_agreeing_total};
    ghost use Rattle.xa_words.specs.Key.{key_cmp};
    ghost use Rattle.xa_words.specs.Orders.{key_cmp_total, key_eq-by_cmp};

    ghost partial_cmp = { as_partial_cmp key_cmp };

    ghost laws = { partial_order_from_agreeing_total key_cmp key_cmp_total (λ _ _. refl) key_eq-by_cmp };

    fn partial_cmp(&self, other: &Key) -> Option<Ordering> {
        Some(self.cmp(other))
    }
}

fn is_key(name: &[u8]) -> bool
    ensures { result ≡ is_key name.now }
{
    (1..=Key::MAX_LEN).contains(&name.len()) && are_key_bytes(name)
}

fn are_key_bytes(bytes: &[u8]) -> bool
    ensures { result ≡ list_all is_key_byte bytes.now }
{
    bytes.iter().all(|&byte| is_key_byte(byte))
}

fn is_key_byte(byte: u8) -> bool
    ensures { result ≡ is_key_byte byte }
{
    byte.is_ascii_lowercase() || byte.is_ascii_digit()
}

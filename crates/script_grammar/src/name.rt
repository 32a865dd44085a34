//! Names of branches and of global transactions, whose bytes stand elsewhere: in a line, or in a script.
ghost use Rattle.std.specs.Prelude.{◌≡◌, ◌+◌, ◌<◌, IsTrue, pos, take, drop, length};
ghost use Rattle.xa_words.specs.NewXid.{is_part};
ghost use Rattle.script_grammar.specs.Spelling.{SpellsName, IsShortName};

use std::marker::Model;
use xa_words::{Tran, Xid};

// The format of every name of a script.
const FORMAT: i32 = 1;

/// The name of a branch, whose bytes are lent. Contracts see it as they see an `Xid`.
#[derive(Drop)]
pub struct Name<'a> {
    // The gtrid, a dot and the bqual, as a line has them.
    word: &'a [u8],
    // How many bytes stand before the dot.
    dot: usize,
}

impl<'a> Model for Name<'a> {
    ghost use Rattle.std.specs.Prelude.{IsTrue, pos, take, drop, length, ◌+◌, ◌<◌};
    ghost use Rattle.xa_words.specs.NewXid.{is_part};
    ghost use Rattle.xa_words.specs.Xid.{XidName};

    ghost Value = { XidName };

    ghost view = { λ n. record {
      format = pos 1;
      gtrid = take n.dot n.word.now;
      bqual = drop (n.dot + 1) n.word.now;
    } };

    ghost invariant = { λ n. (n.dot + 1 < length n.word.now)
        × IsTrue (is_part (take n.dot n.word.now)) × IsTrue (is_part (drop (n.dot + 1) n.word.now)) };
}

impl<'a> Name<'a> {
    /// The branch whose gtrid stands before the dot, and whose bqual after it. Each has 1 to 64 bytes.
    pub(crate) fn new(word: &'a [u8], dot: usize) -> Name<'a>
        requires within { dot + 1 < length word.now }
        requires gtrid { IsTrue (is_part (take dot word.now)) }
        requires bqual { IsTrue (is_part (drop (dot + 1) word.now)) }
        ensures { result ≡ record { format = pos 1; gtrid = take dot word.now; bqual = drop (dot + 1) word.now } }
    {
        Name { word, dot }
    }

    /// The name with bytes of its own.
    #[inline(always)]
    pub fn xid(&self) -> Xid
        ensures { result ≡ self.now }
    {
        match Xid::new(FORMAT, self.gtrid(), self.bqual()) {
            Ok(xid) => xid,
            // Both parts have 1 to 64 bytes.
            Err(_) => unreachable!(),
        }
    }

    /// The gtrid, 1 to 64 bytes, which all branches of a global transaction share.
    pub fn gtrid(&self) -> &'a [u8]
        ensures gtrid { result.now ≡ self.now.gtrid }
        ensures format { self.now.format ≡ pos 1 }
        ensures valid { IsTrue (is_part result.now) }
    {
        &self.word[..self.dot]
    }

    /// The bqual, 1 to 64 bytes, which tells the branches of a global transaction apart.
    pub fn bqual(&self) -> &'a [u8]
        ensures bqual { result.now ≡ self.now.bqual }
        ensures valid { IsTrue (is_part result.now) }
    {
        &self.word[self.dot + 1..]
    }

    /// The gtrid, a dot and the bqual.
    pub(crate) fn word(&self) -> &'a [u8]
        ensures spells { SpellsName result.now self.now }
        ensures short { IsShortName self.now }
    {
        self.word
    }
}

/// The name of a global transaction, whose gtrid is lent. Contracts see it as they see a `Tran`.
#[derive(Drop)]
pub struct Gtrid<'a> {
    bytes: &'a [u8],
}

impl<'a> Model for Gtrid<'a> {
    ghost use Rattle.std.specs.Prelude.{IsTrue, pos};
    ghost use Rattle.xa_words.specs.NewXid.{is_part};
    ghost use Rattle.xa_words.specs.Tran.{TranName};

    ghost Value = { TranName };

    ghost view = { λ g. record { format = pos 1; gtrid = g.bytes.now } };

    ghost invariant = { λ g. IsTrue (is_part g.bytes.now) };
}

impl<'a> Gtrid<'a> {
    /// The global transaction of this gtrid, of 1 to 64 bytes.
    pub(crate) fn new(bytes: &'a [u8]) -> Gtrid<'a>
        requires { IsTrue (is_part bytes.now) }
        ensures { result ≡ record { format = pos 1; gtrid = bytes.now } }
    {
        Gtrid { bytes }
    }

    /// The name with bytes of its own.
    pub fn tran(&self) -> Tran
        ensures { result ≡ self.now }
    {
        match Tran::new(FORMAT, self.bytes) {
            Ok(tran) => tran,
            // It has 1 to 64 bytes.
            Err(_) => unreachable!(),
        }
    }

    /// The gtrid, 1 to 64 bytes.
    pub fn bytes(&self) -> &'a [u8]
        ensures gtrid { result.now ≡ self.now.gtrid }
        ensures format { self.now.format ≡ pos 1 }
        ensures valid { IsTrue (is_part result.now) }
    {
        self.bytes
    }
}

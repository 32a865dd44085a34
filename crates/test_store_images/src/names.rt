//! The accounts and the branches of the script.
use xa_words::{Key, Xid};

/// How many accounts there are.
pub(crate) const ACCOUNTS: usize = 4;

/// How many branches there are.
pub(crate) const BRANCHES: usize = 6;

/// The accounts' keys and the branches' names.
#[derive(Clone, Copy)]
pub(crate) struct Names {
    pub(crate) a: Key,
    pub(crate) b: Key,
    pub(crate) c: Key,
    pub(crate) d: Key,
    pub(crate) u: Xid,
    pub(crate) v: Xid,
    pub(crate) w: Xid,
    pub(crate) x: Xid,
    pub(crate) y: Xid,
    pub(crate) z: Xid,
}

// The branch with this name.
fn branch(name: &[u8]) -> Option<Xid> {
    Xid::new(1, name, b"1").ok()
}

impl Names {
    /// All names. None only where one of them is too long.
    pub(crate) fn new() -> Option<Names> {
        Some(Names {
            a: Key::new(b"a")?,
            b: Key::new(b"b")?,
            c: Key::new(b"c")?,
            d: Key::new(b"d")?,
            u: branch(b"u")?,
            v: branch(b"v")?,
            w: branch(b"w")?,
            x: branch(b"x")?,
            y: branch(b"y")?,
            z: branch(b"z")?,
        })
    }

    /// The accounts' keys.
    pub(crate) fn keys(&self) -> [Key; ACCOUNTS] {
        [self.a, self.b, self.c, self.d]
    }

    /// The branches' names.
    pub(crate) fn branches(&self) -> [Xid; BRANCHES] {
        [self.u, self.v, self.w, self.x, self.y, self.z]
    }

    /// The accounts of a store that is made.
    pub(crate) fn accounts(&self) -> [(Key, u64); ACCOUNTS] {
        [(self.a, 100), (self.b, 50), (self.c, 7), (self.d, 0)]
    }

    /// The accounts that an opening asks for after a crash: it has them only where it finds nothing.
    pub(crate) fn others(&self) -> [(Key, u64); 1] {
        [(self.c, 8)]
    }
}

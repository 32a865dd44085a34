//! The declared keys, and what finds them.
ghost use Rattle.std.specs.Prelude.{◌≡◌, ◌∷◌, [], ◌++◌, OnOk, OnErr};
ghost use Rattle.xa_base.specs.Lists.{IsUpTo};
ghost use Rattle.xa_base.specs.declared.limits.TheConstants.{MOST_MANAGERS};
ghost use Rattle.script_grammar.specs.Settings.{has_key, key_count};

use crate::script::Declared;
use std::alloc::{AllocError, Global};
use std::collections::HashSet;
use std::marker::Model;
use xa_words::Key;

/// The declared keys, in the order of their lines.
#[derive(Drop)]
pub(crate) struct DeclaredKeys {
    list: Vec<Declared>,
    // The manager and the key of each.
    found: HashSet<(u32, Key)>,
    // How many each manager has: place m for manager m. No manager is 0.
    counts: [usize; 9],
}

impl Model for DeclaredKeys {
    ghost use Rattle.std.specs.Prelude.{List};
    ghost use Rattle.script_grammar.specs.declared.script.Declared.{Declared};
    ghost use Rattle.script_grammar.specs.Found.{Finds};

    ghost Value = { List Declared };

    ghost view = { λ k. k.list.items };

    ghost invariant = { λ k. Finds k.list.items k.found.keys k.counts };
}

impl DeclaredKeys {
    pub(crate) fn new(alloc: Global) -> DeclaredKeys
        ensures { result ≡ [] }
    {
        DeclaredKeys {
            list: Vec::new(alloc),
            found: HashSet::new(alloc),
            counts: [0; 9],
        }
    }

    pub(crate) fn all(&self) -> &[Declared]
        ensures { result.now ≡ self.now }
    {
        &self.list
    }

    /// Whether the manager has this key.
    pub(crate) fn has(&self, manager: u32, key: &Key) -> bool
        ensures { result ≡ has_key manager key.now self.now }
    {
        self.found.contains(&(manager, *key))
    }

    /// How many keys the manager has, none where there is no such manager.
    pub(crate) fn count(&self, manager: u32) -> usize
        ensures { result ≡ key_count manager self.now }
    {
        self.counts.get(manager as usize).copied().unwrap_or(0)
    }

    pub(crate) fn add(&mut self, declared: Declared) -> Result<(), AllocError>
        requires { IsUpTo MOST_MANAGERS declared.manager }
        ensures ok { OnOk result (self.new ≡ self.old ++ declared ∷ []) }
        ensures err { OnErr result (self.new ≡ self.old) }
    {
        let (manager, key) = (declared.manager, declared.key);
        self.found.reserve(1)?;
        self.list.push(declared)?;
        // There is room for it.
        let inserted: Result<_, _> = self.found.insert((manager, key));
        let _ = inserted.unwrap();
        self.counts[manager as usize] += 1;
        Ok(())
    }
}

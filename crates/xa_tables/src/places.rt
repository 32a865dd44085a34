//! Where each declared key stands among the accounts.
ghost use Rattle.std.specs.Prelude.{◌≡◌, ◌≤◌, ◌<◌, ◌+◌, IfOk};
ghost use Rattle.std.specs.FinMap as map;

use std::alloc::{AllocError, Global};
use std::collections::HashMap;
use std::marker::Model;
use xa_words::Key;

/// The place of each key, with room for as many more as were asked for.
#[derive(Drop)]
pub(crate) struct Places {
    places: HashMap<Key, usize>,
}

impl Model for Places {
    ghost use Rattle.xa_tables.specs.Views.{PlaceTable, place_table_code};
    ghost use Rattle.std.specs.FinMap.{from_entries};
    ghost use Rattle.std.specs.HashMap.{spare};

    ghost Value = { PlaceTable };

    ghost coded = { place_table_code };

    ghost view = { λ p. record { places = from_entries p.places.entries; spare = spare p.places } };
}

impl Places {
    /// No key, and room for this many.
    #[inline(always)]
    pub(crate) fn new(alloc: Global, room: usize) -> Result<Places, AllocError>
        ensures empty { IfOk result (λ p. p.places ≡ map.empty) }
        ensures room { IfOk result (λ p. room ≤ p.spare) }
    {
        Ok(Places {
            places: HashMap::with_capacity(alloc, room)?,
        })
    }

    /// The place of a key, and `None` where it has none.
    #[inline(always)]
    pub(crate) fn get(&self, key: &Key) -> Option<usize>
        ensures { result ≡ map.get self.now.places key.now }
    {
        self.places.get(key).copied()
    }

    /// Puts a key at a place, in memory that `new` reserved.
    #[inline(always)]
    pub(crate) fn put(&mut self, key: Key, place: usize)
        requires { 0 < self.old.spare }
        ensures places { self.new.places ≡ map.insert self.old.places key place }
        ensures room { self.old.spare ≤ self.new.spare + 1 }
    {
        let inserted: Result<_, _> = self.places.insert(key, place);
        let _ = inserted.unwrap();
    }
}

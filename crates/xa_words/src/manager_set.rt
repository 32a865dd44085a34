//! Sets of managers.
ghost use Rattle.std.specs.Prelude.{◌≡◌, false, length};
ghost use Rattle.xa_base.specs.Lists.{IsUpTo};
ghost use Rattle.xa_base.specs.declared.limits.TheConstants.{MOST_MANAGERS};
ghost use Rattle.xa_words.specs.ManagerSet.{is_in, managers_of_set, set_of, with_manager};

use std::marker::Model;
use xa_base::MOST_MANAGERS;

/// A set of managers, 1 to 8.
#[derive(Clone, Copy, Debug, PartialEq, Eq)]
pub struct ManagerSet {
    // Place m - 1 for manager m.
    places: [bool; MOST_MANAGERS],
}

impl Model for ManagerSet {
    ghost use Rattle.std.specs.Prelude.{Bool, List};

    ghost Value = { List Bool };

    ghost view = { λ s. s.places };

    ghost inverse = { λ places. record { places = places } };
}

impl ManagerSet {
    /// No manager.
    pub fn new() -> ManagerSet
        ensures { result ≡ set_of (λ m. false) }
    {
        ManagerSet {
            places: [false; MOST_MANAGERS],
        }
    }

    /// The managers that these places tell of: place m - 1 for manager m.
    pub fn of(places: [bool; MOST_MANAGERS]) -> ManagerSet
        ensures { result ≡ places }
    {
        ManagerSet { places }
    }

    /// The managers for which the test answers true.
    pub fn from_fn<F: Fn(u32) -> bool>(test: F) -> ManagerSet
        requires { (m : _) → IsUpTo MOST_MANAGERS m → F.pre test m }
        ensures asked { (m : _) → IsUpTo MOST_MANAGERS m → F.post test m (is_in result m) }
        ensures places { result ≡ set_of (is_in result) }
    {
        let mut places = [false; MOST_MANAGERS];
        for place in 0..MOST_MANAGERS {
            places[place] = test(place as u32 + 1);
        }
        ManagerSet { places }
    }

    /// What holds of every set: it tells of 8 managers. A law: nothing is done.
    pub fn tells_of_all(&self)
        ensures { length self.now ≡ MOST_MANAGERS }
    {
        let _inside = &self.places;
    }

    /// The managers that are in it, by rising number.
    pub fn iter(&self) -> Managers
        ensures { result ≡ managers_of_set self.now }
    {
        Managers {
            set: *self,
            last: 0,
        }
    }

    /// Whether the manager is in it.
    pub fn contains(&self, manager: u32) -> bool
        ensures { result ≡ is_in self.now manager }
    {
        match self.places.get(manager.wrapping_sub(1) as usize) {
            Some(is_in) => *is_in,
            None => false,
        }
    }

    /// Puts a manager into it, which may be there already.
    pub fn add(&mut self, manager: u32)
        requires { IsUpTo MOST_MANAGERS manager }
        ensures { self.new ≡ with_manager manager self.old }
    {
        self.places[manager as usize - 1] = true;
    }
}

/// The managers of a set that are still to come, by rising number. Contracts see it as their list.
#[derive(Drop)]
pub struct Managers {
    set: ManagerSet,
    // The one that was looked at last; 0 where none was.
    last: u32,
}

impl Model for Managers {
    ghost use Rattle.std.specs.Prelude.{◌≤◌, List, ℕ};
    ghost use Rattle.xa_base.specs.declared.limits.TheConstants.{MOST_MANAGERS};
    ghost use Rattle.xa_words.specs.ManagerSet.{managers_above};

    ghost Value = { List ℕ };

    ghost view = { λ it. managers_above it.last it.set };

    ghost invariant = { λ it. it.last ≤ MOST_MANAGERS };
}

impl Iterator for Managers {
    type Item = u32;

    ghost use Rattle.std.specs.Iterator.{YieldsFirst, item_count};

    ghost next_gives = { YieldsFirst (λ rest. rest) };

    ghost remaining = { item_count (λ rest. rest) };

    fn next(&mut self) -> Option<u32> {
        while self.last < MOST_MANAGERS as u32 {
            self.last += 1;
            if self.set.contains(self.last) {
                return Some(self.last);
            }
        }
        None
    }
}

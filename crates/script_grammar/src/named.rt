//! The managers of a commit, taken one by one.
ghost use Rattle.std.specs.Prelude.{◌≡◌, ◌≤◌, ◌&&◌, nat_lt, nat_le, ℕ, List, ◌∷◌, []};

use crate::fault::Reason;
use xa_words::ManagerSet;

// The managers that a line names so far.
#[derive(Clone, Copy)]
pub(crate) struct Named {
    // How many managers there are.
    count: u32,
    // The one that was named last; 0 where none was.
    last: u32,
    // Whether each so far is a manager that there is, above the one before it.
    rising: bool,
    managers: ManagerSet,
    ghost few: { count ≤ 8 },
}

impl Named {
    ghost use Rattle.script_grammar.specs.Commits.{rising_branches, goes_on};

    pub(crate) fn new(count: u32) -> Named
        requires { count ≤ 8 }
        ensures { (ms : List ℕ) → goes_on result ms ≡ rising_branches count ms }
    {
        Named {
            count,
            last: 0,
            rising: true,
            managers: ManagerSet::new(),
        }
    }

    // Whether all are rising with this one after them.
    fn may_add(&self, manager: u32) -> bool
        ensures { result ≡ (self.now.rising && (nat_lt self.now.last manager && nat_le manager self.now.count)) }
    {
        self.rising && self.last < manager && manager <= self.count
    }

    pub(crate) fn add(&mut self, manager: u32)
        ensures { (ms : List ℕ) → goes_on self.new ms ≡ goes_on self.old (manager ∷ ms) }
    {
        self.rising = self.may_add(manager);
        self.last = manager;
        if self.rising {
            self.managers.add(manager);
        }
    }

    // Where the branches are, if no more managers are named.
    pub(crate) fn managers(self) -> Result<ManagerSet, Reason>
        ensures { result ≡ goes_on self [] }
    {
        if !self.rising {
            return Err(Reason::BadBranches);
        }
        Ok(self.managers)
    }
}

//! Marks on places, a bit for each.
ghost use Rattle.std.specs.Prelude.{◌≡◌, ◌≢◌, ◌<◌, ◌≤◌, ◌||◌, ℕ, suc, IfSome, IfNone, true, false};
ghost use Rattle.xa_desk.specs.DeskViews.{IsLeast};
ghost use Rattle.xa_desk.specs.Marks.{is_marked};

/// Which of the places from 0 to 63 are marked.
#[derive(Clone, Copy)]
pub(crate) struct Marks {
    bits: u64,
}

impl Marks {
    /// No place is marked.
    pub(crate) fn none() -> Marks
        ensures { (k : ℕ) → is_marked result k ≡ false }
    {
        Marks { bits: 0 }
    }

    /// Marks a place.
    #[inline(always)]
    pub(crate) fn mark(&mut self, place: u32)
        requires { place < 64 }
        ensures marked { is_marked self.new place ≡ true }
        ensures others { (k : ℕ) → k ≢ place → is_marked self.new k ≡ is_marked self.old k }
    {
        self.bits |= 1 << place;
    }

    /// Marks a place if the test holds.
    #[inline(always)]
    pub(crate) fn mark_if(&mut self, test: bool, place: u32)
        requires { place < 64 }
        ensures marked { is_marked self.new place ≡ (test || is_marked self.old place) }
        ensures others { (k : ℕ) → k ≢ place → is_marked self.new k ≡ is_marked self.old k }
    {
        if test {
            self.mark(place);
        }
    }

    /// Marks the place of a number from 1; none for 0.
    #[inline(always)]
    pub(crate) fn mark_number(&mut self, number: u32)
        requires { number ≤ 64 }
        ensures marked { (k : ℕ) → number ≡ suc k → is_marked self.new k ≡ true }
        ensures others { (k : ℕ) → number ≢ suc k → is_marked self.new k ≡ is_marked self.old k }
    {
        if number > 0 {
            self.mark(number - 1);
        }
    }

    /// Takes the mark from a place.
    #[inline(always)]
    pub(crate) fn clear(&mut self, place: u32)
        requires { place < 64 }
        ensures cleared { is_marked self.new place ≡ false }
        ensures others { (k : ℕ) → k ≢ place → is_marked self.new k ≡ is_marked self.old k }
    {
        let bits = self.bits;
        self.bits = bits & !(1 << place);
    }

    /// The first marked place.
    #[inline(always)]
    pub(crate) fn first(self) -> Option<u32>
        ensures found { IfSome result (IsLeast (is_marked self)) }
        ensures absent { IfNone result ((k : ℕ) → is_marked self k ≡ false) }
    {
        if self.bits == 0 {
            return None;
        }
        Some(self.bits.trailing_zeros())
    }

    /// The first place that isn't marked.
    #[inline(always)]
    pub(crate) fn first_clear(self) -> u32
        requires { is_marked self 63 ≡ false }
        ensures clear { is_marked self result ≡ false }
        ensures marked { (k : ℕ) → k < result → is_marked self k ≡ true }
    {
        self.bits.trailing_ones()
    }
}

ghost use Rattle.std.specs.Prelude.{◌≡◌, ◌<◌, ℕ, List, length, slice_index};

/// What may stand in the slot of a turn. It keeps what was promised of it when the turn was made, and has a count for
/// each of the six seats.
pub trait Holder<P>: Drop {
    // It is as was promised.
    ghost keeps: { P → Self → Type 0 };

    // What each seat did to it.
    ghost counts: { Self → List ℕ };

    /// A seat's count.
    fn count(&self, seat: u64) -> u64
        requires { seat < 6 }
        ensures { result ≡ slice_index (counts self.now) seat };

    ghost six_counts: { (h : Self) → length (counts h) ≡ 6 };
}

ghost use Rattle.std.specs.Prelude.{ℕ, Option};

/// A call of the outside failed.
#[derive(Clone, Copy, Debug, PartialEq, Eq)]
pub struct Failed;

/// What counts the faults that it gave. `allowance` is the number of faults that it may still give,
/// where that is told: no call raises it, and a call that fails lowers it.
pub trait Faulty {
    ghost faults: { Self → ℕ };

    ghost allowance: { Self → Option ℕ };
}

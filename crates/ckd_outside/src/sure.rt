ghost use Rattle.std.specs.Prelude.{◌≡◌, Some};

use crate::{Failed, Faulty, Source};
use std::marker::Model;

/// What can give no fault any more. It is seen as what it stands over, and its count of faults is 0.
#[derive(Drop)]
pub struct NeverFails<T: Faulty> {
    inner: T,
}

impl<T: Faulty> Model for NeverFails<T> {
    ghost use Rattle.std.specs.Prelude.{◌≡◌, Some};

    ghost Value = { T };

    ghost view = { λ s. s.inner };

    ghost invariant = { λ s. T.allowance s.inner ≡ Some 0 };
}

impl<T: Faulty> NeverFails<T> {
    /// What has no fault left to give: a `MemSource` with none listed that is still to come.
    pub fn new(inner: T) -> NeverFails<T>
        requires sure { T.allowance inner ≡ Some 0 }
        ensures { result ≡ inner }
    {
        NeverFails { inner }
    }
}

impl<T: Faulty> Faulty for NeverFails<T> {
    ghost faults = { λ _. 0 };

    ghost allowance = { λ _. Some 0 };
}

impl<T: Source> Source for NeverFails<T> {
    ghost left = { λ s. T.left s };

    fn read(&mut self, into: &mut [u8]) -> Result<usize, Failed> {
        self.inner.read(into)
    }
}

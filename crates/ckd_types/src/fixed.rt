ghost use Rattle.std.specs.Prelude.{◌≡◌, ◌≤◌};

use crate::Geometry;
use std::marker::Model;

/// What of a device stays while a program runs: its geometry, its cylinders (1 to 4369), and the number
/// of its cache fast write data.
#[derive(Clone, Copy, Debug, PartialEq, Eq)]
pub struct FixedData {
    geometry: Geometry,
    cylinders: u16,
    number: u16,
}

impl Model for FixedData {
    ghost use Rattle.std.specs.Prelude.{◌≤◌};
    ghost use Rattle.ckd_types.specs.Fixed.{Fixed};

    ghost Value = { Fixed };

    ghost view = { λ f. record { geometry = f.geometry; cylinders = f.cylinders; number = f.number } };

    ghost invariant = { λ f. (1 ≤ f.cylinders) × (f.cylinders ≤ 4369) };

    ghost inverse = { λ f. record { geometry = f.geometry; cylinders = f.cylinders; number = f.number } };
}

impl FixedData {
    /// The fixed data of a device of 1 to 4369 cylinders.
    pub fn new(geometry: Geometry, cylinders: u16, number: u16) -> FixedData
        requires some { 1 ≤ cylinders }
        requires most { cylinders ≤ 4369 }
        ensures { result ≡ record { geometry = geometry; cylinders = cylinders; number = number } }
    {
        FixedData {
            geometry,
            cylinders,
            number,
        }
    }

    /// The model that the device is.
    pub fn geometry(&self) -> Geometry
        ensures { result ≡ self.now.geometry }
    {
        self.geometry
    }

    /// How many cylinders it has, of fifteen tracks each.
    pub fn cylinders(&self) -> u16
        ensures value { result ≡ self.now.cylinders }
        ensures some { 1 ≤ result }
        ensures most { result ≤ 4369 }
    {
        self.cylinders
    }

    /// The number of its cache fast write data, that extents of provisional writes give.
    pub fn number(&self) -> u16
        ensures { result ≡ self.now.number }
    {
        self.number
    }
}

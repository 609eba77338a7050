//! A volume that is wanted.

ghost use Rattle.std.specs.Prelude.{◌≤◌};

/// What makes a volume of so many cylinders, whose tracks are empty. None of its calls fails.
#[derive(Drop)]
pub(crate) struct NewVolume {
    pub cylinders: u16,
    pub ghost most: { cylinders ≤ 4369 },
}

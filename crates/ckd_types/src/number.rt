ghost use Rattle.std.specs.Prelude.{◌≡◌, ◌<◌, ◌≤◌, ◌↔◌, IsSome, IfSome};

use std::marker::Model;

/// A device of a subsystem, 0 to 15 (own: a 3990 has more).
#[derive(Clone, Copy, Debug, PartialEq, Eq)]
pub struct DeviceNo(u8);

impl Model for DeviceNo {
    ghost use Rattle.std.specs.Prelude.{ℕ, ◌<◌};

    ghost Value = { ℕ };

    ghost view = { λ d. d.0 };

    ghost invariant = { λ d. d.0 < 16 };

    ghost inverse = { λ n. record { 0 = n } };
}

impl DeviceNo {
    /// The device of a number, or none from 16 on.
    pub fn new(n: u8) -> Option<DeviceNo>
        ensures made { IsSome result ↔ (n < 16) }
        ensures value { IfSome result (λ d. d ≡ n) }
    {
        if n < 16 { Some(DeviceNo(n)) } else { None }
    }

    /// Its number.
    pub fn get(&self) -> u8
        ensures value { result ≡ self.now }
        ensures range { result < 16 }
    {
        self.0
    }
}

/// A channel path, 1 to 4 (own).
#[derive(Clone, Copy, Debug, PartialEq, Eq)]
pub struct PathNo(u8);

impl Model for PathNo {
    ghost use Rattle.std.specs.Prelude.{ℕ, ◌≤◌};

    ghost Value = { ℕ };

    ghost view = { λ p. p.0 };

    ghost invariant = { λ p. (1 ≤ p.0) × (p.0 ≤ 4) };

    ghost inverse = { λ n. record { 0 = n } };
}

impl PathNo {
    /// The path of a number, or none.
    pub fn new(n: u8) -> Option<PathNo>
        ensures made { IsSome result ↔ ((1 ≤ n) × (n ≤ 4)) }
        ensures value { IfSome result (λ p. p ≡ n) }
    {
        if 1 <= n && n <= 4 {
            Some(PathNo(n))
        } else {
            None
        }
    }

    /// The path of a number that is a path's.
    pub fn of(number: u8) -> PathNo
        requires least { 1 ≤ number }
        requires most { number ≤ 4 }
        ensures { result ≡ number }
    {
        PathNo(number)
    }

    /// Its number.
    pub fn get(&self) -> u8
        ensures value { result ≡ self.now }
        ensures least { 1 ≤ result }
        ensures most { result ≤ 4 }
    {
        self.0
    }
}

/// A track of a device, 0 to 65534: its cylinder times 15, and its head.
#[derive(Clone, Copy, Debug, PartialEq, Eq)]
pub struct TrackNo(u16);

impl Model for TrackNo {
    ghost use Rattle.std.specs.Prelude.{ℕ, ◌<◌};

    ghost Value = { ℕ };

    ghost view = { λ t. t.0 };

    ghost invariant = { λ t. t.0 < 65535 };

    ghost inverse = { λ n. record { 0 = n } };
}

impl TrackNo {
    /// The track of a number, or none from 65535 on. Whether a volume has it, its cylinders say.
    pub fn new(n: u16) -> Option<TrackNo>
        ensures made { IsSome result ↔ (n < 65535) }
        ensures value { IfSome result (λ t. t ≡ n) }
    {
        if n < 65535 { Some(TrackNo(n)) } else { None }
    }

    /// Its number.
    pub fn get(&self) -> u16
        ensures value { result ≡ self.now }
        ensures range { result < 65535 }
    {
        self.0
    }
}

ghost use Rattle.std.specs.Prelude.{⊤, ◌≡◌, [], ◌∷◌, codes};
ghost use Rattle.ckd_types.specs.Status.{has_unit_check, has_unit_exception, has_status_modifier};

use bitflags::{Flag, Flags, bitflag_items};

/// The unit status of a command's end: IBM's eight bits.
#[derive(Clone, Copy, PartialEq, Eq, Debug)]
pub struct UnitStatus(pub u8);

bitflag_items! {
    impl UnitStatus: u8 {
        const ATTENTION = 0x80;
        const STATUS_MODIFIER = 0x40;
        const CONTROL_UNIT_END = 0x20;
        const BUSY = 0x10;
        const CHANNEL_END = 0x08;
        const DEVICE_END = 0x04;
        const UNIT_CHECK = 0x02;
        const UNIT_EXCEPTION = 0x01;
    }
}

impl Flags for UnitStatus {
    type Bits = u8;

    ghost exact = { ⊤ };

    ghost table = { (codes "ATTENTION", 0x80) ∷ (codes "STATUS_MODIFIER", 0x40) ∷ (codes "CONTROL_UNIT_END", 0x20) ∷ (codes "BUSY", 0x10) ∷ (codes "CHANNEL_END", 8) ∷ (codes "DEVICE_END", 4) ∷ (codes "UNIT_CHECK", 2) ∷ (codes "UNIT_EXCEPTION", 1) ∷ [] };

    ghost set_of = { λ p. p.0 };

    fn flags<'a>() -> &'a [Flag<UnitStatus>] {
        UnitStatus::FLAGS
    }

    fn bits(&self) -> u8 {
        self.0
    }

    fn from_bits_retain(bits: u8) -> UnitStatus {
        UnitStatus(bits)
    }
}

impl UnitStatus {
    /// Channel end and device end: the command was done.
    pub fn normal() -> UnitStatus
        ensures { result ≡ record { 0 = 0x0c } }
    {
        UnitStatus::CHANNEL_END.union(UnitStatus::DEVICE_END)
    }

    /// The end of a command that is done and skips the next one: a search was satisfied.
    pub fn satisfied() -> UnitStatus
        ensures { result ≡ record { 0 = 0x4c } }
    {
        UnitStatus::normal().union(UnitStatus::STATUS_MODIFIER)
    }

    /// The end of a command that met an end of file.
    pub fn exception() -> UnitStatus
        ensures { result ≡ record { 0 = 0x0d } }
    {
        UnitStatus::normal().union(UnitStatus::UNIT_EXCEPTION)
    }

    /// The end of every command that was refused or failed.
    pub fn check() -> UnitStatus
        ensures { result ≡ record { 0 = 0x0e } }
    {
        UnitStatus::normal().union(UnitStatus::UNIT_CHECK)
    }

    /// The command was refused or failed.
    pub fn has_unit_check(self) -> bool
        ensures { result ≡ has_unit_check self }
    {
        self.contains(UnitStatus::UNIT_CHECK)
    }

    /// The command met an end of file.
    pub fn has_unit_exception(self) -> bool
        ensures { result ≡ has_unit_exception self }
    {
        self.contains(UnitStatus::UNIT_EXCEPTION)
    }

    /// A search was satisfied, so the chain skips a word.
    pub fn has_status_modifier(self) -> bool
        ensures { result ≡ has_status_modifier self }
    {
        self.contains(UnitStatus::STATUS_MODIFIER)
    }
}

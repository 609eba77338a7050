use ckd_ccw::Program;
use ckd_types::{DeviceNo, Geometry, NoMemory, PathNo};
use std::alloc::{AllocError, AllocFailed};

/// Why a line is refused: the first reason that applies, in this order. A program of channel command
/// words that is none is `Program`. A text that ends before EVENTS is `Unfinished` at the line behind
/// its last.
#[derive(Clone, Copy, Debug, PartialEq, Eq)]
pub enum DeckWhy {
    Byte,
    Word,
    Order,
    Words,
    Number,
    Hex,
    Program,
    Unfinished,
}

/// A limit that a deck passes.
#[derive(Clone, Copy, Debug, PartialEq, Eq)]
pub enum Which {
    Size,
    Programs,
    Events,
    Faults,
}

/// Why a text is no deck: the first line that is refused, counted from 1, or a limit.
#[derive(Clone, Copy, Debug, PartialEq, Eq)]
pub enum DeckFault {
    Refused { line: u32, why: DeckWhy },
    Limit(Which),
    NoMemory,
}

impl From<NoMemory> for DeckFault {
    ghost use Rattle.std.specs.Prelude.{◌≡◌};
    ghost use Rattle.deck_text.specs.declared.line.DeckFault.TheVariants.{NoMemory as no_memory};

    ghost from_gives = { λ _ e. e ≡ no_memory };

    fn from(_: NoMemory) -> Self {
        DeckFault::NoMemory
    }
}

impl From<AllocError> for DeckFault {
    ghost use Rattle.std.specs.Prelude.{◌≡◌};
    ghost use Rattle.deck_text.specs.declared.line.DeckFault.TheVariants.{NoMemory as no_memory};

    ghost from_gives = { λ _ e. e ≡ no_memory };

    fn from(_: AllocError) -> Self {
        DeckFault::NoMemory
    }
}

impl<T: Drop> From<AllocFailed<T>> for DeckFault {
    ghost use Rattle.std.specs.Prelude.{◌≡◌};
    ghost use Rattle.deck_text.specs.declared.line.DeckFault.TheVariants.{NoMemory as no_memory};

    ghost from_gives = { λ _ e. e ≡ no_memory };

    fn from(_: AllocFailed<T>) -> Self {
        DeckFault::NoMemory
    }
}

/// A DEVICE line.
#[derive(Clone, Copy, Debug, PartialEq, Eq)]
pub struct DeviceLine {
    pub number: DeviceNo,
    pub geometry: Geometry,
    pub cylinders: u16,
}

/// A FAULT line: the call of this number, counted from 1, fails among the reads, or among the writes,
/// of the volume that is made for the device.
#[derive(Clone, Copy, Debug, PartialEq, Eq)]
pub struct FaultLine {
    pub device: DeviceNo,
    pub write: bool,
    pub call: u32,
}

/// A PROGRAM line with its CCW lines.
#[derive(Debug, Drop)]
pub struct PlannedProgram {
    pub path: PathNo,
    pub device: DeviceNo,
    pub program: Program,
}

ghost use Rattle.std.specs.Prelude.{◌≡◌, IfOk};
ghost use Rattle.ckd_types.specs.Ccw.{is_chained, suppresses_length, skips, is_transfer};

use crate::{Bytes, Growing, NoMemory, Sense, UnitStatus};
use std::alloc::Global;

/// A channel command word: its command code and flags (IBM's), its count in bytes, and the bytes given to
/// the device, zeros standing for those that are missing up to the count. In a transfer in channel the count
/// is the index of the word that follows (own: a deck has no addresses).
#[derive(Debug, Drop)]
pub struct Ccw {
    pub command: u8,
    pub flags: u8,
    pub count: u16,
    pub given: Bytes,
}

impl Ccw {
    /// Command chaining: the next word follows.
    pub const CHAIN: u8 = 0x40;

    /// Suppress length indication: a count that differs from the area is no incorrect length.
    pub const SUPPRESS_LENGTH: u8 = 0x20;

    /// Skip: what a command sends isn't kept. It changes nothing at other commands.
    pub const SKIP: u8 = 0x10;

    /// The code of a transfer in channel.
    pub const TRANSFER: u8 = 0x08;

    /// The chain goes on behind this word.
    pub fn is_chained(&self) -> bool
        ensures { result ≡ is_chained self.now }
    {
        self.flags & Ccw::CHAIN != 0
    }

    /// No incorrect length is noted.
    pub fn suppresses_length(&self) -> bool
        ensures { result ≡ suppresses_length self.now }
    {
        self.flags & Ccw::SUPPRESS_LENGTH != 0
    }

    /// The bytes are counted, and none are kept as sent.
    pub fn skips(&self) -> bool
        ensures { result ≡ skips self.now }
    {
        self.flags & Ccw::SKIP != 0
    }

    /// It is a transfer in channel, which is no command.
    pub fn is_transfer(&self) -> bool
        ensures { result ≡ is_transfer self.now }
    {
        self.command == Ccw::TRANSFER
    }

    /// The same word in memory of its own.
    pub fn copy(&self, alloc: Global) -> Result<Ccw, NoMemory>
        ensures { IfOk result (λ made. made ≡ self.now) }
    {
        Ok(Ccw {
            command: self.command,
            flags: self.flags,
            count: self.count,
            given: self.given.copy(alloc)?,
        })
    }
}

/// Why a list of channel command words is no program, in the order in which a word's reasons are looked for.
/// Own, but for what IBM's program check covers.
#[derive(Clone, Copy, Debug, PartialEq, Eq)]
pub enum Why {
    /// It has no words.
    Empty,
    /// It has more than 256 words.
    TooLong,
    /// The code's low digit is 0, or it is 8 and the code isn't 08.
    BadCommand,
    /// A flag is neither chaining, suppress length nor skip.
    BadFlags,
    /// The first word is a transfer.
    TicFirst,
    /// A transfer leads to no word.
    Target,
    /// A transfer leads to a transfer.
    TicToTic,
    /// The count is zero, at a command.
    ZeroCount,
    /// More bytes are given than the count, or any to a transfer.
    TooMuchData,
    /// A read or a sense is given bytes.
    DataOnInput,
    /// The word behind a chained one isn't there, or the second behind a chained search.
    PastEnd,
}

/// What is noted at a command's end: nothing, IBM's incorrect length, or that the chain met a limit (own).
#[derive(Clone, Copy, Debug, PartialEq, Eq)]
pub enum Note {
    Plain,
    IncorrectLength,
    Limit,
}

/// How a command ended: the index of its word from 0 on, its status, its residual count in bytes, the bytes
/// that it sent (none where they are skipped), its sense where it has unit check, and whether the program is
/// over with it.
#[derive(Debug, Drop)]
pub struct CommandEnd {
    pub index: u16,
    pub status: UnitStatus,
    pub residual: u16,
    pub note: Note,
    pub sent: Bytes,
    pub sense: Option<Sense>,
    pub over: bool,
}

impl CommandEnd {
    /// The same end in memory of its own.
    pub fn copy(&self, alloc: Global) -> Result<CommandEnd, NoMemory>
        ensures { IfOk result (λ made. made ≡ self.now) }
    {
        Ok(CommandEnd {
            index: self.index,
            status: self.status,
            residual: self.residual,
            note: self.note,
            sent: self.sent.copy(alloc)?,
            sense: self.sense,
            over: self.over,
        })
    }
}

/// The ends of a program's commands.
pub type EndList = Growing<CommandEnd>;

ghost use Rattle.std.specs.Prelude.{◌≡◌, ◌≤◌, ◌<◌, List, ℕ, Option, length, IfOk, IfErr, OnOk, OnErr, IsErrOf};
ghost use Rattle.std.specs.Io.{ReadsAtMost};
ghost use Rattle.std.specs.Io.KnownBytes.{Consumes, IsAtEnd, ReadConsumes};
ghost use Rattle.ckd_outside.specs.Causes.{Rose, HasCause, Spends, IsKept, IsLowered};
ghost use Rattle.ckd_outside.specs.Texts.{ConsumesSome};

use crate::{Failed, Faulty};
use std::alloc::{AllocError, Global};

/// A source of bytes. What is left may be told or not.
pub trait Source: Faulty {
    ghost left: { Self → Option (List ℕ) };

    /// Reads into the front of a buffer, and answers how many bytes. None are read only at the end,
    /// or where the buffer has no room.
    fn read(&mut self, into: &mut [u8]) -> Result<usize, Failed>
        ensures bound { ReadsAtMost result into.new }
        ensures bytes { ReadConsumes (left self.old) (left self.new) result into.new }
        ensures cause { HasCause (Self.faults self.old) (Self.faults self.new) result }
        ensures calm { OnOk result (Self.faults self.new ≡ Self.faults self.old) }
        ensures spends { Spends (Self.allowance self.old) (Self.allowance self.new) result };
}

/// Why a text was not read.
#[derive(Clone, Copy, Debug, PartialEq, Eq)]
pub enum ReadError {
    /// The source failed.
    Failed,
    /// There was no room for the text.
    NoMemory,
}

impl From<AllocError> for ReadError {
    ghost use Rattle.std.specs.Prelude.{◌≡◌};
    ghost use Rattle.ckd_outside.specs.declared.source.ReadError.TheVariants.{NoMemory};

    ghost from_gives = { λ _ e. e ≡ NoMemory };

    fn from(_: AllocError) -> Self {
        ReadError::NoMemory
    }
}

impl From<Failed> for ReadError {
    ghost use Rattle.std.specs.Prelude.{◌≡◌};
    ghost use Rattle.ckd_outside.specs.declared.source.ReadError.TheVariants.{Failed as failed};

    ghost from_gives = { λ _ e. e ≡ failed };

    fn from(_: Failed) -> Self {
        ReadError::Failed
    }
}

// As many bytes as one read asks for: a whole track.
const PIECE: usize = 65_536;

/// Reads to the end of the source, or until there are `most` bytes. An answer other than `Failed` says that no
/// read failed. At a fault what was read is lost.
pub fn read_up_to<S: Source>(
    alloc: Global,
    source: &mut S,
    most: usize,
) -> Result<Vec<u8>, ReadError>
    ensures text { IfOk result (λ text. Consumes (S.left source.old) (S.left source.new) text.items) }
    ensures bound { IfOk result (λ text. length text.items ≤ most) }
    ensures end { IfOk result (λ text. length text.items < most → IsAtEnd (S.left source.new)) }
    ensures part { OnErr result (ConsumesSome (S.left source.old) (S.left source.new) most) }
    ensures later { S.faults source.old ≤ S.faults source.new }
    ensures failed { IsErrOf result ReadError.Failed → Rose (S.faults source.old) (S.faults source.new) }
    ensures calm { OnOk result (S.faults source.new ≡ S.faults source.old) }
    ensures want { IsErrOf result ReadError.NoMemory → S.faults source.new ≡ S.faults source.old }
    ensures kept { IsKept (S.allowance source.old) (S.allowance source.new) }
    ensures lowered { IsErrOf result ReadError.Failed → IsLowered (S.allowance source.old) (S.allowance source.new) }
{
    let mut text = Vec::new(alloc);
    let mut buffer = [0; PIECE];
    while text.len() < most {
        let room = PIECE.min(most - text.len());
        let count = source.read(&mut buffer[..room])?;
        if count == 0 {
            return Ok(text);
        }
        text.extend_from_slice(&buffer[..count])?;
    }
    Ok(text)
}

ghost use Rattle.std.specs.Prelude.{◌≡◌, [], IfOk, OnOk};
ghost use Rattle.ckd_read.specs.Sending.{Takes};

use ckd_types::{Bytes, NoMemory};
use std::alloc::Global;

/// What a read sends of its area: the bytes so far, and how many more its count reaches.
#[derive(Debug, Drop)]
pub struct Sending {
    pub bytes: Vec<u8>,
    pub left: usize,
}

impl Sending {
    /// Has room for all that a count reaches of an area of so many bytes.
    pub fn new(alloc: Global, count: usize, area: usize) -> Result<Sending, NoMemory>
        ensures bytes { IfOk result (λ made. made.bytes.items ≡ []) }
        ensures left { IfOk result (λ made. made.left ≡ count) }
    {
        Ok(Sending {
            bytes: Vec::with_capacity(alloc, count.min(area))?,
            left: count,
        })
    }

    /// Sends as much of the next piece of the area as the count reaches.
    pub fn put(&mut self, piece: &[u8]) -> Result<(), NoMemory>
        ensures { OnOk result (Takes self.old self.new piece.now) }
    {
        let count = piece.len().min(self.left);
        self.bytes.extend_from_slice(&piece[..count])?;
        self.left -= count;
        Ok(())
    }

    /// All that was sent.
    pub fn into_bytes(self) -> Bytes
        ensures { result ≡ self.bytes.items }
    {
        Bytes::from_vec(self.bytes)
    }
}

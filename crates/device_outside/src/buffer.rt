ghost use Rattle.std.specs.Prelude.{◌≡◌, ◌≤◌, [], IfOk, length};

use ckd_types::NoMemory;
use std::alloc::Global;
use std::marker::Model;

/// The most bytes of a track.
const MOST: usize = 65536;

/// The bytes of one track, at most 65,536. Contracts see them as a list.
#[derive(Debug, Drop)]
pub struct TrackBuffer {
    bytes: Vec<u8>,
}

impl Model for TrackBuffer {
    ghost use Rattle.std.specs.Prelude.{ℕ, List, ◌≤◌, vec_len, vec_capacity};

    ghost Value = { List ℕ };

    ghost view = { λ b. b.bytes.items };

    ghost invariant = { λ b. (vec_len b.bytes ≤ 65536) × (65536 ≤ vec_capacity b.bytes) };
}

impl TrackBuffer {
    /// No bytes, and room for as many as a track has. No other call takes memory.
    pub fn new(alloc: Global) -> Result<TrackBuffer, NoMemory>
        ensures { IfOk result (λ made. made ≡ []) }
    {
        let bytes = Vec::with_capacity(alloc, MOST)?;
        Ok(TrackBuffer { bytes })
    }

    /// The bytes of the track that was read last: as many as the volume handed over, whether they are a track's or not.
    pub fn bytes(&self) -> &[u8]
        ensures bytes { result.now ≡ self.now }
        ensures most { length result.now ≤ 65536 }
    {
        &self.bytes
    }

    /// Other bytes in place of these.
    pub fn set(&mut self, bytes: &[u8])
        requires { length bytes.now ≤ 65536 }
        ensures { self.new ≡ bytes.now }
    {
        self.bytes.clear();
        self.bytes.extend_from_slice(bytes).unwrap();
    }
}

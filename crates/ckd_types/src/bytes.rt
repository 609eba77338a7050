ghost use Rattle.std.specs.Prelude.{◌≡◌, ◌==◌, [], IsOk, IfOk, length, take};

use crate::NoMemory;
use std::alloc::Global;
use std::marker::Model;

/// A list of bytes, which takes no memory while it is empty.
#[derive(Debug, Drop)]
pub struct Bytes {
    items: Option<Vec<u8>>,
}

impl Model for Bytes {
    ghost use Rattle.std.specs.Prelude.{ℕ, List};

    ghost Value = { List ℕ };

    ghost use Rattle.ckd_types.specs.Held.{held_bytes};

    ghost view = { λ b. held_bytes b.items };
}

impl Bytes {
    /// No bytes. Takes no memory.
    pub fn new() -> Bytes
        ensures { result ≡ [] }
    {
        Bytes { items: None }
    }

    /// A copy of some bytes. No bytes take no memory.
    pub fn from_slice(alloc: Global, bytes: &[u8]) -> Result<Bytes, NoMemory>
        ensures made { IfOk result (λ made. made ≡ bytes.now) }
        ensures none { length bytes.now ≡ 0 → IsOk result }
    {
        if bytes.is_empty() {
            return Ok(Bytes::new());
        }
        let items = bytes.to_vec(alloc)?;
        Ok(Bytes { items: Some(items) })
    }

    /// The bytes of a vector, which is kept as it is.
    pub fn from_vec(items: Vec<u8>) -> Bytes
        ensures { result ≡ items.items }
    {
        Bytes { items: Some(items) }
    }

    /// All of them, in order.
    pub fn as_slice(&self) -> &[u8]
        ensures { result.now ≡ self.now }
    {
        match &self.items {
            Some(items) => items,
            None => &[],
        }
    }

    /// How many bytes there are.
    pub fn len(&self) -> usize
        ensures { result ≡ length self.now }
    {
        self.as_slice().len()
    }

    /// Whether there are none.
    pub fn is_empty(&self) -> bool
        ensures { result ≡ (length self.now == 0) }
    {
        self.as_slice().is_empty()
    }

    /// Writes as many other bytes over these. Takes no memory.
    pub fn overwrite(&mut self, bytes: &[u8])
        requires { length bytes.now ≡ length self.old }
        ensures { self.new ≡ bytes.now }
    {
        if let Some(items) = &mut self.items {
            items.as_mut_slice().copy_from_slice(bytes);
        }
    }

    /// The first bytes, at most this many. Takes no memory.
    pub fn cut_to(mut self, most: usize) -> Bytes
        ensures { result ≡ take most self }
    {
        if let Some(items) = &mut self.items {
            items.truncate(most);
        }
        self
    }

    /// The same bytes in memory of their own. No bytes take no memory.
    pub fn copy(&self, alloc: Global) -> Result<Bytes, NoMemory>
        ensures made { IfOk result (λ made. made ≡ self.now) }
        ensures none { length self.now ≡ 0 → IsOk result }
    {
        Bytes::from_slice(alloc, self.as_slice())
    }
}

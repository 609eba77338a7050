ghost use Rattle.std.specs.Prelude.{◌≡◌, ◌≤◌, ◌<◌, ◌+◌, ◌-◌, ◌↔◌, ◌⊎◌, [], Some, IfOk, IsErr, IsTrue, OnOk, length, min};
ghost use Rattle.std.specs.Io.{ReadsAtMost, WritesAtMost};
ghost use Rattle.std.specs.Io.KnownBytes.{ReadConsumes, WriteAppends};
ghost use Rattle.ckd_outside.specs.Causes.{HasCause, Spends};
ghost use Rattle.ckd_outside.specs.Memory.{one_more, is_next, to_come};

use crate::{Failed, Faulty, Sink, Source};
use ckd_types::NoMemory;
use std::alloc::Global;
use std::marker::Model;

/// Counts a call, and answers whether its number is listed. Past the greatest number none is.
fn is_next_listed(calls: &mut u32, numbers: &[u32]) -> bool
    ensures count { calls.new ≡ one_more calls.old }
    ensures listed { result ≡ is_next calls.old numbers.now }
    ensures kept { to_come calls.new numbers.now ≤ to_come calls.old numbers.now }
    ensures lowered { IsTrue result → to_come calls.new numbers.now < to_come calls.old numbers.now }
{
    if *calls == u32::MAX {
        return false;
    }
    *calls += 1;
    numbers.contains(calls)
}

/// A source over bytes in memory, of which the reads with listed numbers fail. For tests and trials.
#[derive(Drop)]
pub struct MemSource {
    bytes: Vec<u8>,
    at: usize,
    piece: usize,
    fail_reads: Vec<u32>,
    reads: u32,
    faults: u64,
}

impl Model for MemSource {
    ghost use Rattle.std.specs.Prelude.{◌≤◌, ◌<◌, drop, length};
    ghost use Rattle.ckd_outside.specs.Memory.{Supply};

    ghost Value = { Supply };

    ghost view = { λ s. record { left = drop s.at s.bytes.items; piece = s.piece; reads = s.reads; fail_reads = s.fail_reads.items; faults = s.faults } };

    ghost invariant = { λ s. (s.at ≤ length s.bytes.items) × (0 < s.piece) };
}

impl MemSource {
    /// Gives at most `piece` bytes a call. Reads are numbered from 1.
    pub fn new(
        alloc: Global,
        text: &[u8],
        piece: usize,
        fail_reads: &[u32],
    ) -> Result<MemSource, NoMemory>
        requires some { 0 < piece }
        ensures { IfOk result (λ s. s ≡ record { left = text.now; piece = piece; reads = 0; fail_reads = fail_reads.now; faults = 0 }) }
    {
        Ok(MemSource {
            bytes: text.to_vec(alloc)?,
            at: 0,
            piece,
            fail_reads: fail_reads.to_vec(alloc)?,
            reads: 0,
            faults: 0,
        })
    }
}

impl Faulty for MemSource {
    ghost faults = { λ s. s.faults };

    ghost allowance = { λ s. Some (to_come s.reads s.fail_reads) };
}

impl Source for MemSource {
    ghost left = { λ s. Some s.left };

    fn read(&mut self, into: &mut [u8]) -> Result<usize, Failed>
        ensures bound { ReadsAtMost result into.new }
        ensures bytes { ReadConsumes (Some self.old.left) (Some self.new.left) result into.new }
        ensures cause { HasCause self.old.faults self.new.faults result }
        ensures spends { Spends (Some (to_come self.old.reads self.old.fail_reads)) (Some (to_come self.new.reads self.new.fail_reads)) result }
        ensures fails { IsErr result ↔ IsTrue (is_next self.old.reads self.old.fail_reads) }
        ensures size { IfOk result (λ n. n ≡ min (min self.old.piece (length self.old.left)) (length into.old)) }
        ensures count { self.new.reads ≡ one_more self.old.reads }
        ensures calm { OnOk result (self.new.faults ≡ self.old.faults) }
        ensures list { self.new.fail_reads ≡ self.old.fail_reads }
        ensures same { self.new.piece ≡ self.old.piece }
    {
        if is_next_listed(&mut self.reads, &self.fail_reads) {
            self.faults = self.faults.saturating_add(1);
            return Err(Failed);
        }
        let rest = &self.bytes[self.at..];
        let count = self.piece.min(rest.len()).min(into.len());
        into[..count].copy_from_slice(&rest[..count]);
        self.at += count;
        Ok(count)
    }
}

/// A sink in memory with some room, of which the writes with listed numbers fail, and each one that finds no
/// room. For tests and trials.
#[derive(Drop)]
pub struct MemSink {
    bytes: Vec<u8>,
    len: usize,
    piece: usize,
    fail_writes: Vec<u32>,
    writes: u32,
    faults: u64,
}

impl Model for MemSink {
    ghost use Rattle.std.specs.Prelude.{◌≤◌, ◌<◌, ◌-◌, take, length};
    ghost use Rattle.ckd_outside.specs.Memory.{Store};

    ghost Value = { Store };

    ghost view = { λ s. record {
      held = take s.len s.bytes.items;
      room = length s.bytes.items - s.len;
      piece = s.piece;
      writes = s.writes;
      fail_writes = s.fail_writes.items;
      faults = s.faults;
    } };

    ghost invariant = { λ s. (s.len ≤ length s.bytes.items) × (0 < s.piece) };
}

impl MemSink {
    /// Takes at most `piece` bytes a call, and `room` in all. Its memory is taken here. Writes are
    /// numbered from 1.
    pub fn new(
        alloc: Global,
        room: usize,
        piece: usize,
        fail_writes: &[u32],
    ) -> Result<MemSink, NoMemory>
        requires some { 0 < piece }
        ensures { IfOk result (λ s. s ≡ record { held = []; room = room; piece = piece; writes = 0; fail_writes = fail_writes.now; faults = 0 }) }
    {
        Ok(MemSink {
            bytes: vec![in alloc; 0; room]?,
            len: 0,
            piece,
            fail_writes: fail_writes.to_vec(alloc)?,
            writes: 0,
            faults: 0,
        })
    }

    /// What it took so far.
    pub fn bytes(&self) -> &[u8]
        ensures { result.now ≡ self.now.held }
    {
        &self.bytes[..self.len]
    }
}

impl Sink for MemSink {
    ghost held = { λ s. Some s.held };

    ghost faults = { λ s. s.faults };

    fn write(&mut self, piece: &[u8]) -> Result<usize, Failed>
        ensures bound { WritesAtMost result piece.now }
        ensures some { IfOk result (λ n. 0 < length piece.now → 0 < n) }
        ensures bytes { WriteAppends (Some self.old.held) (Some self.new.held) result piece.now }
        ensures cause { HasCause self.old.faults self.new.faults result }
        ensures fails { IsErr result → IsTrue (is_next self.old.writes self.old.fail_writes) ⊎ (self.old.room ≡ 0) }
        ensures listed { IsTrue (is_next self.old.writes self.old.fail_writes) → IsErr result }
        ensures size { IfOk result (λ n. n ≡ min (min self.old.piece (length piece.now)) self.old.room) }
        ensures room { IfOk result (λ n. self.new.room + n ≡ self.old.room) }
        ensures count { self.new.writes ≡ one_more self.old.writes }
        ensures calm { OnOk result (self.new.faults ≡ self.old.faults) }
        ensures list { self.new.fail_writes ≡ self.old.fail_writes }
        ensures same { self.new.piece ≡ self.old.piece }
    {
        let room = self.bytes.len() - self.len;
        let count = self.piece.min(piece.len()).min(room);
        let full = count == 0 && !piece.is_empty();
        if is_next_listed(&mut self.writes, &self.fail_writes) || full {
            self.faults = self.faults.saturating_add(1);
            return Err(Failed);
        }
        self.bytes[self.len..self.len + count].copy_from_slice(&piece[..count]);
        self.len += count;
        Ok(count)
    }
}

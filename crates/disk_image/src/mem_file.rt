ghost use Rattle.std.specs.Prelude.{◌≡◌, ◌≤◌, ◌+◌, IfOk, OnErr, OnOk, Some, length, take, vec_len};
ghost use Rattle.disk_image.specs.Calls.{IsAt, patched};

use crate::DiskFile;
use ckd_outside::Failed;
use ckd_types::NoMemory;
use device_outside::counted;
use std::alloc::Global;

/// A file in memory, which tells what it holds. Its calls are numbered from 1, of every kind together; those with listed numbers
/// fail, and change nothing. So does a write behind a gap, and one for which memory is lacking.
#[derive(Debug, Drop)]
pub struct MemFile {
    bytes: Vec<u8>,
    failing: Vec<u32>,
    calls: u64,
    faults: u64,
}

/// Puts bytes over those that stand at an offset, which the file has.
fn put_over(held: &mut Vec<u8>, at: usize, bytes: &[u8])
    requires { at + length bytes.now ≤ vec_len held.old }
    ensures put { held.new.items ≡ patched held.old.items at bytes.now }
{
    let end = at + bytes.len();
    held.as_mut_slice()[at..end].copy_from_slice(bytes);
}

/// Puts bytes over those that stand at an offset, or behind the last one. Where memory is lacking nothing is put.
fn put_at(held: &mut Vec<u8>, at: usize, bytes: &[u8]) -> Result<(), NoMemory>
    requires { at ≤ vec_len held.old }
    ensures put { OnOk result (held.new.items ≡ patched held.old.items at bytes.now) }
    ensures same { OnErr result (held.new.items ≡ held.old.items) }
{
    let room = held.len() - at;
    if bytes.len() <= room {
        put_over(held, at, bytes);
        return Ok(());
    }
    let (front, back) = bytes.split_at(room);
    held.extend_from_slice(back)?;
    put_over(held, at, front);
    Ok(())
}

/// The same at an offset that may lie behind a gap, where it fails.
fn put_bytes(held: &mut Vec<u8>, at: u64, bytes: &[u8]) -> Result<(), Failed>
    ensures put { OnOk result ((at ≤ length held.old.items) × (held.new.items ≡ patched held.old.items at bytes.now)) }
    ensures same { OnErr result (held.new.items ≡ held.old.items) }
{
    let at = at as usize;
    if at <= held.len() {
        return put_at(held, at, bytes).or(Err(Failed));
    }
    Err(Failed)
}

/// Copies as many of the bytes from an offset on as there are and as there is room for.
fn get_bytes(held: &[u8], at: u64, into: &mut [u8]) -> usize
    ensures most { result ≤ length into.new }
    ensures size { length into.new ≡ length into.old }
    ensures bytes { IsAt (Some held.now) at (take result into.new) }
{
    let at = at as usize;
    if at <= held.len() {
        let (_, rest) = held.split_at(at);
        let count = rest.len().min(into.len());
        into[..count].copy_from_slice(&rest[..count]);
        return count;
    }
    0
}

/// Whether a call's number is listed.
fn is_listed(call: u64, numbers: &[u32]) -> bool {
    for n in numbers {
        if call == u64::from(*n) {
            return true;
        }
    }
    false
}

impl MemFile {
    /// A file of these bytes, of which no call was made.
    pub fn new(alloc: Global, bytes: &[u8], fail: &[u32]) -> Result<MemFile, NoMemory>
        ensures held { IfOk result (λ f. ⟦<MemFile as DiskFile>⟧.held f ≡ Some bytes.now) }
        ensures faults { IfOk result (λ f. ⟦<MemFile as DiskFile>⟧.faults f ≡ 0) }
    {
        Ok(MemFile {
            bytes: bytes.to_vec(alloc)?,
            failing: fail.to_vec(alloc)?,
            calls: 0,
            faults: 0,
        })
    }

    /// What it holds.
    pub fn bytes(&self) -> &[u8]
        ensures { ⟦<MemFile as DiskFile>⟧.held self.now ≡ Some result.now }
    {
        &self.bytes
    }
}

impl DiskFile for MemFile {
    ghost held = { λ f. Some f.bytes.items };

    ghost faults = { λ f. f.faults };

    fn len(&mut self) -> Result<u64, Failed> {
        self.calls = counted(self.calls);
        if is_listed(self.calls, &self.failing) {
            self.faults = self.faults.saturating_add(1);
            return Err(Failed);
        }
        Ok(self.bytes.len() as u64)
    }

    /// Behind its end it gives none.
    fn read_at(&mut self, at: u64, into: &mut [u8]) -> Result<usize, Failed> {
        self.calls = counted(self.calls);
        if is_listed(self.calls, &self.failing) {
            self.faults = self.faults.saturating_add(1);
            return Err(Failed);
        }
        let count = get_bytes(&self.bytes, at, into);
        if count < into.len() {
            self.faults = self.faults.saturating_add(1);
        }
        Ok(count)
    }

    fn write_at(&mut self, at: u64, bytes: &[u8]) -> Result<usize, Failed> {
        self.calls = counted(self.calls);
        if is_listed(self.calls, &self.failing) {
            self.faults = self.faults.saturating_add(1);
            return Err(Failed);
        }
        match put_bytes(&mut self.bytes, at, bytes) {
            Ok(()) => Ok(bytes.len()),
            Err(Failed) => {
                self.faults = self.faults.saturating_add(1);
                Err(Failed)
            }
        }
    }

    /// There is nothing to wait for.
    fn sync(&mut self) -> Result<(), Failed> {
        self.calls = counted(self.calls);
        if is_listed(self.calls, &self.failing) {
            self.faults = self.faults.saturating_add(1);
            return Err(Failed);
        }
        Ok(())
    }
}

ghost use Rattle.std.specs.Prelude.{◌≡◌, ◌<◌, List, ℕ, Option, IfOk, length, take};
ghost use Rattle.std.specs.Io.{ReadsAtMost, WritesAtMost};
ghost use Rattle.ckd_outside.specs.Causes.{HasCause};
ghost use Rattle.disk_image.specs.Calls.{CountsShort, IsAt, IsLong, Puts};

use ckd_outside::Failed;

/// A file that is read and written at offsets. What it holds may be told or not; the count of faults always is. A call that a
/// signal interrupts is made again.
pub trait DiskFile: Drop {
    ghost held: { Self → Option (List ℕ) };

    ghost faults: { Self → ℕ };

    /// How many bytes it has.
    fn len(&mut self) -> Result<u64, Failed>
        ensures same { held self.new ≡ held self.old }
        ensures size { IfOk result (λ size. IsLong (held self.old) size) }
        ensures cause { HasCause (faults self.old) (faults self.new) result };

    /// Reads from an offset into the front of a buffer, by one call, and answers how many bytes. Fewer than the buffer has room
    /// for are a fault.
    fn read_at(&mut self, at: u64, into: &mut [u8]) -> Result<usize, Failed>
        ensures bound { ReadsAtMost result into.new }
        ensures size { length into.new ≡ length into.old }
        ensures same { held self.new ≡ held self.old }
        ensures bytes { IfOk result (λ n. IsAt (held self.old) at (take n into.new)) }
        ensures cause { CountsShort (faults self.old) (faults self.new) (length into.old) result };

    /// Writes a front of bytes at an offset, by one call, and answers how many. Fewer than all are a fault.
    fn write_at(&mut self, at: u64, bytes: &[u8]) -> Result<usize, Failed>
        ensures bound { WritesAtMost result bytes.now }
        ensures bytes { Puts (held self.old) at bytes.now result (held self.new) }
        ensures cause { CountsShort (faults self.old) (faults self.new) (length bytes.now) result };

    /// Waits until what was written has reached the disk.
    fn sync(&mut self) -> Result<(), Failed>
        ensures same { held self.new ≡ held self.old }
        ensures cause { HasCause (faults self.old) (faults self.new) result };
}

ghost use Rattle.std.specs.Prelude.{◌<◌, ◌≤◌, List, ℕ, is_ok, length};
ghost use Rattle.device_outside.specs.Volume.{VolumeView, ReadOf, WriteOf, delivery};

use crate::TrackBuffer;
use ckd_outside::Failed;
use ckd_types::TrackNo;

/// Tracks of bytes. What they hold may be told or not. How many there are, the bytes last delivered and
/// the counts of calls and faults always are. No call takes memory.
pub trait Volume: Drop {
    ghost view: { Self → VolumeView (List ℕ) };

    /// Reads the bytes of a track. Where it fails, what the buffer then holds isn't told.
    fn read_track(&mut self, t: TrackNo, into: &mut TrackBuffer) -> Result<(), Failed>
        requires { t < (view self.old).tracks }
        ensures { ReadOf (view self.old) t (delivery result into.new) (view self.new) };

    /// Writes all bytes of a track. Where it fails, that track may hold anything; the others are as they
    /// were.
    fn write_track(&mut self, t: TrackNo, bytes: &[u8]) -> Result<(), Failed>
        requires track { t < (view self.old).tracks }
        requires most { length bytes.now ≤ 65536 }
        ensures { WriteOf (view self.old) t bytes.now (is_ok result) (view self.new) };
}

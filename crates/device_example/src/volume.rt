ghost use Rattle.std.specs.Prelude.{◌≡◌, ◌<◌, ◌≤◌, None, is_ok, length};
ghost use Rattle.device_outside.specs.Volume.{ReadOf, WriteOf, delivery};

use ckd_outside::Failed;
use ckd_types::{HEADS, TrackNo};
use device_outside::{TrackBuffer, Volume};

/// A volume of the caller's: another volume, and the track that was written last.
#[derive(Drop)]
pub struct Watched<V: Volume> {
    pub inner: V,
    pub last_written: Option<TrackNo>,
}

impl<V: Volume> Watched<V> {
    pub fn new(inner: V) -> Watched<V>
        ensures { result.inner ≡ inner }
    {
        Watched {
            inner,
            last_written: None,
        }
    }
}

impl<V: Volume> Volume for Watched<V> {
    ghost view = { λ w. V.view w.inner };

    fn read_track(&mut self, t: TrackNo, into: &mut TrackBuffer) -> Result<(), Failed>
        requires { t < (V.view self.old.inner).tracks }
        ensures { ReadOf (V.view self.old.inner) t (delivery result into.new) (V.view self.new.inner) }
    {
        self.inner.read_track(t, into)
    }

    fn write_track(&mut self, t: TrackNo, bytes: &[u8]) -> Result<(), Failed>
        requires track { t < (V.view self.old.inner).tracks }
        requires most { length bytes.now ≤ 65536 }
        ensures { WriteOf (V.view self.old.inner) t bytes.now (is_ok result) (V.view self.new.inner) }
    {
        self.last_written = Some(t);
        self.inner.write_track(t, bytes)
    }
}

/// A volume of the caller's of many cylinders, of which it keeps one: each track is that cylinder's of the same head.
#[derive(Drop)]
pub struct OneCylinder<V: Volume> {
    pub inner: V,
    pub tracks: usize,
    pub ghost heads: { (V.view inner).tracks ≡ 15 },
}

/// The track of the cylinder that is kept.
fn kept(t: TrackNo) -> TrackNo
    ensures { result < 15 }
{
    TrackNo::new(t.get() % HEADS).unwrap()
}

impl<V: Volume> Volume for OneCylinder<V> {
    ghost view = { λ w. record (V.view w.inner) { contents = None; tracks = w.tracks } };

    fn read_track(&mut self, t: TrackNo, into: &mut TrackBuffer) -> Result<(), Failed> {
        self.inner.read_track(kept(t), into)
    }

    fn write_track(&mut self, t: TrackNo, bytes: &[u8]) -> Result<(), Failed> {
        self.inner.write_track(kept(t), bytes)
    }
}

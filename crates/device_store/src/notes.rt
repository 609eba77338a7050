ghost use Rattle.std.specs.Prelude.{◌≡◌};
ghost use Rattle.device_defs.specs.Contents.{contents};
ghost use Rattle.device_defs.specs.Owed.{dropped, hear};
ghost use Rattle.device_outside.specs.Keeper.{Heard};
ghost use Rattle.device_outside.specs.Outside.{Ran};
ghost use Rattle.device_store.specs.Leaves.{ChangesMarksAlone, KeepsLooseTracks};
ghost use Rattle.device_store.specs.State.{state_of, outside, surely};

use crate::DeviceStore;
use ckd_types::TrackNo;
use device_outside::{Keep, Port, Volume};
use track_image::TrackImage;

/// The most notes that an event takes.
const NOTES: u32 = 960;

impl<V: Volume> DeviceStore<V> {
    /// A note of a track that has a clean frame drops it.
    fn drop_noted(&mut self, t: TrackNo)
        ensures leaves { ChangesMarksAlone self.old self.new }
        ensures state { state_of self.new ≡ dropped contents (state_of self.old) t }
    {
        if !self.is_clean(t) {
            return;
        }
        self.forget(t);
    }

    /// Takes the notes of the device, at most 960, and drops the clean frames that they name.
    pub fn hear<P: Port, K: Keep<TrackImage>>(&mut self, port: &mut P)
        ensures leaves { KeepsLooseTracks self.old self.new }
        ensures run { (k : K) → Ran surely (Heard K.hears K.takes) (hear contents 960 (state_of self.old)) (outside (P.view port.old) self.old k)
            (state_of self.new) tt (outside (P.view port.new) self.new k) }
    {
        for _turn in 0..NOTES {
            match port.next_notice(self.number) {
                None => return,
                Some(t) => self.drop_noted(t),
            }
        }
    }
}

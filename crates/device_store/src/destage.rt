ghost use Rattle.std.specs.Prelude.{◌≡◌, ◌<◌, ◌*◌, Bool, IfSome, None, ℕ, false, is_some, true};
ghost use Rattle.ckd_types.specs.Track.{track_bytes};
ghost use Rattle.device_defs.specs.Background.{is_destaged, saved, saved_by, saving, to_destage};
ghost use Rattle.device_defs.specs.Contents.{contents};
ghost use Rattle.device_defs.specs.Store.{frame_at, is_loose};
ghost use Rattle.device_defs.specs.Writing.{write_first};
ghost use Rattle.device_outside.specs.Interaction.{and_then};
ghost use Rattle.device_outside.specs.Keeper.{Heard};
ghost use Rattle.device_outside.specs.Outside.{Ran, where_ok};
ghost use Rattle.track_table.specs.Bits.{is_marked};
ghost use Rattle.device_store.specs.Leaves.{KeepsHalfWrite, KeepsLooseTracks, KeepsWeight};
ghost use Rattle.device_store.specs.Looks.{frame_in};
ghost use Rattle.device_store.specs.State.{state_of, outside, surely, OnlyBackground, had, HasTrack, TakesTracks};

use crate::DeviceStore;
use crate::background::did;
use ckd_types::{NoMemory, TrackNo};
use device_defs::{Did, Took};
use device_outside::{Keep, Port, Volume};
use track_image::TrackImage;
use track_table::{And, Or, first};

impl<V: Volume> DeviceStore<V> {
    /// The least track that is loose, or modified with a patch, where a side is up.
    pub(crate) fn to_destage(&self) -> Option<TrackNo>
        ensures least { result ≡ to_destage contents (state_of self.now) }
        ensures here { IfSome result (λ t. t < self.now.cylinders * 15) }
        ensures framed { IfSome result (λ t. is_some (frame_at (state_of self.now) t) ≡ true) }
    {
        if self.some_up() {
            let modified = And {
                one: self.frames.modified_tracks(),
                other: self.patches.patched_tracks(),
            };
            return first(&Or {
                one: self.loose.marks(),
                other: modified,
            });
        }
        None
    }

    /// Writes the image in a track's frame, which isn't loose, to a volume that is alone.
    fn save_firm<P: Port, K: Keep<TrackImage>>(
        &mut self,
        t: TrackNo,
        done: Did,
        port: &mut P,
    ) -> Did
        requires track { HasTrack self.old t }
        requires framed { is_some (frame_at (state_of self.old) t) ≡ true }
        requires firm { is_loose (state_of self.old) t ≡ false }
        requires single { (state_of self.old).paired ≡ false }
        ensures leaves { KeepsLooseTracks self.old self.new }
        ensures run { (k : K) (was_loose : Bool) → Ran surely (Heard K.hears K.takes)
            (and_then (write_first contents (state_of self.old) t (track_bytes (frame_in (state_of self.old) t).track))
            (λ y w. saved_by contents t (frame_in (state_of self.old) t) done None was_loose w.fault y w.took)) (outside (P.view port.old) self.old k)
            (state_of self.new) result (outside (P.view port.new) self.new k) }
    {
        let written = self.write_frame::<K>(t);
        match written.took {
            Took::Whole => {
                self.frame_done::<P, K>(t, port);
                did(written.fault, done)
            }
            Took::Unwritten => did(written.fault, Did::Nothing),
            Took::Opened => unreachable!(),
        }
    }

    /// Writes the image in a track's frame to a volume that is alone. What is done then is `done`.
    fn save_alone<P: Port, K: Keep<TrackImage>>(
        &mut self,
        t: TrackNo,
        done: Did,
        port: &mut P,
        keep: &mut K,
    ) -> Did
        requires track { HasTrack self.old t }
        requires framed { is_some (frame_at (state_of self.old) t) ≡ true }
        requires single { (state_of self.old).paired ≡ false }
        requires takes { TakesTracks K.takes keep.old self.old }
        ensures leaves { KeepsHalfWrite self.old self.new }
        ensures takes { TakesTracks K.takes keep.new self.new }
        ensures run { Ran surely (Heard K.hears K.takes) (saving contents (state_of self.old) t (frame_in (state_of self.old) t) done None)
            (outside (P.view port.old) self.old keep.old) (state_of self.new) result (outside (P.view port.new) self.new keep.new) }
    {
        self.firm_first(t, keep);
        self.save_firm::<P, K>(t, done, port)
    }

    /// Writes the image in a track's frame to the volumes. What is done then is `done`. With two sides it is copied first, as the
    /// frame may go before the second part.
    pub(crate) fn save_frame<P: Port, K: Keep<TrackImage>>(
        &mut self,
        t: TrackNo,
        done: Did,
        port: &mut P,
        keep: &mut K,
    ) -> Result<Did, NoMemory>
        requires track { HasTrack self.old t }
        requires framed { is_some (frame_at (state_of self.old) t) ≡ true }
        requires none { self.old.half ≡ None }
        requires takes { TakesTracks K.takes keep.old self.old }
        ensures leaves { KeepsWeight self.old self.new }
        ensures opened { OnlyBackground self.new.half }
        ensures takes { TakesTracks K.takes keep.new self.new }
        ensures run { Ran (where_ok result) (Heard K.hears K.takes) (saved contents (state_of self.old) t (frame_in (state_of self.old) t) done None)
            (outside (P.view port.old) self.old keep.old) (state_of self.new) (had (λ did. did) result) (outside (P.view port.new) self.new keep.new) }
    {
        if !self.pair.is_paired() {
            return Ok(self.save_alone(t, done, port, keep));
        }
        match self.frame_image(t).copy(self.alloc) {
            Err(NoMemory) => Err(NoMemory),
            Ok(image) => Ok(self.save_read(t, image, done, None, port, keep)),
        }
    }
}

ghost use Rattle.std.specs.Prelude.{◌≡◌, ◌<◌, ◌*◌, ℕ, nat_le, IfOk, IfSome, None};
ghost use Rattle.track_image.specs.Image.{Image};
ghost use Rattle.track_table.specs.Table.{entry_at};
ghost use Rattle.subsystem_core.specs.Devices.{device_at};
ghost use Rattle.subsystem_core.specs.Frames.{HasSameDevices};
ghost use Rattle.subsystem_defs.specs.Looks.{looked};
ghost use Rattle.point_copy.specs.Copying.{CopyState, look_given, next_given};
ghost use Rattle.point_copy.specs.Sessions.{GivesAs, GivesLooked, IsCopy, NextBy};
ghost use Rattle.device_core.specs.State.{device_of};
ghost use Rattle.device_defs.specs.Store.{tracks_of};

use crate::{Given, Session};
use ckd_types::{HEADS, NoMemory, TrackNo};
use device_outside::Volume;
use track_looks::{Look, look};

impl<V: Volume> Session<V> {
    /// The next track, of which nothing is kept, by a look.
    fn look_next(&mut self, t: TrackNo) -> Result<Given, NoMemory>
        requires next { t ≡ self.old.kept.next }
        requires track { IfSome (device_at self.old.sub.devices.items self.old.device) (λ x. t < tracks_of (device_of x).store) }
        requires home { self.old.gone ≡ None }
        requires none { entry_at self.old.kept.images t ≡ None }
        ensures numbers { HasSameDevices self.old.sub self.new.sub }
        ensures given { (c : CopyState) (old : ℕ → Image) → IsCopy self.old c old
            → IfOk result (λ g. GivesAs (look_given c (looked c.run c.kept.device c.kept.next)) c.kept old g self.new) }
        ensures done { GivesLooked self.old result self.new }
    {
        match look(self.alloc, &mut self.sub, self.device, t) {
            Err(NoMemory) => Err(NoMemory),
            Ok(Look::Track(image)) => {
                self.kept.pass();
                Ok(Given::Track(t, image))
            }
            Ok(Look::Lost) => {
                self.kept.pass();
                Ok(Given::Lost(t))
            }
            Ok(Look::Fault(side)) => Ok(Given::Fault(side)),
            Ok(Look::BadBytes(side)) => Ok(Given::BadBytes(side)),
        }
    }

    /// The least track that isn't given yet: the old image that is kept of it, or by a look, which makes the reads of a command. Where
    /// memory is lacking the look may be done, and the track is still to be given.
    pub fn next(&mut self) -> Result<Given, NoMemory>
        ensures numbers { HasSameDevices self.old.sub self.new.sub }
        ensures given { (c : CopyState) (old : ℕ → Image) → IsCopy self.old c old
            → IfOk result (λ g. GivesAs (next_given c) c.kept old g self.new) }
        ensures done { IfSome (device_at self.old.sub.devices.items self.old.device) (λ x. NextBy (nat_le (tracks_of (device_of x).store) self.old.kept.next)
            self.old.gone (entry_at self.old.kept.images self.old.kept.next) self.old result self.new) }
    {
        let due = self.kept.next();
        let tracks = self.sub.device(self.device).cylinders() * HEADS;
        if tracks <= due {
            return Ok(Given::Finished);
        }
        if let Some(of) = self.gone {
            return Ok(Given::Gone { of });
        }
        let t = TrackNo::new(due).unwrap();
        if let Some(image) = self.kept.take(t) {
            self.kept.pass();
            return Ok(Given::Track(t, image));
        }
        self.look_next(t)
    }
}

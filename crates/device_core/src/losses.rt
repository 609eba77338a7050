ghost use Rattle.std.specs.Prelude.{◌≡◌};
ghost use Rattle.device_defs.specs.Contents.{contents};
ghost use Rattle.device_defs.specs.Events.{lose};
ghost use Rattle.device_outside.specs.declared.keep.NoKeep.{NoKeep};
ghost use Rattle.device_outside.specs.Keeper.{Heard, reply};
ghost use Rattle.device_outside.specs.Outside.{Ran};
ghost use Rattle.device_store.specs.State.{surely};
ghost use Rattle.device_core.specs.State.{around, device_of, IsSameDevice, TakesItsTracks};
ghost use Rattle.device_laws.specs.Moved.{MovesNothing};
ghost use Rattle.device_laws.specs.Seen.{KeepsPaths};
ghost use Rattle.device_core.specs.Promises.{StaysExcused, StaysLent, StaysPlain, StaysSound, TakesNoSide};

use crate::Device;
use device_outside::{Keep, NoKeep, Port, Volume};
use loss_model::Loss;
use track_image::TrackImage;

impl<V: Volume> Device<V> {
    /// A loss of the cache, of the nonvolatile store, or of a side, behind the notes of the device. The keeper is told of
    /// the tracks that it made firm.
    pub fn lose_with<P: Port, K: Keep<TrackImage>>(
        &mut self,
        loss: Loss,
        port: &mut P,
        keep: &mut K,
    )
        requires { TakesItsTracks K.takes keep.old self.old }
        ensures fixed { IsSameDevice self.old self.new }
        ensures takes { TakesItsTracks K.takes keep.new self.new }
        ensures run { Ran surely (Heard K.hears K.takes) (lose contents (device_of self.old) loss) (around (P.view port.old) self.old keep.old)
            (device_of self.new) tt (around (P.view port.new) self.new keep.new) }
        ensures paths { KeepsPaths (device_of self.old) (device_of self.new) }
        ensures transfers { MovesNothing (device_of self.old) (device_of self.new) }
        ensures sound { StaysSound self.old self.new }
        ensures plain { StaysPlain self.old self.new }
        ensures excused { StaysExcused self.old self.new }
        ensures lent { TakesNoSide loss → StaysLent self.old self.new }
    {
        let before = self.store.waiting_count();
        self.store.begin_event();
        self.store.hear::<P, K>(port);
        self.store.lose(loss, keep);
        self.close_event::<P, K>(before, port);
    }

    /// The same, with a keeper that keeps nothing.
    pub fn lose<P: Port>(&mut self, loss: Loss, port: &mut P)
        ensures fixed { IsSameDevice self.old self.new }
        ensures run { (k : NoKeep) → Ran surely (λ _ m r _. r ≡ reply m) (lose contents (device_of self.old) loss)
            (around (P.view port.old) self.old k) (device_of self.new) tt (around (P.view port.new) self.new k) }
        ensures paths { KeepsPaths (device_of self.old) (device_of self.new) }
        ensures transfers { MovesNothing (device_of self.old) (device_of self.new) }
        ensures sound { StaysSound self.old self.new }
        ensures plain { StaysPlain self.old self.new }
        ensures excused { StaysExcused self.old self.new }
        ensures lent { TakesNoSide loss → StaysLent self.old self.new }
    {
        let mut keep = NoKeep;
        self.lose_with(loss, port, &mut keep)
    }
}

ghost use Rattle.std.specs.Prelude.{◌≡◌, ◌<◌, ◌*◌, IfOk, IfSome, IsSome, None, OnErr, Some, false, is_some, true};
ghost use Rattle.device_outside.specs.Keeper.{Heard};
ghost use Rattle.device_outside.specs.Outside.{where_ok};
ghost use Rattle.plain_defs.specs.History.{is_path_of};
ghost use Rattle.device_defs.specs.declared.answers.SecondEnd.{SecondEnd};
ghost use Rattle.device_defs.specs.Command.{command};
ghost use Rattle.device_defs.specs.Contents.{contents};
ghost use Rattle.device_defs.specs.Cutting.{reset};
ghost use Rattle.device_defs.specs.Events.{background, lose, second};
ghost use Rattle.device_defs.specs.Start.{start_fault};
ghost use Rattle.device_store.specs.State.{had, surely, Takes};
ghost use Rattle.device_core.specs.Starting.{fault_told};
ghost use Rattle.device_core.specs.State.{device_of, last_end, second_seen, step_had, TakesItsTracks};
ghost use Rattle.device_defs.specs.Store.{tracks_of};
ghost use Rattle.subsystem_core.specs.Comes.{AskedKept, Changes, StartsBy};
ghost use Rattle.subsystem_core.specs.Devices.{device_at};
ghost use Rattle.subsystem_core.specs.Frames.{HasDevice, HasSameSpans, LooksAt};
ghost use Rattle.subsystem_core.specs.Standing.{IsUnwritten, NoneIsLent, StayStanding};

use crate::Subsystem;
use ckd_types::{DeviceNo, NoMemory, PathNo, TrackNo};
use device_core::{NotStarted, SecondStep, Stepped};
use device_defs::Did;
use device_outside::{Keep, Volume};
use device_store::Peeked;
use loss_model::Loss;
use track_image::TrackImage;

/// A start that wasn't refused.
fn not_refused(outcome: Result<u16, NotStarted>) -> Result<u16, NoMemory>
    requires { fault_told outcome ≡ None }
    ensures ordinal { IfOk result (λ n. outcome ≡ Ok n) }
    ensures lacked { OnErr result (outcome ≡ Err NotStarted.NoMemory) }
{
    match outcome {
        Ok(ordinal) => Ok(ordinal),
        Err(NotStarted::NoMemory) => Err(NoMemory),
        Err(NotStarted::Refused(_)) => unreachable!(),
    }
}

/// One device and the pool. All other devices stay as they are.
impl<V: Volume> Subsystem<V> {
    pub(crate) fn start_at(&mut self, path: PathNo, d: DeviceNo) -> Result<u16, NoMemory>
        requires here { HasDevice self.old d }
        requires idle { IfSome (device_at self.old.devices.items d) (λ x. is_path_of (device_of x).history.running path ≡ false) }
        requires free { IfSome (device_at self.old.devices.items d) (λ x. start_fault (device_of x) path ≡ None) }
        ensures spans { HasSameSpans self.old self.new }
        ensures stands { StayStanding self.old.devices.items self.new.devices.items }
        ensures pool { self.new.pool ≡ self.old.pool }
        ensures done { Changes d (StartsBy path result) self.old.devices.items self.new.devices.items }
    {
        let at = self.place(d);
        let outcome = self.devices[at].start(path);
        not_refused(outcome)
    }

    pub(crate) fn command_at<K: Keep<TrackImage>>(
        &mut self,
        d: DeviceNo,
        keep: &mut K,
    ) -> Result<Stepped, NoMemory>
        requires here { HasDevice self.old d }
        requires running { IfSome (device_at self.old.devices.items d) (λ x. IsSome (device_of x).history.running) }
        requires whole { IfSome (device_at self.old.devices.items d) (λ x. is_some (device_of x).store.half ≡ false) }
        requires takes { IfSome (device_at self.old.devices.items d) (λ x. TakesItsTracks K.takes keep.old x) }
        ensures spans { HasSameSpans self.old self.new }
        ensures stands { StayStanding self.old.devices.items self.new.devices.items }
        ensures asked { Changes d (λ x y. AskedKept (Heard K.hears K.takes) (where_ok result) (command contents (device_of x)) (step_had (last_end y) result)
            self.old.pool keep.old x y self.new.pool keep.new) self.old.devices.items self.new.devices.items }
    {
        let at = self.place(d);
        self.devices[at].command_with(&mut self.pool, keep)
    }

    pub(crate) fn second_at<K: Keep<TrackImage>>(&mut self, d: DeviceNo, keep: &mut K) -> SecondStep
        requires here { HasDevice self.old d }
        requires open { IfSome (device_at self.old.devices.items d) (λ x. is_some (device_of x).store.half ≡ true) }
        requires takes { IfSome (device_at self.old.devices.items d) (λ x. TakesItsTracks K.takes keep.old x) }
        ensures spans { HasSameSpans self.old self.new }
        ensures stands { StayStanding self.old.devices.items self.new.devices.items }
        ensures asked { Changes d (λ x y. IsSome (second_seen (last_end y) result)
            × ((e : SecondEnd) → second_seen (last_end y) result ≡ Some e
            → AskedKept (Heard K.hears K.takes) surely (second contents (device_of x)) e self.old.pool keep.old x y self.new.pool keep.new))
            self.old.devices.items self.new.devices.items }
    {
        let at = self.place(d);
        self.devices[at].second_with(&mut self.pool, keep)
    }

    pub(crate) fn background_at<K: Keep<TrackImage>>(
        &mut self,
        d: DeviceNo,
        keep: &mut K,
    ) -> Result<Did, NoMemory>
        requires whole { IfSome (device_at self.old.devices.items d) (λ x. is_some (device_of x).store.half ≡ false) }
        requires here { HasDevice self.old d }
        requires takes { IfSome (device_at self.old.devices.items d) (λ x. TakesItsTracks K.takes keep.old x) }
        ensures spans { HasSameSpans self.old self.new }
        ensures stands { OnErr result (NoneIsLent self.old.devices.items) → StayStanding self.old.devices.items self.new.devices.items }
        ensures asked { Changes d (λ x y. AskedKept (Heard K.hears K.takes) (where_ok result) (background contents (device_of x)) (had (λ did. did) result)
            self.old.pool keep.old x y self.new.pool keep.new) self.old.devices.items self.new.devices.items }
    {
        let at = self.place(d);
        self.devices[at].background_with(&mut self.pool, keep)
    }

    pub(crate) fn reset_at<K: Keep<TrackImage>>(&mut self, path: PathNo, d: DeviceNo, keep: &mut K)
        requires here { HasDevice self.old d }
        requires takes { IfSome (device_at self.old.devices.items d) (λ x. TakesItsTracks K.takes keep.old x) }
        ensures spans { HasSameSpans self.old self.new }
        ensures stands { StayStanding self.old.devices.items self.new.devices.items }
        ensures asked { Changes d (λ x y. AskedKept (Heard K.hears K.takes) surely (reset contents (device_of x) path) tt self.old.pool keep.old x y
            self.new.pool keep.new) self.old.devices.items self.new.devices.items }
    {
        let at = self.place(d);
        self.devices[at].reset_with(path, keep);
    }

    pub(crate) fn lose_at<K: Keep<TrackImage>>(&mut self, d: DeviceNo, loss: Loss, keep: &mut K)
        requires here { HasDevice self.old d }
        requires home { IfSome (device_at self.old.devices.items d) (λ x. is_some (device_of x).store.lent ≡ false) }
        requires takes { IfSome (device_at self.old.devices.items d) (λ x. TakesItsTracks K.takes keep.old x) }
        ensures spans { HasSameSpans self.old self.new }
        ensures stands { StayStanding self.old.devices.items self.new.devices.items }
        ensures asked { Changes d (λ x y. AskedKept (Heard K.hears K.takes) surely (lose contents (device_of x) loss) tt self.old.pool keep.old x y
            self.new.pool keep.new) self.old.devices.items self.new.devices.items }
    {
        let at = self.place(d);
        self.devices[at].lose_with(loss, &mut self.pool, keep);
    }

    pub(crate) fn peek_at<K: Keep<TrackImage>>(
        &mut self,
        d: DeviceNo,
        t: TrackNo,
        keep: &mut K,
    ) -> Result<Peeked, NoMemory>
        requires here { HasDevice self.old d }
        requires track { IfSome (device_at self.old.devices.items d) (λ x. t < tracks_of (device_of x).store) }
        requires takes { IfSome (device_at self.old.devices.items d) (λ x. TakesItsTracks K.takes keep.old x) }
        ensures spans { HasSameSpans self.old self.new }
        ensures stands { IsUnwritten d t self.old.devices.items → StayStanding self.old.devices.items self.new.devices.items }
        ensures asked { LooksAt (Heard K.hears K.takes) d t result self.old keep.old self.new keep.new }
    {
        let at = self.place(d);
        self.devices[at].peek_with(t, &mut self.pool, keep)
    }
}

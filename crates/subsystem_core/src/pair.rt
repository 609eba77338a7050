ghost use Rattle.std.specs.Prelude.{◌≡◌, ◌*◌, IfErr, IfOk, IfSome, None, OnErr, OnOk, Some, false, is_some, List, ℕ};
ghost use Rattle.device_outside.specs.Keeper.{Heard};
ghost use Rattle.ckd_types.specs.declared.record.Track.{Track};
ghost use Rattle.past_laws.specs.PutAway.{PutAway};
ghost use Rattle.device_core.specs.Promises.{TellsTracks};
ghost use Rattle.device_core.specs.State.{device_of};
ghost use Rattle.device_defs.specs.Store.{tracks_of};
ghost use Rattle.subsystem_defs.specs.Happening.{is_lent_to};
ghost use Rattle.subsystem_defs.specs.Refusals.{unpair_fault};
ghost use Rattle.subsystem_core.specs.Comes.{AreStill, CameKept, Changes, IsSplit, JoinsKept, Restored, Unpaired};
ghost use Rattle.subsystem_core.specs.Devices.{device_at};
ghost use Rattle.subsystem_core.specs.Pairs.{HasPairFault, IsFirstLent, IsJoined, IsLent, IsOfSize};
ghost use Rattle.subsystem_core.specs.Frames.{HasDevice, HasSameDevices, HasSameSpans};
ghost use Rattle.subsystem_core.specs.Standing.{AllStand, StayPlain, StayStanding, TellsEmpty};

use crate::refusal::{pair_fault, unpair_fault};
use crate::{EventEnd, Subsystem};
use ckd_types::{DeviceNo, NoMemory};
use device_core::Device;
use device_outside::{Keep, Volume};
use frame_pool::Pool;
use subsystem_defs::{Event, OrderFault};
use track_image::TrackImage;

fn is_lent_to<V: Volume>(device: &Device<V>, a: DeviceNo) -> bool
    ensures { result ≡ is_lent_to (device_of device.now).store.lent a }
{
    match device.lent_to() {
        Some(to) => to == a,
        None => false,
    }
}

/// The place of the first device that is lent to this one.
fn lent_place<V: Volume>(devices: &[Device<V>], a: DeviceNo) -> Option<usize>
    ensures { IsFirstLent a devices.now result }
{
    for i in 0..devices.len() {
        if is_lent_to(&devices[i], a) {
            return Some(i);
        }
    }
    None
}

/// Two devices become a pair.
impl<V: Volume> Subsystem<V> {
    fn pair_fault(&self, a: DeviceNo, b: DeviceNo) -> Option<OrderFault>
        requires a { HasDevice self.now a }
        requires b { HasDevice self.now b }
        ensures { HasPairFault (device_at self.now.devices.items a) (device_at self.now.devices.items b) result }
    {
        let first = self.device(a);
        let second = self.device(b);
        pair_fault(first, second)
    }

    /// A device lends its volume. No keeper hears of it.
    fn lend_at<K: Keep<TrackImage>>(&mut self, d: DeviceNo, to: DeviceNo, _keep: &K) -> Option<V>
        requires here { HasDevice self.old d }
        requires fine { HasPairFault (device_at self.old.devices.items to) (device_at self.old.devices.items d) None }
        ensures spans { HasSameSpans self.old self.new }
        ensures stands { StayStanding self.old.devices.items self.new.devices.items }
        ensures told { (pasts : ℕ → PutAway) (firsts : ℕ → List Track) → AllStand pasts firsts self.old.devices.items
            → IfSome result (λ v. TellsTracks (V.view v) (V.view v).tracks) }
        ensures lent { Changes d (IsLent (Heard K.hears K.takes) to result self.old.pool self.new.pool) self.old.devices.items self.new.devices.items }
    {
        let at = self.place(d);
        self.devices[at].lend_with::<Pool, K>(to, &mut self.pool)
    }

    /// A volume becomes side B of a device.
    fn join_at(&mut self, d: DeviceNo, volume: V)
        requires here { HasDevice self.old d }
        requires free { IfSome (device_at self.old.devices.items d) (λ x. is_some (device_of x).store.lent ≡ false) }
        requires size { IfSome (device_at self.old.devices.items d) (λ x. (V.view volume).tracks ≡ tracks_of (device_of x).store) }
        requires single { IfSome (device_at self.old.devices.items d) (λ x. (device_of x).store.paired ≡ false) }
        ensures spans { HasSameSpans self.old self.new }
        ensures stands { TellsTracks (V.view volume) (V.view volume).tracks → StayStanding self.old.devices.items self.new.devices.items }
        ensures pool { self.new.pool ≡ self.old.pool }
        ensures joined { Changes d (IsJoined volume) self.old.devices.items self.new.devices.items }
    {
        let at = self.place(d);
        self.devices[at].join_volume(volume);
    }

    /// The second one's volume becomes side B of the first.
    fn join_lent<K: Keep<TrackImage>>(&mut self, a: DeviceNo, b: DeviceNo, keep: &K)
        requires a { HasDevice self.old a }
        requires b { HasDevice self.old b }
        requires fine { HasPairFault (device_at self.old.devices.items a) (device_at self.old.devices.items b) None }
        ensures spans { HasSameSpans self.old self.new }
        ensures stands { StayStanding self.old.devices.items self.new.devices.items }
        ensures joined { IfSome (device_at self.old.devices.items b) (λ y. JoinsKept (Heard K.hears K.takes) a b (device_of y) self.old self.new) }
    {
        let volume = match self.lend_at(b, a, keep) {
            Some(volume) => volume,
            None => unreachable!(),
        };
        self.join_at(a, volume);
    }

    /// The second device lends its volume to the first, whose side B it becomes, with every track stale.
    pub(crate) fn pair<K: Keep<TrackImage>>(
        &mut self,
        a: DeviceNo,
        b: DeviceNo,
        keep: &K,
    ) -> EventEnd
        requires a { HasDevice self.old a }
        requires b { HasDevice self.old b }
        ensures spans { HasSameSpans self.old self.new }
        ensures stands { StayStanding self.old.devices.items self.new.devices.items }
        ensures came { CameKept (Heard K.hears K.takes) (Event.Pair a b) self.old keep.now (Some result) self.new keep.now }
    {
        if let Some(fault) = self.pair_fault(a, b) {
            return EventEnd::Refused(fault);
        }
        self.join_lent(a, b, keep);
        EventEnd::Done
    }
}

/// A pair is taken apart.
impl<V: Volume> Subsystem<V> {
    /// Side B leaves a device. Its volume is dropped.
    fn split_at(&mut self, d: DeviceNo)
        requires here { HasDevice self.old d }
        requires fine { IfSome (device_at self.old.devices.items d) (λ x. unpair_fault (device_of x) ≡ None) }
        ensures numbers { HasSameDevices self.old self.new }
        ensures pool { self.new.pool ≡ self.old.pool }
        ensures stands { StayStanding self.old.devices.items self.new.devices.items }
        ensures split { Changes d IsSplit self.old.devices.items self.new.devices.items }
    {
        let at = self.place(d);
        let _volume = self.devices[at].split();
    }

    /// The device at that place, which is lent to this one, gets a volume again. Room in its journal is made first.
    fn restore_at(&mut self, at: usize, a: DeviceNo, volume: V) -> Result<(), (NoMemory, V)>
        requires lent { IsFirstLent a self.old.devices.items (Some at) }
        requires size { IsOfSize volume (device_at self.old.devices.items a) }
        ensures numbers { HasSameDevices self.old self.new }
        ensures pool { self.new.pool ≡ self.old.pool }
        ensures stands { OnOk result (TellsEmpty (V.view volume)) → StayStanding self.old.devices.items self.new.devices.items }
        ensures restored { OnOk result (Restored a volume self.old.devices.items self.new.devices.items) }
        ensures still { OnErr result (AreStill self.old.devices.items self.new.devices.items) }
        ensures back { IfErr result (λ e. e.1 ≡ volume) }
    {
        self.devices[at].restore(volume)
    }

    /// The device that is lent to this one gets a volume again.
    fn restore_lent(&mut self, a: DeviceNo, volume: V) -> Result<(), (NoMemory, V)>
        requires { IsOfSize volume (device_at self.old.devices.items a) }
        ensures numbers { HasSameDevices self.old self.new }
        ensures pool { self.new.pool ≡ self.old.pool }
        ensures stands { OnOk result (TellsEmpty (V.view volume)) → StayStanding self.old.devices.items self.new.devices.items }
        ensures restored { OnOk result (Restored a volume self.old.devices.items self.new.devices.items) }
        ensures still { OnErr result (AreStill self.old.devices.items self.new.devices.items) }
        ensures back { IfErr result (λ e. e.1 ≡ volume) }
    {
        match lent_place(&self.devices, a) {
            Some(at) => self.restore_at(at, a, volume),
            None => Ok(()),
        }
    }

    /// Side B leaves a device, and its volume is dropped. The device that had lent it gets a volume of empty tracks, 15 for each
    /// cylinder, and is empty. Refused, it drops the volume; where memory is lacking, nothing is changed and the volume comes back.
    pub fn unpair(&mut self, a: DeviceNo, volume: V) -> Result<EventEnd, (NoMemory, V)>
        requires here { HasDevice self.old a }
        requires size { IfSome (device_at self.old.devices.items a) (λ x. (V.view volume).tracks ≡ tracks_of (device_of x).store) }
        ensures numbers { HasSameDevices self.old self.new }
        ensures plain { OnOk result (TellsEmpty (V.view volume)) → StayPlain self.old.devices.items self.new.devices.items }
        ensures unpaired { IfOk result (λ end. Unpaired a volume (device_at self.old.devices.items a) self.old end self.new) }
        ensures lacked { OnErr result ((self.new.pool ≡ self.old.pool) × AreStill self.old.devices.items self.new.devices.items) }
        ensures back { IfErr result (λ e. e.1 ≡ volume) }
    {
        if let Some(fault) = unpair_fault(self.device(a)) {
            return Ok(EventEnd::Refused(fault));
        }
        match self.restore_lent(a, volume) {
            Err((NoMemory, volume)) => return Err((NoMemory, volume)),
            Ok(()) => (),
        }
        self.split_at(a);
        Ok(EventEnd::Done)
    }
}

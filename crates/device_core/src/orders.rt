ghost use Rattle.std.specs.Prelude.{◌≡◌, ◌≤◌, ◌*◌, ℕ, IfErr, None, OnErr, OnOk, Some, false, is_some, option_map, true, List};
ghost use Rattle.ckd_types.specs.declared.record.Track.{Track};
ghost use Rattle.track_table.specs.Tracks.{count_below};
ghost use Rattle.plain_defs.specs.History.{emptied};
ghost use Rattle.device_defs.specs.Contents.{contents};
ghost use Rattle.device_defs.specs.Orders.{hold_side, join, lend, replace, restore, resume, split};
ghost use Rattle.device_defs.specs.Store.{side_of, stale_at, tracks_of};
ghost use Rattle.device_outside.specs.declared.keep.NoKeep.{NoKeep};
ghost use Rattle.device_outside.specs.Keeper.{Heard, reply};
ghost use Rattle.device_outside.specs.Outside.{Ran};
ghost use Rattle.device_store.specs.State.{surely};
ghost use Rattle.device_core.specs.Kept.{history_of, ActRoom, Keeps};
ghost use Rattle.device_core.specs.State.{around, device_of, other_volume, own_volumes, side_volume, volume_a, volume_b, HasSameTracks, IsSameDevice};
ghost use Rattle.past_laws.specs.PutAway.{PutAway};
ghost use Rattle.device_core.specs.Promises.{
  ComesPlain,
  ComesSound,
  HasLostNone,
  LeavesPlain,
  StandsLent,
  StandsPlain,
  StaysExcused,
  StaysPlain,
  StaysSound,
  TellsTracks,
};
ghost use Rattle.device_outside.specs.Disk.{empty_contents};
ghost use Rattle.subsystem_defs.specs.Refusals.{replace_fault, suspend_fault, unpair_fault};

use crate::Device;
use crate::history::Past;
use crate::start::ITEMS_BEFORE_NEXT;
use ckd_types::{DeviceNo, NoMemory, Side};
use device_outside::{Keep, NoKeep, Port, Volume};
use plain_defs::Item;
use track_image::TrackImage;

impl Past {
    /// Makes room for one item more than may come before the next start.
    fn reserve_fresh(&mut self) -> Result<(), NoMemory>
        requires { Keeps self.old }
        ensures history { history_of self.new ≡ history_of self.old }
        ensures running { self.new.running ≡ self.old.running }
        ensures keeps { Keeps self.new }
        ensures made { OnOk result (8 ≤ self.new.items.spare) }
        ensures room { (n : ℕ) → ActRoom n self.old → ActRoom n self.new }
    {
        self.items.reserve(ITEMS_BEFORE_NEXT + 1, 0)?;
        Ok(())
    }

    /// That the device is empty stands in the journal, in room that was made.
    fn note_fresh(&mut self)
        requires keeps { Keeps self.old }
        requires room { 8 ≤ self.old.items.spare }
        ensures history { history_of self.new ≡ emptied (history_of self.old) }
        ensures running { self.new.running ≡ self.old.running }
        ensures keeps { Keeps self.new }
        ensures room { (n : ℕ) → ActRoom n self.old → ActRoom n self.new }
    {
        self.items.push(Item::Fresh);
    }
}

impl<V: Volume> Device<V> {
    /// An empty volume in place of a side's, which is there, with every track stale. It answers the old volume. Orders take no memory
    /// but for `restore`.
    pub fn replace(&mut self, side: Side, volume: V) -> V
        requires here { is_some (device_of self.old).store.lent ≡ false }
        requires there { is_some (side_volume self.old side) ≡ true }
        requires size { (V.view volume).tracks ≡ tracks_of (device_of self.old).store }
        ensures device { device_of self.new ≡ replace (device_of self.old) side }
        ensures volume { side_volume self.new side ≡ Some volume }
        ensures other { other_volume self.new side ≡ other_volume self.old side }
        ensures back { side_volume self.old side ≡ Some result }
        ensures sound { TellsTracks (V.view volume) (tracks_of (device_of self.old).store) → (side_of (device_of self.old).store side).up ≡ false → StaysSound self.old self.new }
        ensures plain { TellsTracks (V.view volume) (tracks_of (device_of self.old).store) → (side_of (device_of self.old).store side).up ≡ false → StaysPlain self.old self.new }
        ensures excused { TellsTracks (V.view volume) (tracks_of (device_of self.old).store) → replace_fault (device_of self.old) side ≡ None → StaysExcused self.old self.new }
    {
        match self.store.replace(side, volume) {
            Some(old) => old,
            None => unreachable!(),
        }
    }

    /// Side B takes nothing from here on.
    pub fn hold(&mut self)
        ensures device { device_of self.new ≡ hold_side (device_of self.old) }
        ensures volume { own_volumes self.new ≡ own_volumes self.old }
        ensures sound { StaysSound self.old self.new }
        ensures plain { StaysPlain self.old self.new }
        ensures excused { suspend_fault (device_of self.old) ≡ None → StaysExcused self.old self.new }
    {
        self.store.hold();
    }

    /// What is stale on a held side is copied from here on.
    pub fn resume(&mut self)
        ensures device { device_of self.new ≡ resume (device_of self.old) }
        ensures volume { own_volumes self.new ≡ own_volumes self.old }
        ensures sound { StaysSound self.old self.new }
        ensures plain { StaysPlain self.old self.new }
        ensures excused { StaysExcused self.old self.new }
    {
        self.store.resume();
    }

    /// Another device's volume becomes side B, with every track stale.
    pub fn join_volume(&mut self, volume: V)
        requires here { is_some (device_of self.old).store.lent ≡ false }
        requires size { (V.view volume).tracks ≡ tracks_of (device_of self.old).store }
        ensures device { device_of self.new ≡ join (device_of self.old) }
        ensures a { volume_a self.new ≡ volume_a self.old }
        ensures b { volume_b self.new ≡ Some volume }
        ensures sound { TellsTracks (V.view volume) (tracks_of (device_of self.old).store) → (device_of self.old).store.paired ≡ false → StaysSound self.old self.new }
        ensures plain { TellsTracks (V.view volume) (tracks_of (device_of self.old).store) → (device_of self.old).store.paired ≡ false → StaysPlain self.old self.new }
        ensures excused { TellsTracks (V.view volume) (tracks_of (device_of self.old).store) → (device_of self.old).store.paired ≡ false → StaysExcused self.old self.new }
    {
        self.store.join(volume);
    }

    /// Side B leaves, where there is one.
    pub fn split(&mut self) -> Option<V>
        ensures device { device_of self.new ≡ split (device_of self.old) }
        ensures a { volume_a self.new ≡ volume_a self.old }
        ensures b { volume_b self.new ≡ None }
        ensures back { result ≡ volume_b self.old }
        ensures sound { unpair_fault (device_of self.old) ≡ None → StaysSound self.old self.new }
        ensures plain { unpair_fault (device_of self.old) ≡ None → StaysPlain self.old self.new }
        ensures excused { unpair_fault (device_of self.old) ≡ None → StaysExcused self.old self.new }
    {
        self.store.split()
    }

    /// The volume of a device that is alone leaves for another's pair. It answers it.
    pub fn lend_with<P: Port, K: Keep<TrackImage>>(
        &mut self,
        to: DeviceNo,
        port: &mut P,
    ) -> Option<V>
        requires { (device_of self.old).store.paired ≡ false }
        ensures fixed { IsSameDevice self.old self.new }
        ensures a { volume_a self.new ≡ None }
        ensures b { volume_b self.new ≡ None }
        ensures back { result ≡ volume_a self.old }
        ensures run { (k : K) → Ran surely (Heard K.hears K.takes) (lend contents (device_of self.old) to) (around (P.view port.old) self.old k)
            (device_of self.new) tt (record (around (P.view port.new) self.new k) { a = option_map V.view result }) }
        ensures sound { (k : K) → (device_of self.old).history.running ≡ None → StaysSound self.old self.new }
        ensures plain { (k : K) → (device_of self.old).history.running ≡ None → LeavesPlain self.old self.new }
        ensures excused { (k : K) → (device_of self.old).history.running ≡ None → (past : PutAway) (first : List Track) → StandsPlain past first self.old → HasLostNone self.new }
    {
        let before = self.store.waiting_count();
        self.store.begin_event();
        let volume = self.store.lend(to);
        self.store.end_event::<P, K>(before, port);
        volume
    }

    /// The same, with a keeper that keeps nothing.
    pub fn lend<P: Port>(&mut self, to: DeviceNo, port: &mut P) -> Option<V>
        requires { (device_of self.old).store.paired ≡ false }
        ensures fixed { IsSameDevice self.old self.new }
        ensures a { volume_a self.new ≡ None }
        ensures b { volume_b self.new ≡ None }
        ensures back { result ≡ volume_a self.old }
        ensures run { (k : NoKeep) → Ran surely (λ _ m r _. r ≡ reply m) (lend contents (device_of self.old) to)
            (around (P.view port.old) self.old k) (device_of self.new) tt
            (record (around (P.view port.new) self.new k) { a = option_map V.view result }) }
        ensures sound { (device_of self.old).history.running ≡ None → StaysSound self.old self.new }
        ensures plain { (device_of self.old).history.running ≡ None → LeavesPlain self.old self.new }
        ensures excused { (device_of self.old).history.running ≡ None → (past : PutAway) (first : List Track) → StandsPlain past first self.old → HasLostNone self.new }
    {
        self.lend_with::<P, NoKeep>(to, port)
    }

    /// An empty volume in place of the one that was lent, and the device is empty. Room in the journal is made first.
    pub fn restore(&mut self, volume: V) -> Result<(), (NoMemory, V)>
        requires { (V.view volume).tracks ≡ tracks_of (device_of self.old).store }
        ensures device { OnOk result (device_of self.new ≡ restore (device_of self.old)) }
        ensures a { OnOk result (volume_a self.new ≡ Some volume) }
        ensures b { volume_b self.new ≡ volume_b self.old }
        ensures same { OnErr result ((device_of self.new ≡ device_of self.old) × HasSameTracks self.old self.new) }
        ensures back { IfErr result (λ e. e.1 ≡ volume) }
        ensures sound { OnOk result ((V.view volume).contents ≡ Some (empty_contents (self.old.store.cylinders * 15)) → ComesSound self.old self.new) }
        ensures plain { OnOk result ((V.view volume).contents ≡ Some (empty_contents (self.old.store.cylinders * 15)) → ComesPlain self.old self.new) }
        ensures excused { OnOk result ((past : PutAway) (first : List Track) → StandsLent past first self.old → HasLostNone self.new) }
    {
        match self.past.reserve_fresh() {
            Err(NoMemory) => return Err((NoMemory, volume)),
            Ok(()) => (),
        }
        self.past.note_fresh();
        self.store.restore(volume);
        Ok(())
    }

    /// Whether it has a side B.
    pub fn paired(&self) -> bool
        ensures { result ≡ (device_of self.now).store.paired }
    {
        self.store.is_paired()
    }

    /// Whether side B is held.
    pub fn held(&self) -> bool
        ensures { result ≡ (device_of self.now).store.held }
    {
        self.store.is_held()
    }

    /// Whether a side is there and wasn't lost.
    pub fn up(&self, side: Side) -> bool
        ensures { result ≡ (side_of (device_of self.now).store side).up }
    {
        self.store.is_up(side)
    }

    /// How many tracks are stale on a side, at most 65535.
    pub fn stale(&self, side: Side) -> u16
        ensures { result ≡ count_below (tracks_of (device_of self.now).store) (stale_at (side_of (device_of self.now).store side)) }
    {
        self.store.stale_count(side)
    }
}

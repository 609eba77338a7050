ghost use Rattle.std.specs.Prelude.{◌≡◌, ◌*◌, [], IfErr, IfOk, IfSome, IsOk, None, OnErr, OnOk, Some, false, true};
ghost use Rattle.device_outside.specs.Keeper.{Heard};
ghost use Rattle.device_core.specs.State.{device_of};
ghost use Rattle.device_defs.specs.Store.{tracks_of};
ghost use Rattle.subsystem_core.specs.Comes.{AreStill, CameKept, Replaced, Unpaired};
ghost use Rattle.subsystem_core.specs.Devices.{device_at, numbers_of};
ghost use Rattle.subsystem_core.specs.Ends.{answer_of};
ghost use Rattle.subsystem_core.specs.Places.{may_come};
ghost use Rattle.subsystem_core.specs.Frames.{HasDevice, HasSameDevices};
ghost use Rattle.subsystem_defs.specs.Happening.{happens};
ghost use Rattle.subsystem_defs.specs.Lines.{is_settled};
ghost use Rattle.subsystem_defs.specs.Subsystem as runs;
ghost use Rattle.deck_run.specs.Owning.{AreOwn};
ghost use Rattle.deck_run.specs.Seen.{settles};
ghost use Rattle.deck_run.specs.Standing.{StandsAs};
ghost use Rattle.line_drive.specs.Driven.{Comes, Replaces, Unpairs};
ghost use Rattle.line_drive.specs.Ending.{EndsAs, IsNewFor};
ghost use Rattle.remote_copy.specs.declared.state.MirrorState.TheVariants.{Level};
ghost use Rattle.remote_copy.specs.Following.{Follows, IsFarFor};
ghost use Rattle.remote_copy.specs.Mirroring.{IsMirror, MirrorRun, is_lending, mirror_begun, mirror_did};
ghost use Rattle.remote_copy.specs.Sending.{hears_sent, takes_sent};

use crate::{Link, Mirror, MirrorState, Sender};
use ckd_types::{DeviceNo, NoMemory, Side};
use device_outside::Volume;
use line_drive::{do_event_with, do_replace, do_unpair};
use subsystem_core::{EventEnd, Subsystem};
use subsystem_defs::Event;

impl<V: Volume, L: Link> Mirror<V, L> {
    /// From here on the firm tracks of device `d`, to which nothing has happened yet, are put on the link. Nothing is copied here: the far
    /// volume is to hold first what the device's volume does, which both may be empty. Takes no memory.
    pub fn new(sub: Subsystem<V>, d: DeviceNo, link: L) -> Mirror<V, L>
        requires here { HasDevice sub d }
        requires home { IfSome (device_at sub.devices.items d) (λ x. (device_of x).store.lent ≡ None) }
        requires unused { IfSome (device_at sub.devices.items d) (λ x. ((device_of x).history.items ≡ []) × ((device_of x).history.running ≡ None)) }
        requires fits { IfSome (device_at sub.devices.items d) (IsFarFor (L.view link)) }
        ensures sub { result.sub ≡ sub }
        ensures sender { result.sender ≡ record { device = d; sent = 0; state = Level; link = L.view link } }
        ensures begun { (run : runs.Subsystem) (m : runs.Mounted) → StandsAs sub run → AreOwn sub.devices.items → runs.mounted_in run.mounted d ≡ Some m
            → IfSome (L.view link).far (λ far. far ≡ m.device.store.firm)
            → IsMirror result (mirror_begun run d m.device.store.firm (L.view link).calls) }
    {
        Mirror {
            sub,
            sender: Sender::new(d, link),
        }
    }

    /// One event of the devices. Each track of the device that it makes firm is put in it, while the far volume is level, or where the
    /// track is one of those that are copied. At want of memory the puts of it stay done, and the state that they led to.
    pub fn event(&mut self, e: Event) -> Result<EventEnd, NoMemory>
        requires come { may_come (numbers_of self.old.sub.devices.items) e ≡ true }
        requires home { is_lending e self.old.sender.device ≡ false }
        ensures numbers { HasSameDevices self.old.sub self.new.sub }
        ensures came { CameKept (Heard hears_sent takes_sent) e self.old.sub self.old.sender (answer_of result) self.new.sub self.new.sender }
        ensures follows { Follows self.old.sender self.new.sender }
        ensures mirrors { (c : MirrorRun) → IsMirror self.old c → OnOk result (IsMirror self.new (mirror_did c (Comes e))) }
        ensures ended { (c : MirrorRun) → IsMirror self.old c → IfOk result (λ end. EndsAs e self.new.sub end (happens c.run e).end) }
        ensures settled { (c : MirrorRun) → IsMirror self.old c → IfOk result (λ end. settles end ≡ is_settled (happens c.run e).end) }
    {
        do_event_with(&mut self.sub, e, &mut self.sender)
    }

    /// A new volume of empty tracks, 15 for each cylinder, in place of a failed side's. Nothing is put.
    pub fn replace(&mut self, d: DeviceNo, side: Side, volume: V) -> Result<EventEnd, (NoMemory, V)>
        requires here { HasDevice self.old.sub d }
        requires size { IfSome (device_at self.old.sub.devices.items d) (λ x. (V.view volume).tracks ≡ tracks_of (device_of x).store) }
        ensures numbers { HasSameDevices self.old.sub self.new.sub }
        ensures had { IsOk result }
        ensures replaced { IfOk result (λ end. Replaced d side volume (device_at self.old.sub.devices.items d) self.old.sub end self.new.sub) }
        ensures sender { self.new.sender ≡ self.old.sender }
        ensures mirrors { (c : MirrorRun) → IsMirror self.old c → IsNewFor (V.view volume) (device_at self.old.sub.devices.items d)
            → OnOk result (IsMirror self.new (mirror_did c (Replaces d side))) }
    {
        do_replace(&mut self.sub, d, side, volume)
    }

    /// Side B leaves a device, and the one that had lent it gets a volume of empty tracks, 15 for each cylinder. Nothing is put.
    pub fn unpair(&mut self, a: DeviceNo, volume: V) -> Result<EventEnd, (NoMemory, V)>
        requires here { HasDevice self.old.sub a }
        requires size { IfSome (device_at self.old.sub.devices.items a) (λ x. (V.view volume).tracks ≡ tracks_of (device_of x).store) }
        ensures numbers { HasSameDevices self.old.sub self.new.sub }
        ensures unpaired { IfOk result (λ end. Unpaired a volume (device_at self.old.sub.devices.items a) self.old.sub end self.new.sub) }
        ensures lacked { OnErr result ((self.new.sub.pool ≡ self.old.sub.pool) × AreStill self.old.sub.devices.items self.new.sub.devices.items) }
        ensures back { IfErr result (λ e. e.1 ≡ volume) }
        ensures sender { self.new.sender ≡ self.old.sender }
        ensures mirrors { (c : MirrorRun) → IsMirror self.old c → IsNewFor (V.view volume) (device_at self.old.sub.devices.items a)
            → OnOk result (IsMirror self.new (mirror_did c (Unpairs a))) }
    {
        do_unpair(&mut self.sub, a, volume)
    }

    /// How far the far volume is.
    pub fn state(&self) -> MirrorState
        ensures { result ≡ self.now.sender.state }
    {
        self.sender.state()
    }

    /// The link.
    pub fn link(&self) -> &L
        ensures { L.view result.now ≡ self.now.sender.link }
    {
        self.sender.link()
    }

    /// The devices.
    pub fn subsystem(&self) -> &Subsystem<V>
        ensures { result.now ≡ self.now.sub }
    {
        &self.sub
    }
}

ghost use Rattle.std.specs.Prelude.{◌≡◌, ◌*◌, IfErr, IfOk, IfSome, OnErr, OnOk, IsOk, true, ℕ};
ghost use Rattle.track_image.specs.Image.{Image};
ghost use Rattle.device_outside.specs.Keeper.{Heard};
ghost use Rattle.device_core.specs.State.{device_of};
ghost use Rattle.device_defs.specs.Store.{tracks_of};
ghost use Rattle.subsystem_core.specs.Comes.{AreStill, CameKept, Replaced, Unpaired};
ghost use Rattle.subsystem_core.specs.Devices.{device_at, numbers_of};
ghost use Rattle.subsystem_core.specs.Ends.{answer_of};
ghost use Rattle.subsystem_core.specs.Places.{may_come};
ghost use Rattle.subsystem_core.specs.Frames.{HasDevice, HasSameDevices};
ghost use Rattle.subsystem_defs.specs.Happening.{happens};
ghost use Rattle.subsystem_defs.specs.Lines.{is_settled};
ghost use Rattle.deck_run.specs.Seen.{settles};
ghost use Rattle.line_drive.specs.Driven.{Comes, Replaces, Unpairs};
ghost use Rattle.line_drive.specs.Ending.{EndsAs, IsNewFor};
ghost use Rattle.point_copy.specs.Copying.{CopyState, copy_did};
ghost use Rattle.point_copy.specs.Keeping.{hears_old, takes_all};
ghost use Rattle.point_copy.specs.Sessions.{IsCopy, Notes};

use crate::Session;
use ckd_types::{DeviceNo, NoMemory, Side};
use device_outside::Volume;
use line_drive::{do_event_with, do_replace, do_unpair};
use subsystem_core::{EventEnd, Subsystem};
use subsystem_defs::Event;

impl<V: Volume> Session<V> {
    /// Whether the device is lent is noted, where it wasn't lent before.
    fn note_lent(&mut self)
        ensures sub { self.new.sub ≡ self.old.sub }
        ensures kept { self.new.kept ≡ self.old.kept }
        ensures noted { Notes self.old self.new }
    {
        if self.gone.is_some() {
            return;
        }
        self.gone = self.sub.device(self.device).lent_to();
    }

    /// One event of the devices. Want of memory for an old track is the event's; then nothing is said of what is given from here on.
    pub fn event(&mut self, e: Event) -> Result<EventEnd, NoMemory>
        requires { may_come (numbers_of self.old.sub.devices.items) e ≡ true }
        ensures numbers { HasSameDevices self.old.sub self.new.sub }
        ensures came { CameKept (Heard hears_old takes_all) e self.old.sub self.old.kept (answer_of result) self.new.sub self.new.kept }
        ensures noted { Notes self.old self.new }
        ensures copies { (c : CopyState) (old : ℕ → Image) → IsCopy self.old c old → OnOk result (IsCopy self.new (copy_did c (Comes e)) old) }
        ensures ended { (c : CopyState) (old : ℕ → Image) → IsCopy self.old c old → IfOk result (λ end. EndsAs e self.new.sub end (happens c.run e).end) }
        ensures settled { (c : CopyState) (old : ℕ → Image) → IsCopy self.old c old
            → IfOk result (λ end. settles end ≡ is_settled (happens c.run e).end) }
    {
        let end = do_event_with(&mut self.sub, e, &mut self.kept);
        self.note_lent();
        end
    }

    /// A new volume of empty tracks, 15 for each cylinder, in place of a failed side's.
    pub fn replace(&mut self, d: DeviceNo, side: Side, volume: V) -> Result<EventEnd, (NoMemory, V)>
        requires here { HasDevice self.old.sub d }
        requires size { IfSome (device_at self.old.sub.devices.items d) (λ x. (V.view volume).tracks ≡ tracks_of (device_of x).store) }
        ensures numbers { HasSameDevices self.old.sub self.new.sub }
        ensures had { IsOk result }
        ensures replaced { IfOk result (λ end. Replaced d side volume (device_at self.old.sub.devices.items d) self.old.sub end self.new.sub) }
        ensures kept { self.new.kept ≡ self.old.kept }
        ensures noted { Notes self.old self.new }
        ensures copies { (c : CopyState) (old : ℕ → Image) → IsCopy self.old c old → IsNewFor (V.view volume) (device_at self.old.sub.devices.items d)
            → OnOk result (IsCopy self.new (copy_did c (Replaces d side)) old) }
    {
        let end = do_replace(&mut self.sub, d, side, volume);
        self.note_lent();
        end
    }

    /// Side B leaves a device, and the one that had lent it gets a volume of empty tracks, 15 for each cylinder.
    pub fn unpair(&mut self, a: DeviceNo, volume: V) -> Result<EventEnd, (NoMemory, V)>
        requires here { HasDevice self.old.sub a }
        requires size { IfSome (device_at self.old.sub.devices.items a) (λ x. (V.view volume).tracks ≡ tracks_of (device_of x).store) }
        ensures numbers { HasSameDevices self.old.sub self.new.sub }
        ensures unpaired { IfOk result (λ end. Unpaired a volume (device_at self.old.sub.devices.items a) self.old.sub end self.new.sub) }
        ensures lacked { OnErr result ((self.new.sub.pool ≡ self.old.sub.pool) × AreStill self.old.sub.devices.items self.new.sub.devices.items) }
        ensures back { IfErr result (λ e. e.1 ≡ volume) }
        ensures kept { self.new.kept ≡ self.old.kept }
        ensures noted { Notes self.old self.new }
        ensures copies { (c : CopyState) (old : ℕ → Image) → IsCopy self.old c old → IsNewFor (V.view volume) (device_at self.old.sub.devices.items a)
            → OnOk result (IsCopy self.new (copy_did c (Unpairs a)) old) }
    {
        let end = do_unpair(&mut self.sub, a, volume);
        self.note_lent();
        end
    }

    /// The devices.
    pub fn subsystem(&self) -> &Subsystem<V>
        ensures { result.now ≡ self.now.sub }
    {
        &self.sub
    }

    /// The devices, of which nothing is kept any more.
    pub fn end(self) -> Subsystem<V>
        ensures { result ≡ self.sub }
    {
        self.sub
    }
}

ghost use Rattle.std.specs.Prelude.{◌≡◌, ◌*◌, [], ℕ, List, IfOk, IfSome, OnOk, length, true};
ghost use Rattle.device_outside.specs.Disk.{new_disk};
ghost use Rattle.device_outside.specs.Lists.{is_in};
ghost use Rattle.device_core.specs.State.{device_of};
ghost use Rattle.subsystem_core.specs.Devices.{device_at, numbers_of};
ghost use Rattle.subsystem_core.specs.Places.{may_come};
ghost use Rattle.subsystem_defs.specs.Happening.{happens};
ghost use Rattle.subsystem_defs.specs.Lines.{is_settled};
ghost use Rattle.deck_run.specs.Seen.{settles};
ghost use Rattle.deck_run.specs.Standing.{StandsAs};
ghost use Rattle.line_drive.specs.Driven.{Comes, Course, Occurred, Replaces, Unpairs};
ghost use Rattle.line_drive.specs.Staging.{GoesOn, Reaches};

use ckd_types::{DeviceNo, NoMemory, Side};
use device_outside::MemVolume;
use subsystem_core::{EventEnd, Subsystem};
use subsystem_defs::Event;

/// Why event lines went no further.
#[derive(Debug, Drop)]
pub enum Stopped<E> {
    NoMemory,
    /// What is done behind an event ended them.
    Ended(E),
}

/// Whoever has the devices, and does something behind each event. `E` is with what that may end the lines.
pub trait Stage<E> {
    // What stands for it in a run, and how a run goes on from there.
    ghost Way: { Type 0 };

    ghost course: { Course Way E };

    ghost stands: { Self → Way → Type 0 };

    // The numbers of its devices, and how many cylinders the one of a number has.
    ghost numbers: { Self → List ℕ };

    ghost cylinders: { Self → ℕ → ℕ };

    // What may be asked of it, beside that the devices are there.
    ghost may: { Self → Occurred → Type 0 };

    /// Its devices.
    fn sub(&self) -> &Subsystem<MemVolume>
        ensures there { numbers_of result.now.devices.items ≡ numbers self.now }
        ensures sizes { (d : ℕ) → IfSome (device_at result.now.devices.items d) (λ x. (device_of x).store.cylinders ≡ cylinders self.now d) }
        ensures stood { (w : Way) → stands self.now w → StandsAs result.now (course.sub w) };

    /// One event, and how it ended.
    fn event(&mut self, e: Event) -> Result<EventEnd, NoMemory>
        requires here { may_come (numbers self.old) e ≡ true }
        requires asked { may self.old (Comes e) }
        ensures goes_on { OnOk result (GoesOn numbers may self.old self.new) }
        ensures did { (w : Way) → stands self.old w → OnOk result (stands self.new (course.did w (Comes e))) }
        ensures settled { (w : Way) → stands self.old w → IfOk result (λ end. settles end ≡ is_settled (happens (course.sub w) e).end) };

    /// A new volume of empty tracks in place of a failed side's. None of its calls fails.
    fn replace(&mut self, d: DeviceNo, side: Side, volume: MemVolume) -> Result<(), NoMemory>
        requires here { is_in d (numbers self.old) ≡ true }
        requires asked { may self.old (Replaces d side) }
        requires empty { volume ≡ new_disk (cylinders self.old d) [] [] }
        requires size { length volume.tracks ≡ cylinders self.old d * 15 }
        ensures goes_on { OnOk result (GoesOn numbers may self.old self.new) }
        ensures did { (w : Way) → stands self.old w → OnOk result (stands self.new (course.did w (Replaces d side))) };

    /// Side B leaves, and the device that had lent it gets this volume of empty tracks. None of its calls fails.
    fn unpair(&mut self, a: DeviceNo, volume: MemVolume) -> Result<(), NoMemory>
        requires here { is_in a (numbers self.old) ≡ true }
        requires asked { may self.old (Unpairs a) }
        requires empty { volume ≡ new_disk (cylinders self.old a) [] [] }
        requires size { length volume.tracks ≡ cylinders self.old a * 15 }
        ensures goes_on { OnOk result (GoesOn numbers may self.old self.new) }
        ensures did { (w : Way) → stands self.old w → OnOk result (stands self.new (course.did w (Unpairs a))) };

    /// What is done behind each event, a refused order and an idle RUN too.
    fn behind(&mut self) -> Result<(), Stopped<E>>
        ensures goes_on { OnOk result (GoesOn numbers may self.old self.new) }
        ensures reaches { (w : Way) → stands self.old w → Reaches (stands self.new) (course.behind w) result };
}

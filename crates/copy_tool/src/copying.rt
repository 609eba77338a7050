ghost use Rattle.std.specs.Prelude.{◌≡◌};
ghost use Rattle.subsystem_core.specs.Devices.{numbers_of};
ghost use Rattle.subsystem_core.specs.Frames.{HasSameDevices};
ghost use Rattle.line_drive.specs.Staging.{Reaches};
ghost use Rattle.point_copy.specs.Copying.{CopyState};
ghost use Rattle.point_copy.specs.CopyRun.{Copying, copy_course, copy_look, gave, looks_on};
ghost use Rattle.copy_tool.specs.Standing.{IsCopying, cylinders_at};

use ckd_types::{DeviceNo, NoMemory, Side};
use device_outside::MemVolume;
use line_drive::{Stage, Stopped};
use point_copy::{Early, Given, Session};
use subsystem_core::{EventEnd, Subsystem};
use subsystem_defs::Event;
use track_image::TrackImage;

/// A session, and the images that it gave so far, one for each track from track 0 on.
#[derive(Drop)]
pub(crate) struct CopyStage {
    pub session: Session<MemVolume>,
    pub images: Vec<TrackImage>,
}

/// What was given goes to the images; or the copy ends with it.
fn take(images: &mut Vec<TrackImage>, given: Given) -> Result<(), Stopped<Early>>
    ensures { (c : CopyState) → Reaches (λ g. g ≡ record { state = c; images = images.new.items }) (gave images.old.items c given) result }
{
    match given {
        Given::Track(_t, image) => match images.push(image) {
            Err(_) => Err(Stopped::NoMemory),
            Ok(()) => Ok(()),
        },
        Given::Finished => Ok(()),
        Given::Lost(t) => Err(Stopped::Ended(Early::Lost(t))),
        Given::Fault(side) => Err(Stopped::Ended(Early::Fault(side))),
        Given::BadBytes(side) => Err(Stopped::Ended(Early::Fault(side))),
        Given::Gone { of: _of } => Err(Stopped::Ended(Early::Gone)),
    }
}

/// One more track; nothing where all were given.
fn look(copying: &mut CopyStage) -> Result<(), Stopped<Early>>
    ensures numbers { HasSameDevices copying.old.session.sub copying.new.session.sub }
    ensures reaches { (c : Copying) → IsCopying copying.old c → Reaches (IsCopying copying.new) (copy_look c) result }
{
    match copying.session.next() {
        Err(NoMemory) => Err(Stopped::NoMemory),
        Ok(given) => take(&mut copying.images, given),
    }
}

impl Stage<Early> for CopyStage {
    ghost Way = { Copying };

    ghost course = { copy_course };

    ghost stands = { IsCopying };

    ghost numbers = { λ x. numbers_of x.session.sub.devices.items };

    ghost cylinders = { cylinders_at };

    ghost may = { λ _ _. Unit {0} };

    fn sub(&self) -> &Subsystem<MemVolume> {
        self.session.subsystem()
    }

    fn event(&mut self, e: Event) -> Result<EventEnd, NoMemory> {
        self.session.event(e)
    }

    fn replace(&mut self, d: DeviceNo, side: Side, volume: MemVolume) -> Result<(), NoMemory> {
        let _end = match self.session.replace(d, side, volume) {
            Err((NoMemory, _)) => return Err(NoMemory),
            Ok(end) => end,
        };
        Ok(())
    }

    fn unpair(&mut self, a: DeviceNo, volume: MemVolume) -> Result<(), NoMemory> {
        let _end = match self.session.unpair(a, volume) {
            Err((NoMemory, _)) => return Err(NoMemory),
            Ok(end) => end,
        };
        Ok(())
    }

    fn behind(&mut self) -> Result<(), Stopped<Early>> {
        look(self)
    }
}

/// As many looks as there are tracks of the largest device, and one.
const MOST_LOOKS: u16 = 961;

/// The rest of the tracks.
pub(crate) fn looks(copying: &mut CopyStage) -> Result<(), Stopped<Early>>
    ensures { (c : Copying) → IsCopying copying.old c → Reaches (IsCopying copying.new) (looks_on 961 c) result }
{
    for _turn in 0..MOST_LOOKS {
        match look(copying) {
            Err(why) => return Err(why),
            Ok(()) => (),
        }
    }
    Ok(())
}

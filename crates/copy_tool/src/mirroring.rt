ghost use Rattle.subsystem_core.specs.Devices.{numbers_of};
ghost use Rattle.remote_copy.specs.Mirroring.{IsMirror, MirrorRun};
ghost use Rattle.remote_copy.specs.Mirrored.{mirror_course};
ghost use Rattle.copy_tool.specs.MirrorStanding.{IsKept, mirror_cylinders};

use ckd_types::{DeviceNo, NoMemory, Side};
use device_outside::MemVolume;
use line_drive::{Stage, Stopped};
use remote_copy::{MemLink, Mirror};
use std::convert::Infallible;
use subsystem_core::{EventEnd, Subsystem};
use subsystem_defs::Event;

/// A mirror, behind whose events nothing more is done.
#[derive(Drop)]
pub(crate) struct MirrorStage {
    pub mirror: Mirror<MemVolume, MemLink>,
}

impl Stage<Infallible> for MirrorStage {
    ghost Way = { MirrorRun };

    ghost course = { mirror_course };

    ghost stands = { λ x c. IsMirror x.mirror c };

    ghost numbers = { λ x. numbers_of x.mirror.sub.devices.items };

    ghost cylinders = { mirror_cylinders };

    ghost may = { λ x o. IsKept x.mirror.sender.device o };

    fn sub(&self) -> &Subsystem<MemVolume> {
        self.mirror.subsystem()
    }

    fn event(&mut self, e: Event) -> Result<EventEnd, NoMemory> {
        self.mirror.event(e)
    }

    fn replace(&mut self, d: DeviceNo, side: Side, volume: MemVolume) -> Result<(), NoMemory> {
        let _end = match self.mirror.replace(d, side, volume) {
            Err((NoMemory, _)) => return Err(NoMemory),
            Ok(end) => end,
        };
        Ok(())
    }

    fn unpair(&mut self, a: DeviceNo, volume: MemVolume) -> Result<(), NoMemory> {
        let _end = match self.mirror.unpair(a, volume) {
            Err((NoMemory, _)) => return Err(NoMemory),
            Ok(end) => end,
        };
        Ok(())
    }

    fn behind(&mut self) -> Result<(), Stopped<Infallible>> {
        Ok(())
    }
}

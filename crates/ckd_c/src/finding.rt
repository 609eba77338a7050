ghost use Rattle.std.specs.Prelude.{◌≡◌, ◌≤◌, ◌*◌, IfErr, IfOk};
ghost use Rattle.subsystem_core.specs.Frames.{HasDevice};
ghost use Rattle.ckd_c.specs.Calls.{code_told};
ghost use Rattle.ckd_c.specs.Codes.{IsRefusal};

use crate::code::Code;
use crate::lent::CkdFile;
use crate::opened::Opened;
use crate::volume::{HostVolume, mount_image};
use ckd_types::DeviceNo;
use device_outside::Volume;
use disk_image::Layout;
use std::alloc::Global;

/// The answer of what was tried.
pub(crate) fn code_told(tried: Result<(), Code>) -> Code
    ensures { result ≡ code_told tried }
{
    match tried {
        Ok(()) => Code::Done,
        Err(code) => code,
    }
}

impl Opened {
    /// The number of a device that is there.
    pub(crate) fn find(&self, device: u8) -> Result<DeviceNo, Code>
        ensures number { IfOk result (λ d. d ≡ device) }
        ensures here { IfOk result (HasDevice self.now.subsystem) }
        ensures missing { IfErr result IsRefusal }
    {
        let Some(number) = DeviceNo::new(device) else {
            return Err(Code::BadDevice);
        };
        if self.subsystem.has_device(number) {
            Ok(number)
        } else {
            Err(Code::NoDevice)
        }
    }

    /// The volume in the image that a file holds, whose descriptor is kept, and its layout.
    pub(crate) fn mount(
        &mut self,
        alloc: Global,
        file: CkdFile,
    ) -> Result<(HostVolume, Layout), Code>
        ensures least { IfOk result (λ m. 1 ≤ m.1.cylinders) }
        ensures most { IfOk result (λ m. m.1.cylinders ≤ 4369) }
        ensures tracks { IfOk result (λ m. (⟦<HostVolume as Volume>⟧.view m.0).tracks ≡ m.1.cylinders * 15) }
        ensures subsystem { self.new.subsystem ≡ self.old.subsystem }
        ensures refused { IfErr result IsRefusal }
    {
        let (first, second) = file.duplicates()?;
        let mounted = mount_image(alloc, first)?;
        self.files.push(second)?;
        Ok(mounted)
    }
}

ghost use Rattle.std.specs.Prelude.{◌≡◌, IfOk};

use ckd_types::{DeviceNo, Growing, NoMemory, PathNo, Side};
use std::alloc::Global;

/// An event of a deck.
#[derive(Clone, Copy, Debug, PartialEq, Eq)]
pub enum EventLine {
    /// The path's next program is started on the device.
    Start(PathNo, DeviceNo),
    /// One command of the device's running program.
    Step(DeviceNo),
    /// The rest of the device's running program.
    Run(DeviceNo),
    /// One step of the device's work in the background.
    Back(DeviceNo),
    /// All of the device's work in the background.
    Settle(DeviceNo),
    /// The path is reset for the device.
    Reset(PathNo, DeviceNo),
    FailCache,
    FailStore,
    FailVolume(DeviceNo, Side),
    RepairCache,
    RepairStore,
    /// The device's failed volume of that side is replaced.
    Replace(DeviceNo, Side),
    /// The second device's volume becomes side B of the first.
    Pair(DeviceNo, DeviceNo),
    Unpair(DeviceNo),
    Suspend(DeviceNo),
    Resume(DeviceNo),
    /// The power fails and comes back.
    Power,
}

/// The events of a deck, in their order.
pub type Schedule = Growing<EventLine>;

/// A schedule of the same events.
pub fn copy_schedule(alloc: Global, schedule: &Schedule) -> Result<Schedule, NoMemory>
    ensures { IfOk result (λ made. made.items ≡ schedule.now.items) }
{
    let mut made = Schedule::new(alloc);
    made.reserve(schedule.len())?;
    for event in schedule.as_slice() {
        made.push(*event);
    }
    Ok(made)
}

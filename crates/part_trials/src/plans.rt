use ckd_types::{DeviceNo, Side};
use deck_plan::{EventLine, Schedule, copy_schedule};
use std::test::Fail;

#[test]
fn a_copy_has_the_events_in_order(rt: HostRuntime) -> Result<(), Fail> {
    let alloc = rt.alloc();
    let device = DeviceNo::new(15).ok_or("device")?;
    let mut schedule = Schedule::new(alloc);
    schedule.reserve(2)?;
    schedule.push(EventLine::FailVolume(device, Side::B));
    schedule.push(EventLine::FailCache);
    let schedule = copy_schedule(alloc, &schedule)?;
    let events = schedule.as_slice();
    assert_eq!(rt; events.len(), 2);
    assert_eq!(rt; events[0], EventLine::FailVolume(device, Side::B));
    assert_eq!(rt; events[1], EventLine::FailCache);
    Ok(())
}

ghost use Rattle.std.specs.Prelude.{◌≡◌, ◌*◌, nat_lt};
ghost use Rattle.device_core.specs.State.{device_of};
ghost use Rattle.device_defs.specs.Store.{tracks_of};

use crate::subsystem::{subsystem, word};
use ckd_ccw::Program;
use ckd_types::{Ccw, DeviceNo, NoMemory, PathNo, TrackNo};
use deck_plan::PathPlans;
use device_core::Device;
use device_outside::{Keep, MemVolume};
use device_store::Peeked;
use std::alloc::Global;
use std::test::Fail;
use subsystem_core::Subsystem;
use subsystem_defs::Event;
use track_image::TrackImage;

/// Define extent over cylinder 0, where data may be updated.
const EXTENT: &[u8] = &[0x80, 0xc0, 0x10, 0, 0, 0, 0, 0, 0, 0, 0, 0, 0, 0, 0, 0x0e];

/// Locate record: one write of record 0 of track 0.
const LOCATE: &[u8] = &[1, 0, 0, 1, 0, 0, 0, 0, 0, 0, 0, 0, 0, 0, 0, 0];

/// What is written.
const DATA: &[u8] = &[1, 2, 3, 4, 5, 6, 7, 8];

/// Counts what it is told.
#[derive(Debug, Drop)]
struct CountedTells {
    edits: u32,
    firm: u32,
}

impl Keep<TrackImage> for CountedTells {
    ghost hears = { λ _ _ _ _. Unit {0} };

    ghost takes = { λ _ _ _ _. Unit {0} };

    fn before_edit(
        &mut self,
        _d: DeviceNo,
        _t: TrackNo,
        _old: &TrackImage,
    ) -> Result<(), NoMemory> {
        self.edits = self.edits.wrapping_add(1);
        Ok(())
    }

    fn firm(&mut self, _d: DeviceNo, _t: TrackNo, _now: &TrackImage) {
        self.firm = self.firm.wrapping_add(1);
    }
}

/// Path 1 has one program: it writes record 0 of track 0.
fn plans(alloc: Global) -> Result<PathPlans, Fail> {
    let path = PathNo::new(1).ok_or("path")?;
    let mut words = Vec::new(alloc);
    words.push(word(alloc, 0x63, Ccw::CHAIN, 16, EXTENT)?)?;
    words.push(word(alloc, 0x47, Ccw::CHAIN, 16, LOCATE)?)?;
    words.push(word(alloc, 0x85, 0, 8, DATA)?)?;
    let mut plans = PathPlans::new(alloc);
    plans.push(path, Program::new(words).ok().ok_or("word")?)?;
    Ok(plans)
}

/// One event, where it may come.
fn happens(sub: &mut Subsystem<MemVolume>, e: &Event, keep: &mut CountedTells) -> Result<(), Fail> {
    if sub.may_come(*e) {
        if sub.event_with(*e, keep).is_ok() {
            return Ok(());
        }
        return Err("memory".into());
    }
    Err("event".into())
}

fn has_track(device: &Device<MemVolume>, t: TrackNo) -> bool
    ensures { result ≡ nat_lt t (tracks_of (device_of device.now).store) }
{
    t.get() < device.cylinders() * 15
}

/// Whether a look at a track finds its image in its frame.
fn is_in_frame(sub: &mut Subsystem<MemVolume>, d: DeviceNo, t: TrackNo) -> Result<bool, Fail> {
    if !sub.has_device(d) {
        return Err("device".into());
    }
    if has_track(sub.device(d), t) {
        let peeked = sub.peek_track(d, t)?;
        return Ok(matches!(&peeked, Peeked::Frame));
    }
    Err("track".into())
}

#[test]
fn a_keeper_hears_of_a_write(rt: HostRuntime) -> Result<(), Fail> {
    let alloc = rt.alloc();
    let d = DeviceNo::new(5).ok_or("device")?;
    let path = PathNo::new(1).ok_or("path")?;
    let t = TrackNo::new(0).ok_or("track")?;
    let volume = MemVolume::new(alloc, 1, &[], &[])?;
    let mut sub = subsystem(alloc, d, volume, plans(alloc)?)?;
    let mut keep = CountedTells { edits: 0, firm: 0 };
    happens(&mut sub, &Event::Start(path, d), &mut keep)?;
    happens(&mut sub, &Event::Step(d), &mut keep)?;
    happens(&mut sub, &Event::Step(d), &mut keep)?;
    assert_eq!(rt; keep.edits, 0);
    happens(&mut sub, &Event::Step(d), &mut keep)?;
    assert_eq!(rt; keep.edits, 1);
    assert!(rt; is_in_frame(&mut sub, d, t)?);
    Ok(())
}

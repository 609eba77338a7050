ghost use Rattle.std.specs.Prelude.{◌≡◌, ◌*◌, [], IfOk, OnOk, length, map, true};
ghost use Rattle.device_outside.specs.Disk.{new_disk};
ghost use Rattle.device_outside.specs.Lists.{is_in};
ghost use Rattle.subsystem_core.specs.Places.{may_come};
ghost use Rattle.subsystem_core.specs.Frames.{HasDevice};
ghost use Rattle.subsystem_defs.specs.Happening.{happens};
ghost use Rattle.subsystem_defs.specs.Lines.{asked_by, is_busy, is_settled, stops};
ghost use Rattle.subsystem_defs.specs.Subsystem as runs;
ghost use Rattle.deck_run.specs.Opening.{are_open_lines, is_open_line};
ghost use Rattle.deck_run.specs.Seen.{settles};
ghost use Rattle.deck_run.specs.Standing.{StandsAs};
ghost use Rattle.line_drive.specs.Driven.{Comes, Replaces, Unpairs, backs_on, driven, is_busy_at, line_on, moved, run_on, steps_on};
ghost use Rattle.line_drive.specs.Staging.{GoesOn, LineMay, LinesMay, Reaches};

use crate::{Stage, Stopped};
use ckd_types::{DeviceNo, NoMemory, Side};
use deck_plan::EventLine;
use device_defs::Did;
use device_outside::MemVolume;
use std::alloc::Global;
use subsystem_core::{EventEnd, Subsystem};
use subsystem_defs::Event;

/// As many events as the rest of a program takes at most.
const MOST_STEPS: u32 = 8193;

/// As many pieces of work in the background as there are at most.
const MOST_BACKS: u32 = 2946;

/// Whether a program runs on a device, or a half write is open.
fn is_busy(sub: &Subsystem<MemVolume>, d: DeviceNo) -> bool
    requires { HasDevice sub.now d }
    ensures { (run : runs.Subsystem) → StandsAs sub.now run → result ≡ is_busy (runs.mounted_in run.mounted d) }
{
    let device = sub.device(d);
    let half = device.half_open();
    let runs = device.active().is_some();
    half || runs
}

/// The same, of the devices of whoever has them.
fn is_busy_at<E, S: Stage<E>>(stage: &S, d: DeviceNo) -> bool
    requires { is_in d (S.numbers stage.now) ≡ true }
    ensures { (w : S.Way) → S.stands stage.now w → result ≡ is_busy_at S.course w d }
{
    is_busy(stage.sub(), d)
}

fn stops(did: Did) -> bool
    ensures { result ≡ stops did }
{
    match did {
        Did::Nothing | Did::Fault(_) | Did::BadBytes(_) => true,
        _ => false,
    }
}

/// Whether nothing more is done by itself.
fn settles(end: &EventEnd) -> bool
    ensures { result ≡ settles end.now }
{
    match end {
        EventEnd::Back(did) => stops(*did),
        _ => false,
    }
}

/// One event and what is done behind it, and whether nothing more is done by itself.
fn once<E, S: Stage<E>>(stage: &mut S, e: Event) -> Result<bool, Stopped<E>>
    requires here { may_come (S.numbers stage.old) e ≡ true }
    requires asked { S.may stage.old (Comes e) }
    ensures goes_on { OnOk result (GoesOn S.numbers S.may stage.old stage.new) }
    ensures reaches { (w : S.Way) → S.stands stage.old w → Reaches (S.stands stage.new) (moved S.course w (Comes e)) result }
    ensures settled { (w : S.Way) → S.stands stage.old w → IfOk result (λ settled. settled ≡ is_settled (happens (S.course.sub w) e).end) }
{
    let settled = match stage.event(e) {
        Err(NoMemory) => return Err(Stopped::NoMemory),
        Ok(end) => settles(&end),
    };
    match stage.behind() {
        Err(why) => Err(why),
        Ok(()) => Ok(settled),
    }
}

/// One event and what is done behind it.
fn event<E, S: Stage<E>>(stage: &mut S, e: Event) -> Result<(), Stopped<E>>
    requires here { may_come (S.numbers stage.old) e ≡ true }
    requires asked { S.may stage.old (Comes e) }
    ensures goes_on { OnOk result (GoesOn S.numbers S.may stage.old stage.new) }
    ensures reaches { (w : S.Way) → S.stands stage.old w → Reaches (S.stands stage.new) (moved S.course w (Comes e)) result }
{
    let _settled = once(stage, e)?;
    Ok(())
}

/// Steps while a program runs on a device.
fn steps<E, S: Stage<E>>(stage: &mut S, d: DeviceNo) -> Result<(), Stopped<E>>
    requires here { is_in d (S.numbers stage.old) ≡ true }
    requires asked { S.may stage.old (Comes (Event.Step d)) }
    ensures goes_on { OnOk result (GoesOn S.numbers S.may stage.old stage.new) }
    ensures reaches { (w : S.Way) → S.stands stage.old w → Reaches (S.stands stage.new) (steps_on S.course 8193 d w) result }
{
    for _turn in 0..MOST_STEPS {
        if !is_busy_at(&*stage, d) {
            return Ok(());
        }
        match event(stage, Event::Step(d)) {
            Err(why) => return Err(why),
            Ok(()) => (),
        }
    }
    Ok(())
}

/// The rest of the program that runs on a device.
fn finish<E, S: Stage<E>>(stage: &mut S, d: DeviceNo) -> Result<(), Stopped<E>>
    requires here { is_in d (S.numbers stage.old) ≡ true }
    requires asked { S.may stage.old (Comes (Event.Step d)) }
    ensures goes_on { OnOk result (GoesOn S.numbers S.may stage.old stage.new) }
    ensures reaches { (w : S.Way) → S.stands stage.old w → Reaches (S.stands stage.new) (run_on S.course d w) result }
{
    if is_busy_at(&*stage, d) {
        return steps(stage, d);
    }
    stage.behind()
}

/// All of the work in the background.
fn settle<E, S: Stage<E>>(stage: &mut S, d: DeviceNo) -> Result<(), Stopped<E>>
    requires here { is_in d (S.numbers stage.old) ≡ true }
    requires asked { S.may stage.old (Comes (Event.Back d)) }
    ensures goes_on { OnOk result (GoesOn S.numbers S.may stage.old stage.new) }
    ensures reaches { (w : S.Way) → S.stands stage.old w → Reaches (S.stands stage.new) (backs_on S.course 2946 d w) result }
{
    for _turn in 0..MOST_BACKS {
        let settled = match once(stage, Event::Back(d)) {
            Err(why) => return Err(why),
            Ok(settled) => settled,
        };
        if settled {
            return Ok(());
        }
    }
    Ok(())
}

/// A new volume of empty tracks for a device.
fn empty_for<E, S: Stage<E>>(alloc: Global, stage: &S, d: DeviceNo) -> Result<MemVolume, NoMemory>
    requires { is_in d (S.numbers stage.now) ≡ true }
    ensures empty { IfOk result (λ volume. volume ≡ new_disk (S.cylinders stage.now d) [] []) }
    ensures size { IfOk result (λ volume. length volume.tracks ≡ S.cylinders stage.now d * 15) }
{
    MemVolume::new(alloc, stage.sub().device(d).cylinders(), &[], &[])
}

/// A new volume in place of a failed side's, and what is done behind it.
fn replace<E, S: Stage<E>>(
    alloc: Global,
    stage: &mut S,
    d: DeviceNo,
    side: Side,
) -> Result<(), Stopped<E>>
    requires here { is_in d (S.numbers stage.old) ≡ true }
    requires asked { S.may stage.old (Replaces d side) }
    ensures goes_on { OnOk result (GoesOn S.numbers S.may stage.old stage.new) }
    ensures reaches { (w : S.Way) → S.stands stage.old w → Reaches (S.stands stage.new) (moved S.course w (Replaces d side)) result }
{
    let Ok(volume) = empty_for(alloc, &*stage, d) else {
        return Err(Stopped::NoMemory);
    };
    match stage.replace(d, side, volume) {
        Err(NoMemory) => return Err(Stopped::NoMemory),
        Ok(()) => (),
    }
    stage.behind()
}

/// A pair is taken apart, and what is done behind it.
fn unpair<E, S: Stage<E>>(alloc: Global, stage: &mut S, a: DeviceNo) -> Result<(), Stopped<E>>
    requires here { is_in a (S.numbers stage.old) ≡ true }
    requires asked { S.may stage.old (Unpairs a) }
    ensures goes_on { OnOk result (GoesOn S.numbers S.may stage.old stage.new) }
    ensures reaches { (w : S.Way) → S.stands stage.old w → Reaches (S.stands stage.new) (moved S.course w (Unpairs a)) result }
{
    let Ok(volume) = empty_for(alloc, &*stage, a) else {
        return Err(Stopped::NoMemory);
    };
    match stage.unpair(a, volume) {
        Err(NoMemory) => return Err(Stopped::NoMemory),
        Ok(()) => (),
    }
    stage.behind()
}

/// One event line.
fn line<E, S: Stage<E>>(alloc: Global, stage: &mut S, l: EventLine) -> Result<(), Stopped<E>>
    requires here { is_open_line (S.numbers stage.old) l ≡ true }
    requires asked { LineMay (S.may stage.old) (asked_by l) }
    ensures goes_on { OnOk result (GoesOn S.numbers S.may stage.old stage.new) }
    ensures reaches { (w : S.Way) → S.stands stage.old w → Reaches (S.stands stage.new) (line_on S.course (asked_by l) w) result }
{
    match l {
        EventLine::Start(path, d) => event(stage, Event::Start(path, d)),
        EventLine::Step(d) => event(stage, Event::Step(d)),
        EventLine::Run(d) => finish(stage, d),
        EventLine::Back(d) => event(stage, Event::Back(d)),
        EventLine::Settle(d) => settle(stage, d),
        EventLine::Reset(path, d) => event(stage, Event::Reset(path, d)),
        EventLine::FailVolume(d, side) => event(stage, Event::FailVolume(d, side)),
        EventLine::Suspend(d) => event(stage, Event::Suspend(d)),
        EventLine::Resume(d) => event(stage, Event::Resume(d)),
        EventLine::FailCache => event(stage, Event::FailCache),
        EventLine::FailStore => event(stage, Event::FailStore),
        EventLine::RepairCache => event(stage, Event::RepairCache),
        EventLine::RepairStore => event(stage, Event::RepairStore),
        EventLine::Power => event(stage, Event::Power),
        EventLine::Pair(a, b) => event(stage, Event::Pair(a, b)),
        EventLine::Replace(d, side) => replace(alloc, stage, d, side),
        EventLine::Unpair(a) => unpair(alloc, stage, a),
    }
}

/// Event lines one after another. REPLACE and UNPAIR make new empty volumes, of which no call fails. The stage's `behind` ends the
/// lines where the defined run of them ends.
pub fn drive<E, S: Stage<E>>(
    alloc: Global,
    stage: &mut S,
    lines: &[EventLine],
) -> Result<(), Stopped<E>>
    requires here { are_open_lines (S.numbers stage.old) lines.now ≡ true }
    requires asked { LinesMay (S.may stage.old) (map asked_by lines.now) }
    ensures goes_on { OnOk result (GoesOn S.numbers S.may stage.old stage.new) }
    ensures reaches { (w : S.Way) → S.stands stage.old w → Reaches (S.stands stage.new) (driven S.course (map asked_by lines.now) w) result }
{
    for l in lines {
        match line(alloc, stage, *l) {
            Err(why) => return Err(why),
            Ok(()) => (),
        }
    }
    Ok(())
}

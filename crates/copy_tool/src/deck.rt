ghost use Rattle.std.specs.Prelude.{◌≡◌, ◌≤◌, ℕ, IfOk, length, map, true};
ghost use Rattle.deck_run.specs.Opening.{WasRead, are_open_lines};
ghost use Rattle.line_drive.specs.Driven.{driven, onward};
ghost use Rattle.line_drive.specs.Staging.{Reaches};
ghost use Rattle.point_copy.specs.CopyRun.{Copying, IsPlainVolumeAt, copied, copy_course, looks_on};
ghost use Rattle.subsystem_core.specs.Devices.{numbers_of};
ghost use Rattle.subsystem_defs.specs.Lines.{asked_by};
ghost use Rattle.subsystem_defs.specs.Subsystem as runs;
ghost use Rattle.volume_file.specs.File.{IsWhole};
ghost use Rattle.volume_save.specs.Devices.{is_declared};
ghost use Rattle.copy_tool.specs.Copying.{copying, copying_of, early_why, not_begun, stopped_by, volume_of, Gives};
ghost use Rattle.copy_tool.specs.Standing.{IsBegunOf, IsCopying, IsMade};

use crate::copying::{CopyStage, looks};
use crate::size::in_file;
use crate::unmade::Unmade;
use ckd_types::{DeviceNo, Geometry, NoMemory};
use deck_plan::EventLine;
use deck_run::run_front;
use deck_text::Deck;
use device_outside::{MemBay, MemVolume};
use line_drive::{Stopped, drive};
use point_copy::{BeginFault, Early, Session};
use std::alloc::Global;
use volume_file::FileVolume;
use volume_save::declared;

fn early_why(early: Early) -> Unmade
    ensures { result ≡ early_why early }
{
    match early {
        Early::Gone => Unmade::Gone,
        Early::Lost(t) => Unmade::Lost(t),
        Early::Fault(side) => Unmade::Fault(side),
    }
}

fn stopped(why: Stopped<Early>) -> Stopped<Unmade>
    ensures { result ≡ stopped_by why }
{
    match why {
        Stopped::NoMemory => Stopped::NoMemory,
        Stopped::Ended(early) => Stopped::Ended(early_why(early)),
    }
}

fn not_begun(fault: BeginFault) -> Stopped<Unmade>
    ensures { result ≡ not_begun fault }
{
    match fault {
        BeginFault::Lent { .. } => Stopped::Ended(Unmade::Lent),
        BeginFault::Half => Stopped::Ended(Unmade::Half),
        BeginFault::Loose { track } => Stopped::Ended(Unmade::Loose(track)),
        BeginFault::NoMemory => Stopped::NoMemory,
    }
}

/// The lines are done with a look behind each event, and then the rest of the tracks are looked at.
fn copy_all(
    alloc: Global,
    copying: &mut CopyStage,
    lines: &[EventLine],
) -> Result<(), Stopped<Early>>
    requires { are_open_lines (numbers_of copying.old.session.sub.devices.items) lines.now ≡ true }
    ensures { (c : Copying) → IsCopying copying.old c
        → Reaches (IsCopying copying.new) (onward (driven copy_course (map asked_by lines.now) c) (looks_on 961)) result }
{
    match drive(alloc, copying, lines) {
        Err(why) => return Err(why),
        Ok(()) => (),
    }
    looks(copying)
}

/// What a session of a device of this model and size gives while these lines are done.
fn copy_begun(
    alloc: Global,
    session: Session<MemVolume>,
    geometry: Geometry,
    cylinders: u8,
    lines: &[EventLine],
) -> Result<FileVolume, Stopped<Unmade>>
    requires least { 1 ≤ cylinders }
    requires most { cylinders ≤ 64 }
    requires lines { are_open_lines (numbers_of session.sub.devices.items) lines.now ≡ true }
    requires begun { (run : runs.Subsystem) × (d : ℕ) × IsBegunOf run d geometry cylinders session }
    ensures found { (run : runs.Subsystem) (d : ℕ) (b : IsBegunOf run d geometry cylinders session)
        → Gives result (volume_of b.begun.mounted (copied run d (map asked_by lines.now))) }
    ensures made { (run : runs.Subsystem) (d : ℕ) (b : IsBegunOf run d geometry cylinders session) → IfOk result (IsMade b.begun.mounted) }
{
    let mut copying = CopyStage {
        session,
        images: Vec::new(alloc),
    };
    match copy_all(alloc, &mut copying, lines) {
        Ok(()) => Ok(FileVolume::of(geometry, cylinders, copying.images)),
        Err(why) => Err(stopped(why)),
    }
}

/// The copy of a device of the deck after so many of its event lines.
fn copy_device(
    alloc: Global,
    deck: &Deck,
    d: DeviceNo,
    lines: usize,
) -> Result<FileVolume, Stopped<Unmade>>
    requires read { WasRead deck.now }
    requires here { is_declared deck.now d ≡ true }
    requires within { lines ≤ length deck.now.events }
    ensures found { Gives result (copying deck.now d lines) }
    ensures plain { IfOk result (λ v. IsPlainVolumeAt deck.now lines d v × IsWhole v) }
{
    let mut bay = MemBay::new(alloc);
    let sub = match run_front(alloc, deck, lines, &mut bay) {
        Err(NoMemory) => return Err(Stopped::NoMemory),
        Ok(sub) => sub,
    };
    let device = sub.device(d);
    let geometry = device.geometry();
    let cylinders = device.cylinders();
    let rest = deck.schedule().as_slice().split_at(lines).1;
    match Session::begin(alloc, sub, d) {
        Ok(session) => copy_begun(alloc, session, geometry, in_file(cylinders), rest),
        Err(refused) => Err(not_begun(refused.0)),
    }
}

/// The volume of the device of this number as it is after the first so many event lines of a deck, copied while the other lines are
/// done, over volumes of which no track is spoiled; or the first reason for which no copy is made.
pub(crate) fn copied(
    alloc: Global,
    deck: &Deck,
    device: u64,
    lines: u64,
) -> Result<FileVolume, Stopped<Unmade>>
    requires { WasRead deck.now }
    ensures found { Gives result (copying_of deck.now device lines) }
    ensures plain { IfOk result (λ v. IsPlainVolumeAt deck.now lines device v × IsWhole v) }
{
    let Some(d) = declared(deck, device) else {
        return Err(Stopped::Ended(Unmade::Device));
    };
    if lines > deck.event_count() as u64 {
        return Err(Stopped::Ended(Unmade::Events));
    }
    copy_device(alloc, deck, d, lines as usize)
}

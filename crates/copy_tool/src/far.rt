ghost use Rattle.std.specs.Prelude.{◌≡◌, ◌≤◌, ◌*◌, IfOk, IfSome, length, true, false};
ghost use Rattle.std.specs.List.{list_any};
ghost use Rattle.deck_run.specs.Opening.{WasRead};
ghost use Rattle.device_core.specs.State.{device_of};
ghost use Rattle.remote_copy.specs.Mirroring.{IsMirror, MirrorRun};
ghost use Rattle.volume_file.specs.File.{IsWhole};
ghost use Rattle.volume_save.specs.Devices.{is_declared};
ghost use Rattle.volume_save.specs.Saving.{volume_with};
ghost use Rattle.copy_tool.specs.Copying.{Gives};
ghost use Rattle.copy_tool.specs.Mirroring.{images_of, lends, mirroring, mirroring_of};
ghost use Rattle.copy_tool.specs.MirrorStanding.{IsFarVolume, IsMirrorBegun};
ghost use Rattle.subsystem_core.specs.Devices.{device_at};
ghost use Rattle.subsystem_core.specs.Frames.{HasDevice};

use crate::mirroring::MirrorStage;
use crate::size::in_file;
use crate::unmade::Unmade;
use ckd_types::{DeviceNo, HEADS, NoMemory, TrackNo};
use deck_plan::EventLine;
use deck_run::open_deck;
use deck_text::Deck;
use device_outside::MemBay;
use line_drive::{Stopped, drive};
use remote_copy::{MemLink, Mirror};
use std::alloc::Global;
use volume_file::FileVolume;
use volume_save::declared;

/// Whether a line lends the device, unless it is refused.
fn lends(d: DeviceNo, line: &EventLine) -> bool
    ensures { result ≡ lends d line.now }
{
    match *line {
        EventLine::Pair(_a, b) => b.get() == d.get(),
        _ => false,
    }
}

fn is_lent(deck: &Deck, d: DeviceNo) -> bool
    ensures { result ≡ list_any (lends d) deck.now.events }
{
    deck.schedule().as_slice().iter().any(|line| lends(d, line))
}

/// What a link has, as the volume of a file.
fn link_volume(alloc: Global, link: &MemLink, cylinders: u8) -> Result<FileVolume, NoMemory>
    requires least { 1 ≤ cylinders }
    requires most { cylinders ≤ 64 }
    requires tracks { length link.now.tracks ≡ cylinders * 15 }
    ensures volume { IfOk result (λ v. v ≡ volume_with link.now.geometry cylinders (images_of link.now.geometry link.now.tracks)) }
    ensures whole { IfOk result (λ v. IsWhole v) }
{
    let count = u16::from(cylinders) * HEADS;
    let mut images = Vec::with_capacity(alloc, usize::from(count))?;
    for n in 0..count {
        let t = TrackNo::new(n).unwrap();
        let room = link.track(t);
        let image = room.to_image(alloc)?;
        image.fits();
        images.push(image)?;
    }
    Ok(FileVolume::of(link.geometry(), cylinders, images))
}

/// The far volume of a mirror of this device.
fn far_volume(alloc: Global, stage: &MirrorStage, d: DeviceNo) -> Result<FileVolume, NoMemory>
    requires here { HasDevice stage.now.mirror.sub d }
    requires stands { (c : MirrorRun) × (c.device ≡ d) × IsMirror stage.now.mirror c }
    requires small { IfSome (device_at stage.now.mirror.sub.devices.items d) (λ x. (device_of x).store.cylinders ≤ 64) }
    ensures far { (c : MirrorRun) (is : IsMirror stage.now.mirror c) → c.device ≡ d
        → IfOk result (IsFarVolume stage.now.mirror.sender.link is.mounted) }
    ensures whole { IfOk result (λ v. IsWhole v) }
{
    let cylinders = stage.mirror.subsystem().device(d).cylinders();
    link_volume(alloc, stage.mirror.link(), in_file(cylinders))
}

/// A mirror of this device of a deck to an empty far volume, of whose puts one fails.
fn begin(alloc: Global, deck: &Deck, d: DeviceNo, put: u32) -> Result<MirrorStage, NoMemory>
    requires read { WasRead deck.now }
    requires here { is_declared deck.now d ≡ true }
    ensures { IfOk result (IsMirrorBegun deck.now d put) }
{
    let mut bay = MemBay::new(alloc);
    let sub = open_deck(alloc, deck, &mut bay)?;
    let device = sub.device(d);
    let geometry = device.geometry();
    let cylinders = device.cylinders();
    let link = MemLink::new(alloc, geometry, cylinders, &[put])?;
    let mirror = Mirror::new(sub, d, link);
    Ok(MirrorStage { mirror })
}

/// The far volume of this device behind all lines of a deck.
fn mirror_device(
    alloc: Global,
    deck: &Deck,
    d: DeviceNo,
    put: u32,
) -> Result<FileVolume, Stopped<Unmade>>
    requires read { WasRead deck.now }
    requires here { is_declared deck.now d ≡ true }
    requires kept { list_any (lends d) deck.now.events ≡ false }
    ensures found { Gives result (mirroring deck.now d put) }
    ensures whole { IfOk result (λ v. IsWhole v) }
{
    let mut stage = match begin(alloc, deck, d, put) {
        Err(NoMemory) => return Err(Stopped::NoMemory),
        Ok(stage) => stage,
    };
    match drive(alloc, &mut stage, deck.schedule().as_slice()) {
        Err(Stopped::NoMemory) => return Err(Stopped::NoMemory),
        Err(Stopped::Ended(never)) => match never {},
        Ok(()) => (),
    }
    match far_volume(alloc, &stage, d) {
        Err(NoMemory) => Err(Stopped::NoMemory),
        Ok(volume) => Ok(volume),
    }
}

/// The far volume of the device of this number after the run of a deck, over volumes of which no track is spoiled: empty at first, with
/// each track put on it that became firm, up to the put of this number, which fails. 0 is none. Or the first reason for which nothing
/// is mirrored.
pub(crate) fn mirrored(
    alloc: Global,
    deck: &Deck,
    device: u64,
    put: u32,
) -> Result<FileVolume, Stopped<Unmade>>
    requires { WasRead deck.now }
    ensures found { Gives result (mirroring_of deck.now device put) }
    ensures whole { IfOk result (λ v. IsWhole v) }
{
    let Some(d) = declared(deck, device) else {
        return Err(Stopped::Ended(Unmade::Device));
    };
    if is_lent(deck, d) {
        return Err(Stopped::Ended(Unmade::Lends));
    }
    mirror_device(alloc, deck, d, put)
}

ghost use Rattle.std.specs.Prelude.{◌≡◌};
ghost use Rattle.deck_text.specs.Words.{words_of};
ghost use Rattle.deck_text.specs.Events.{device_words, pair_words, side_words, part_word, is_volume, part_words, fail_line};
ghost use Rattle.deck_text.specs.Events.{repair_line, replace_line, event_line, failed_part, repaired_part};

use crate::forms::{device_of, no_words, path_and_device, side_of};
use crate::keyword::{EventPart, EventWord, is_text};
use crate::words::{one_word, three_words, two_words};
use crate::{DeckWhy, DeviceLine};
use ckd_types::{DeviceNo, Side};
use deck_plan::EventLine;

fn device_words(devices: &[DeviceLine], rest: &[u8]) -> Result<DeviceNo, DeckWhy>
    ensures { result ≡ device_words devices.now (words_of rest.now) }
{
    let word = one_word(rest).ok_or(DeckWhy::Words)?;
    device_of(devices, word)
}

fn pair_words(devices: &[DeviceLine], rest: &[u8]) -> Result<(DeviceNo, DeviceNo), DeckWhy>
    ensures { result ≡ pair_words devices.now (words_of rest.now) }
{
    let (first, second) = two_words(rest).ok_or(DeckWhy::Words)?;
    let first = device_of(devices, first)?;
    let second = device_of(devices, second)?;
    Ok((first, second))
}

fn side_words(
    devices: &[DeviceLine],
    device: &[u8],
    side: &[u8],
) -> Result<(DeviceNo, Side), DeckWhy>
    ensures { result ≡ side_words devices.now device.now side.now }
{
    let side = side_of(side).ok_or(DeckWhy::Words)?;
    let device = device_of(devices, device)?;
    Ok((device, side))
}

#[tactic(auto, unfolding(crate::specs::Events::part_word))]
fn part_of(word: &[u8]) -> Option<EventPart>
    ensures { result ≡ part_word word.now }
{
    if is_text(word, b"CACHE") {
        Some(EventPart::Cache)
    } else if is_text(word, b"STORE") {
        Some(EventPart::Store)
    } else {
        None
    }
}

#[tactic(auto, unfolding(crate::specs::Events::is_volume))]
fn is_volume(word: &[u8]) -> bool
    ensures { result ≡ is_volume word.now }
{
    is_text(word, b"VOLUME")
}

fn part_words(rest: &[u8]) -> Result<EventPart, DeckWhy>
    ensures { result ≡ part_words (words_of rest.now) }
{
    let word = one_word(rest).ok_or(DeckWhy::Words)?;
    part_of(word).ok_or(DeckWhy::Words)
}

fn failed_part(part: EventPart) -> EventLine
    ensures { result ≡ failed_part part }
{
    match part {
        EventPart::Cache => EventLine::FailCache,
        EventPart::Store => EventLine::FailStore,
    }
}

fn repaired_part(part: EventPart) -> EventLine
    ensures { result ≡ repaired_part part }
{
    match part {
        EventPart::Cache => EventLine::RepairCache,
        EventPart::Store => EventLine::RepairStore,
    }
}

fn fail_line(devices: &[DeviceLine], rest: &[u8]) -> Result<EventLine, DeckWhy>
    ensures { result ≡ fail_line devices.now (words_of rest.now) }
{
    let Some((volume, device, side)) = three_words(rest) else {
        let part = part_words(rest)?;
        return Ok(failed_part(part));
    };
    if !is_volume(volume) {
        return Err(DeckWhy::Words);
    }
    let (device, side) = side_words(devices, device, side)?;
    Ok(EventLine::FailVolume(device, side))
}

fn repair_line(rest: &[u8]) -> Result<EventLine, DeckWhy>
    ensures { result ≡ repair_line (words_of rest.now) }
{
    let part = part_words(rest)?;
    Ok(repaired_part(part))
}

fn replace_line(devices: &[DeviceLine], rest: &[u8]) -> Result<EventLine, DeckWhy>
    ensures { result ≡ replace_line devices.now (words_of rest.now) }
{
    let (device, side) = two_words(rest).ok_or(DeckWhy::Words)?;
    let (device, side) = side_words(devices, device, side)?;
    Ok(EventLine::Replace(device, side))
}

/// The event of a line with this first word.
pub fn event_line(
    devices: &[DeviceLine],
    word: EventWord,
    rest: &[u8],
) -> Result<EventLine, DeckWhy>
    ensures { result ≡ event_line devices.now word (words_of rest.now) }
{
    match word {
        EventWord::Start => {
            let (path, device) = path_and_device(devices, rest)?;
            Ok(EventLine::Start(path, device))
        }
        EventWord::Reset => {
            let (path, device) = path_and_device(devices, rest)?;
            Ok(EventLine::Reset(path, device))
        }
        EventWord::Pair => {
            let (first, second) = pair_words(devices, rest)?;
            Ok(EventLine::Pair(first, second))
        }
        EventWord::Fail => fail_line(devices, rest),
        EventWord::Repair => repair_line(rest),
        EventWord::Replace => replace_line(devices, rest),
        EventWord::Step => Ok(EventLine::Step(device_words(devices, rest)?)),
        EventWord::Run => Ok(EventLine::Run(device_words(devices, rest)?)),
        EventWord::Back => Ok(EventLine::Back(device_words(devices, rest)?)),
        EventWord::Settle => Ok(EventLine::Settle(device_words(devices, rest)?)),
        EventWord::Unpair => Ok(EventLine::Unpair(device_words(devices, rest)?)),
        EventWord::Suspend => Ok(EventLine::Suspend(device_words(devices, rest)?)),
        EventWord::Resume => Ok(EventLine::Resume(device_words(devices, rest)?)),
        EventWord::Power => {
            no_words(rest)?;
            Ok(EventLine::Power)
        }
    }
}

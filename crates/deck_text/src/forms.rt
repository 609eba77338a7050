ghost use Rattle.std.specs.Prelude.{◌≡◌, ◌≤◌, IfOk};
ghost use Rattle.deck_text.specs.Words.{words_of};
ghost use Rattle.deck_text.specs.Numbers.{number_in};
ghost use Rattle.deck_text.specs.Forms.{no_words, is_one, deck_line, count_line, rises, device_line, is_declared};
ghost use Rattle.deck_text.specs.Forms.{device_of, path_of, is_write_word, side_by_word, fault_line, path_and_device};

use crate::keyword::is_text;
use crate::numbers::{geometry_of, number_in};
use crate::words::{next_word, one_word, three_words, two_words};
use crate::{DeckWhy, DeviceLine, FaultLine};
use ckd_types::{DeviceNo, PathNo, Side};

const MOST_CALLS: u32 = 4_294_967_295;

/// END and EVENTS.
pub fn no_words(rest: &[u8]) -> Result<(), DeckWhy>
    ensures { result ≡ no_words (words_of rest.now) }
{
    let (word, _) = next_word(rest);
    if word.is_empty() {
        Ok(())
    } else {
        Err(DeckWhy::Words)
    }
}

#[tactic(auto, unfolding(crate::specs::Forms::is_one))]
fn is_one(word: &[u8]) -> bool
    ensures { result ≡ is_one word.now }
{
    is_text(word, b"1")
}

/// DECK 1.
pub fn deck_line(rest: &[u8]) -> Result<(), DeckWhy>
    ensures { result ≡ deck_line (words_of rest.now) }
{
    let word = one_word(rest).ok_or(DeckWhy::Words)?;
    if is_one(word) {
        Ok(())
    } else {
        Err(DeckWhy::Words)
    }
}

/// CACHE n and STORE n.
pub fn count_line(least: u32, most: u32, rest: &[u8]) -> Result<u32, DeckWhy>
    ensures value { result ≡ count_line least most (words_of rest.now) }
    ensures range { IfOk result (λ n. n ≤ most) }
{
    let word = one_word(rest).ok_or(DeckWhy::Words)?;
    number_in(least, most, word).ok_or(DeckWhy::Number)
}

fn device_number(word: &[u8]) -> Option<DeviceNo>
    ensures { result ≡ number_in 0 15 word.now }
{
    let n = number_in(0, 15, word)?;
    DeviceNo::new(n as u8)
}

fn rises(devices: &[DeviceLine], device: DeviceNo) -> bool
    ensures { result ≡ rises devices.now device }
{
    let d = device.get();
    devices.iter().all(|line| line.number.get() < d)
}

/// DEVICE d g c, behind these lines.
pub fn device_line(devices: &[DeviceLine], rest: &[u8]) -> Result<DeviceLine, DeckWhy>
    ensures { result ≡ device_line devices.now (words_of rest.now) }
{
    let (number, geometry, cylinders) = three_words(rest).ok_or(DeckWhy::Words)?;
    let number = device_number(number).ok_or(DeckWhy::Number)?;
    let geometry = geometry_of(geometry).ok_or(DeckWhy::Number)?;
    let cylinders = number_in(1, 64, cylinders).ok_or(DeckWhy::Number)?;
    if !rises(devices, number) {
        return Err(DeckWhy::Number);
    }
    Ok(DeviceLine {
        number,
        geometry,
        cylinders: cylinders as u16,
    })
}

fn is_declared(devices: &[DeviceLine], device: DeviceNo) -> bool
    ensures { result ≡ is_declared devices.now device }
{
    let d = device.get();
    devices.iter().any(|line| line.number.get() == d)
}

/// A device that is declared.
pub fn device_of(devices: &[DeviceLine], word: &[u8]) -> Result<DeviceNo, DeckWhy>
    ensures { result ≡ device_of devices.now word.now }
{
    let device = device_number(word).ok_or(DeckWhy::Number)?;
    if is_declared(devices, device) {
        Ok(device)
    } else {
        Err(DeckWhy::Number)
    }
}

fn path_of(word: &[u8]) -> Result<PathNo, DeckWhy>
    ensures { result ≡ path_of word.now }
{
    let n = number_in(1, 4, word).ok_or(DeckWhy::Number)?;
    PathNo::new(n as u8).ok_or(DeckWhy::Number)
}

#[tactic(auto, unfolding(crate::specs::Forms::is_write_word))]
fn is_write(word: &[u8]) -> Option<bool>
    ensures { result ≡ is_write_word word.now }
{
    if is_text(word, b"READ") {
        Some(false)
    } else if is_text(word, b"WRITE") {
        Some(true)
    } else {
        None
    }
}

/// The side that a word names.
#[tactic(auto, unfolding(crate::specs::Forms::side_by_word))]
pub fn side_of(word: &[u8]) -> Option<Side>
    ensures { result ≡ side_by_word word.now }
{
    if is_text(word, b"A") {
        Some(Side::A)
    } else if is_text(word, b"B") {
        Some(Side::B)
    } else {
        None
    }
}

/// FAULT d READ n, or FAULT d WRITE n.
pub fn fault_line(devices: &[DeviceLine], rest: &[u8]) -> Result<FaultLine, DeckWhy>
    ensures { result ≡ fault_line devices.now (words_of rest.now) }
{
    let (device, call, number) = three_words(rest).ok_or(DeckWhy::Words)?;
    let write = is_write(call).ok_or(DeckWhy::Words)?;
    let device = device_of(devices, device)?;
    let call = number_in(1, MOST_CALLS, number).ok_or(DeckWhy::Number)?;
    Ok(FaultLine {
        device,
        write,
        call,
    })
}

/// A path and a device.
pub fn path_and_device(devices: &[DeviceLine], rest: &[u8]) -> Result<(PathNo, DeviceNo), DeckWhy>
    ensures { result ≡ path_and_device devices.now (words_of rest.now) }
{
    let (path, device) = two_words(rest).ok_or(DeckWhy::Words)?;
    let path = path_of(path)?;
    let device = device_of(devices, device)?;
    Ok((path, device))
}

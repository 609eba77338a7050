ghost use Rattle.std.specs.Prelude.{◌≡◌};
ghost use Rattle.ckd_outside.specs.Causes.{HasCause};
ghost use Rattle.ckd_outside.specs.Texts.{Writes};
ghost use Rattle.image_runner.specs.Texts.{bad_text, model_text, number_text, other_text, refusal_text, usage_text, word_text};

use crate::mounting::{MountFault, Refusal};
use ckd_outside::{Failed, Piece, Sink};
use ckd_types::{DeviceNo, Geometry};
use deck_text::write_line;
use disk_image::{ImageFault, Layout};

fn model_text(geometry: Geometry) -> &'static [u8]
    ensures { result.now ≡ model_text geometry }
{
    match geometry {
        Geometry::D3390 => b"3390",
        Geometry::D3380 => b"3380",
    }
}

/// A reason in one or two words.
#[tactic(auto, unfolding(crate::specs::Texts::word_text))]
fn write_word<K: Sink>(sink: &mut K, d: DeviceNo, word: &[u8]) -> Result<(), Failed>
    ensures bytes { Writes (K.held sink.old) (K.held sink.new) result (word_text d word.now) }
    ensures cause { HasCause (K.faults sink.old) (K.faults sink.new) result }
{
    let pieces = [
        Piece::Text(b"image "),
        Piece::Number(u64::from(d.get())),
        Piece::Text(b": "),
        Piece::Text(word),
        Piece::Text(b"\n"),
    ];
    write_line(sink, &pieces)
}

/// A reason with a number.
#[tactic(auto, unfolding(crate::specs::Texts::number_text))]
fn write_number<K: Sink>(sink: &mut K, d: DeviceNo, word: &[u8], n: u64) -> Result<(), Failed>
    ensures bytes { Writes (K.held sink.old) (K.held sink.new) result (number_text d word.now n) }
    ensures cause { HasCause (K.faults sink.old) (K.faults sink.new) result }
{
    let pieces = [
        Piece::Text(b"image "),
        Piece::Number(u64::from(d.get())),
        Piece::Text(b": "),
        Piece::Text(word),
        Piece::Text(b" "),
        Piece::Number(n),
        Piece::Text(b"\n"),
    ];
    write_line(sink, &pieces)
}

#[tactic(auto, unfolding(crate::specs::Texts::other_text))]
fn write_other<K: Sink>(
    sink: &mut K,
    d: DeviceNo,
    image: Layout,
    device: Layout,
) -> Result<(), Failed>
    ensures bytes { Writes (K.held sink.old) (K.held sink.new) result (other_text d image device) }
    ensures cause { HasCause (K.faults sink.old) (K.faults sink.new) result }
{
    let pieces = [
        Piece::Text(b"image "),
        Piece::Number(u64::from(d.get())),
        Piece::Text(b": "),
        Piece::Text(model_text(image.geometry)),
        Piece::Text(b" "),
        Piece::Number(u64::from(image.cylinders)),
        Piece::Text(b", device "),
        Piece::Text(model_text(device.geometry)),
        Piece::Text(b" "),
        Piece::Number(u64::from(device.cylinders)),
        Piece::Text(b"\n"),
    ];
    write_line(sink, &pieces)
}

fn write_bad<K: Sink>(sink: &mut K, d: DeviceNo, fault: ImageFault) -> Result<(), Failed>
    ensures bytes { Writes (K.held sink.old) (K.held sink.new) result (bad_text d fault) }
    ensures cause { HasCause (K.faults sink.old) (K.faults sink.new) result }
{
    match fault {
        ImageFault::BadHead { offset } => write_number(sink, d, b"head offset", u64::from(offset)),
        ImageFault::BadLength { size } => write_number(sink, d, b"length", size),
        ImageFault::BadTrack { offset, .. } => write_number(sink, d, b"track offset", offset),
        ImageFault::ManyCylinders { cylinders } => {
            write_number(sink, d, b"cylinders", u64::from(cylinders))
        }
        ImageFault::Compressed => write_word(sink, d, b"compressed"),
        ImageFault::Parts => write_word(sink, d, b"parts"),
        ImageFault::FileFault => write_word(sink, d, b"file"),
        ImageFault::NoMemory => write_word(sink, d, b"file"),
    }
}

/// Tells why an image isn't taken. Of want of memory nothing is told.
pub(crate) fn write_refusal<K: Sink>(sink: &mut K, refusal: &Refusal) -> Result<(), Failed>
    ensures bytes { Writes (K.held sink.old) (K.held sink.new) result (refusal_text refusal.now) }
    ensures cause { HasCause (K.faults sink.old) (K.faults sink.new) result }
{
    let d = refusal.device;
    match refusal.fault {
        MountFault::Device => write_word(sink, d, b"no device"),
        MountFault::Other { image, device } => write_other(sink, d, image, device),
        MountFault::Bad(fault) => write_bad(sink, d, fault),
        MountFault::File => write_word(sink, d, b"file"),
        MountFault::NoMemory => Ok(()),
    }
}

/// Tells that a device has tracks that wait.
pub(crate) fn write_waiting<K: Sink>(sink: &mut K, d: DeviceNo) -> Result<(), Failed> {
    let pieces = [
        Piece::Text(b"image "),
        Piece::Number(u64::from(d.get())),
        Piece::Text(b": tracks wait that weren't destaged, and are as they were\n"),
    ];
    write_line(sink, &pieces)
}

/// Tells which words there are.
#[tactic(auto, unfolding(crate::specs::Texts::usage_text))]
pub(crate) fn write_usage<K: Sink>(sink: &mut K) -> Result<(), Failed>
    ensures bytes { Writes (K.held sink.old) (K.held sink.new) result (usage_text) }
    ensures cause { HasCause (K.faults sink.old) (K.faults sink.new) result }
{
    write_line(sink, &[Piece::Text(b"usage: ON D=FILE ..\n")])
}

//! The sense bytes of each cause of unit check.
#![tactic(auto)]

#[cfg(test)]
mod tests;

ghost use Rattle.std.specs.Prelude.{◌≡◌, ◌≤◌};
ghost use Rattle.ckd_types.specs.Sense.{sense_of, reject_sense, track_format_sense, end_of_cylinder_sense, no_record_sense};
ghost use Rattle.ckd_types.specs.Sense.{file_protected_sense, equipment_sense, data_check_sense, zero_sense};

use ckd_types::Sense;

/// Message 1 of a reject: the code is no command's.
pub const INVALID_COMMAND: u8 = 1;

/// Message 2 of a reject: the command may not stand here.
pub const INVALID_SEQUENCE: u8 = 2;

/// Message 3 of a reject: the word's count is less than the command requires.
pub const SHORT_COUNT: u8 = 3;

/// Message 4 of a reject: the bytes given are no parameters of the command.
pub const INVALID_PARAMETER: u8 = 4;

/// Byte 0.
const COMMAND_REJECT: u8 = 0x80;

/// Byte 0.
const EQUIPMENT_CHECK: u8 = 0x10;

/// Byte 0.
const DATA_CHECK: u8 = 0x08;

/// Byte 1.
const PERMANENT_ERROR: u8 = 0x80;

/// Byte 1.
const INVALID_TRACK_FORMAT: u8 = 0x40;

/// Byte 1.
const END_OF_CYLINDER: u8 = 0x20;

/// Byte 1.
const NO_RECORD_FOUND: u8 = 0x08;

/// Byte 1.
const FILE_PROTECTED: u8 = 0x04;

fn sense_of(first: u8, second: u8, seventh: u8) -> Sense
    ensures { result ≡ sense_of first second seventh }
{
    let mut bytes = [0; 32];
    bytes[0] = first;
    bytes[1] = second;
    bytes[7] = seventh;
    Sense::new(bytes)
}

/// Command reject, with its message.
pub fn reject(message: u8) -> Sense
    requires least { 1 ≤ message }
    requires most { message ≤ 4 }
    ensures { result ≡ reject_sense message }
{
    sense_of(COMMAND_REJECT, 0, message)
}

/// A record that does not fit its track, or is none that the command writes.
pub fn track_format() -> Sense
    ensures { result ≡ track_format_sense }
{
    sense_of(0, INVALID_TRACK_FORMAT, 0)
}

/// A multitrack command past the last head, without an extent.
pub fn end_of_cylinder() -> Sense
    ensures { result ≡ end_of_cylinder_sense }
{
    sense_of(0, END_OF_CYLINDER, 0)
}

/// The track has not the record that is looked for.
pub fn no_record() -> Sense
    ensures { result ≡ no_record_sense }
{
    sense_of(0, NO_RECORD_FOUND, 0)
}

/// A track outside the extent, or a seek that the mask forbids.
pub fn file_protected() -> Sense
    ensures { result ≡ file_protected_sense }
{
    sense_of(0, FILE_PROTECTED, 0)
}

/// The track can't be had: the device fails.
pub fn equipment() -> Sense
    ensures { result ≡ equipment_sense }
{
    sense_of(EQUIPMENT_CHECK, PERMANENT_ERROR, 0)
}

/// The track can't be had: what was read is no track.
pub fn data_check() -> Sense
    ensures { result ≡ data_check_sense }
{
    sense_of(DATA_CHECK, 0, 0)
}

/// No cause.
pub fn zero() -> Sense
    ensures { result ≡ zero_sense }
{
    sense_of(0, 0, 0)
}

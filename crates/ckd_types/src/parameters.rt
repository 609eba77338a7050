ghost use Rattle.std.specs.Prelude.{◌≡◌};
ghost use Rattle.ckd_types.specs.Parameters.{mode_of, operation_of, operation_code};
ghost use Rattle.ckd_types.specs.Domains.{accepts, accepts_read, accepts_write, is_format};
ghost use Rattle.ckd_types.specs.Mask.{is_mask, permits_write, permits_seek, permits_move};

use crate::{Command, Control, ReadArea, RecId, TrackNo, Write};

/// The bit of a mask that is clear.
const RESERVED_MASK: u8 = 0x20;

/// The bits of the mask that say which writes are permitted.
pub const WRITE_CONTROL: u8 = 0xc0;

/// Write control: all writes but that of record 0.
pub const NO_ZERO_WRITES: u8 = 0x00;

/// Write control: no writes.
pub const NO_WRITES: u8 = 0x40;

/// Write control: all writes. The fourth value, 0x80, permits the update writes alone.
pub const ALL_WRITES: u8 = 0xc0;

/// The bits of the mask that say which seeks are permitted.
pub const SEEK_CONTROL: u8 = 0x18;

/// Seek control: all seeks, and recalibrate.
pub const ALL_SEEKS: u8 = 0x00;

/// Seek control: seek cylinder and seek head.
pub const SEEK_CYLINDER: u8 = 0x08;

/// Seek control: no seeks. The fourth value, 0x10, permits seek head alone.
pub const NO_SEEKS: u8 = 0x18;

/// How the cache serves a chain (bits 3 to 5 of the second byte of define extent).
#[derive(Clone, Copy, Debug, PartialEq, Eq)]
pub enum Mode {
    Normal,
    Bypass,
    InhibitLoad,
    Sequential,
}

/// The tracks that a chain may reach, and what it may do there: the parameters of define extent.
/// The mask is the first byte: bits 0 and 1 say which writes are permitted, bits 3 and 4 which seeks.
/// The number is that of the device's cache fast write data: with one, writes may live in the cache alone
/// (own in what the number is for; IBM names the bit and the bytes).
#[derive(Clone, Copy, Debug, PartialEq, Eq)]
pub struct Extent {
    pub mask: u8,
    pub mode: Mode,
    pub inhibit_fast: bool,
    pub number: Option<u16>,
    pub first: TrackNo,
    pub last: TrackNo,
}

/// Where a locate record leaves the chain on its track. `Body` is the data area.
#[derive(Clone, Copy, Debug, PartialEq, Eq)]
pub enum Orientation {
    Count,
    Home,
    Body,
    Index,
}

/// What the commands behind a locate record do.
#[derive(Clone, Copy, Debug, PartialEq, Eq)]
pub enum Operation {
    Orient,
    WriteData,
    Format,
    ReadData,
    ReadTracks,
    Read,
}

/// The parameters of locate record: `count` commands of the operation follow.
#[derive(Clone, Copy, Debug, PartialEq, Eq)]
pub struct Domain {
    pub orientation: Orientation,
    pub operation: Operation,
    pub count: u8,
    pub seek: TrackNo,
    pub search: RecId,
}

/// Why parameter bytes are refused, in the order in which it is looked for. The chain tells each as a command
/// reject, invalid parameter.
#[derive(Clone, Copy, Debug, PartialEq, Eq)]
pub enum ParamFault {
    /// There are fewer than sixteen bytes.
    Short,
    /// Bit 2 of the mask is set.
    BadMask,
    /// Bits 0 and 1 of the second byte aren't set, or bits 3 to 5 are no mode.
    BadMode,
    /// The first byte names no operation of the profile.
    BadOperation,
    /// Orient has a count, or another operation has none.
    BadCount,
    /// A bit of bytes 1 and 2 is set, other than the first.
    BadAux,
    /// A track isn't on the device, or the last stands before the first.
    BadRange,
}

/// The mode of a number: bits 3 to 5 of the second byte of define extent.
pub fn mode_of(n: u8) -> Option<Mode>
    ensures { result ≡ mode_of n }
{
    match n {
        0 => Some(Mode::Normal),
        1 => Some(Mode::Bypass),
        2 => Some(Mode::InhibitLoad),
        3 => Some(Mode::Sequential),
        _ => None,
    }
}

/// The operation of a code: the low six bits of the first byte of locate record.
pub fn operation_of(code: u8) -> Option<Operation>
    ensures { result ≡ operation_of code }
{
    match code {
        0x00 => Some(Operation::Orient),
        0x01 => Some(Operation::WriteData),
        0x03 => Some(Operation::Format),
        0x06 => Some(Operation::ReadData),
        0x0c => Some(Operation::ReadTracks),
        0x16 => Some(Operation::Read),
        _ => None,
    }
}

/// The code of an operation.
pub fn operation_code(operation: Operation) -> u8
    ensures { result ≡ operation_code operation }
{
    match operation {
        Operation::Orient => 0x00,
        Operation::WriteData => 0x01,
        Operation::Format => 0x03,
        Operation::ReadData => 0x06,
        Operation::ReadTracks => 0x0c,
        Operation::Read => 0x16,
    }
}

/// Whether a read may stand in an operation's domain. Own.
fn accepts_read(operation: Operation, area: ReadArea) -> bool
    ensures { result ≡ accepts_read operation area }
{
    match operation {
        Operation::ReadTracks => matches!(area, ReadArea::Track),
        Operation::ReadData | Operation::Read => !matches!(area, ReadArea::Track),
        _ => false,
    }
}

/// The write gives a count area.
fn is_format(write: Write) -> bool
    ensures { result ≡ is_format write }
{
    matches!(write, Write::CountKeyData | Write::NextTrack | Write::Zero)
}

/// Whether a write may stand in an operation's domain. Own.
fn accepts_write(operation: Operation, format: bool) -> bool
    ensures { result ≡ accepts_write operation format }
{
    match operation {
        Operation::WriteData => !format,
        Operation::Format => format,
        _ => false,
    }
}

/// Whether a command may stand in an operation's domain. Own.
pub fn accepts(operation: Operation, command: Command) -> bool
    ensures { result ≡ accepts operation command }
{
    match command {
        Command::Control(Control::NoOperation) => true,
        Command::Read(read) => accepts_read(operation, read.area),
        Command::Write(write) => accepts_write(operation, is_format(write)),
        _ => false,
    }
}

/// Whether a byte is a mask, of define extent or of set file mask: its bit 2 is clear.
pub fn is_mask(byte: u8) -> bool
    ensures { result ≡ is_mask byte }
{
    byte & RESERVED_MASK == 0
}

/// Whether a mask permits a write.
pub fn permits_write(mask: u8, write: Write) -> bool
    ensures { result ≡ permits_write mask write }
{
    let control = mask & WRITE_CONTROL;
    match write {
        Write::Data | Write::UpdateData | Write::KeyData | Write::UpdateKeyData => {
            control != NO_WRITES
        }
        Write::CountKeyData | Write::NextTrack => {
            control == NO_ZERO_WRITES || control == ALL_WRITES
        }
        Write::Zero => control == ALL_WRITES,
    }
}

/// Whether a mask permits a seek or a recalibrate. Every other control command is permitted. Own in
/// what each value of the seek control permits.
pub fn permits_seek(mask: u8, control: Control) -> bool
    ensures { result ≡ permits_seek mask control }
{
    let seeks = mask & SEEK_CONTROL;
    match control {
        Control::Seek | Control::Recalibrate => seeks == ALL_SEEKS,
        Control::SeekCylinder => seeks == ALL_SEEKS || seeks == SEEK_CYLINDER,
        Control::SeekHead => seeks != NO_SEEKS,
        _ => true,
    }
}

/// Whether a mask lets a multitrack command go on to the next track, outside a domain. Own.
pub fn permits_move(mask: u8) -> bool
    ensures { result ≡ permits_move mask }
{
    mask & SEEK_CONTROL != NO_SEEKS
}

ghost use Rattle.std.specs.Prelude.{◌≡◌};
ghost use Rattle.page_text.specs.Names.{
  command_name,
  control_name,
  device_name,
  key_name,
  id_name,
  name_of,
  other_name,
  read_name,
  repeat_by,
  repeat_mark,
  repeat_name,
  search_name,
  write_name,
};

use ckd_types::{
    Command, Comparison, Control, DeviceCommand, ReadArea, SearchArea, Write, command_of,
};

fn control_name(control: Control) -> &'static [u8]
    ensures { result.now ≡ control_name control }
{
    match control {
        Control::NoOperation => b"No-Operation",
        Control::Seek => b"Seek",
        Control::SeekCylinder => b"Seek Cylinder",
        Control::SeekHead => b"Seek Head",
        Control::Recalibrate => b"Recalibrate",
        Control::SetSector => b"Set Sector",
        Control::SetFileMask => b"Set File Mask",
        Control::DefineExtent => b"Define Extent",
        Control::LocateRecord => b"Locate Record",
    }
}

fn id_name(comparison: Comparison) -> &'static [u8]
    ensures { result.now ≡ id_name comparison }
{
    match comparison {
        Comparison::Equal => b"Search ID Equal",
        Comparison::High => b"Search ID High",
        Comparison::EqualOrHigh => b"Search ID Equal or High",
    }
}

fn key_name(comparison: Comparison) -> &'static [u8]
    ensures { result.now ≡ key_name comparison }
{
    match comparison {
        Comparison::Equal => b"Search Key Equal",
        Comparison::High => b"Search Key High",
        Comparison::EqualOrHigh => b"Search Key Equal or High",
    }
}

fn search_name(area: SearchArea) -> &'static [u8]
    ensures { result.now ≡ search_name area }
{
    match area {
        SearchArea::Id(comparison) => id_name(comparison),
        SearchArea::Key(comparison) => key_name(comparison),
        SearchArea::Home => b"Search Home Address Equal",
    }
}

fn read_name(area: ReadArea) -> &'static [u8]
    ensures { result.now ≡ read_name area }
{
    match area {
        ReadArea::Home => b"Read Home Address",
        ReadArea::Zero => b"Read Record 0",
        ReadArea::Count => b"Read Count",
        ReadArea::Data => b"Read Data",
        ReadArea::KeyData => b"Read Key and Data",
        ReadArea::CountKeyData => b"Read Count, Key and Data",
        ReadArea::Multiple => b"Read Multiple Count, Key and Data",
        ReadArea::Track => b"Read Track",
    }
}

fn write_name(write: Write) -> &'static [u8]
    ensures { result.now ≡ write_name write }
{
    match write {
        Write::Data => b"Write Data",
        Write::UpdateData => b"Write Update Data",
        Write::KeyData => b"Write Key and Data",
        Write::UpdateKeyData => b"Write Update Key and Data",
        Write::CountKeyData => b"Write Count, Key and Data",
        Write::NextTrack => b"Write Count, Key and Data Next Track",
        Write::Zero => b"Write Record 0",
    }
}

fn device_name(command: DeviceCommand) -> &'static [u8]
    ensures { result.now ≡ device_name command }
{
    match command {
        DeviceCommand::Sense => b"Sense",
        DeviceCommand::SenseId => b"Sense ID",
        DeviceCommand::Reserve => b"Device Reserve",
        DeviceCommand::Release => b"Device Release",
        DeviceCommand::UnconditionalReserve => b"Unconditional Reserve",
        DeviceCommand::SetPathGroup => b"Set Path Group ID",
        DeviceCommand::SensePathGroup => b"Sense Path Group ID",
    }
}

fn command_name(command: Command) -> &'static [u8]
    ensures { result.now ≡ command_name command }
{
    match command {
        Command::Control(control) => control_name(control),
        Command::Search(search) => search_name(search.area),
        Command::Read(read) => read_name(read.area),
        Command::Write(write) => write_name(write),
        Command::Device(command) => device_name(command),
    }
}

fn other_name(code: u8) -> &'static [u8]
    ensures { result.now ≡ other_name code }
{
    if code == 0x08 {
        b"Transfer in Channel"
    } else {
        b"no command"
    }
}

/// The name of the command of a code.
pub fn name_of(code: u8) -> &'static [u8]
    ensures { result.now ≡ name_of code }
{
    match command_of(code) {
        Some(command) => command_name(command),
        None => other_name(code),
    }
}

fn repeat_mark(multitrack: bool) -> &'static [u8]
    ensures { result.now ≡ repeat_mark multitrack }
{
    if multitrack { b" Multitrack" } else { b"" }
}

fn repeat_by(command: Command) -> &'static [u8]
    ensures { result.now ≡ repeat_by command }
{
    match command {
        Command::Search(search) => repeat_mark(search.multitrack),
        Command::Read(read) => repeat_mark(read.multitrack),
        Command::Control(_) | Command::Write(_) | Command::Device(_) => b"",
    }
}

/// Of a search or read whether it goes on to the next track.
pub fn repeat_name(code: u8) -> &'static [u8]
    ensures { result.now ≡ repeat_name code }
{
    match command_of(code) {
        Some(command) => repeat_by(command),
        None => b"",
    }
}

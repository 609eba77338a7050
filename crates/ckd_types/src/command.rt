ghost use Rattle.std.specs.Prelude.{◌≡◌};
ghost use Rattle.ckd_types.specs.Commands.{is_multitrack, search_command, read_command, command_of, is_search, required_count};

/// How a search compares a record's area with the bytes given: they are equal, or the record's are
/// greater.
#[derive(Clone, Copy, Debug, PartialEq, Eq)]
pub enum Comparison {
    Equal,
    High,
    EqualOrHigh,
}

/// The commands that move the chain or say what may follow, and no-operation.
#[derive(Clone, Copy, Debug, PartialEq, Eq)]
pub enum Control {
    NoOperation,
    Seek,
    SeekCylinder,
    SeekHead,
    Recalibrate,
    SetSector,
    SetFileMask,
    DefineExtent,
    LocateRecord,
}

/// What a search looks at: the id or the key of a record, or the home address, which it compares for
/// equality.
#[derive(Clone, Copy, Debug, PartialEq, Eq)]
pub enum SearchArea {
    Id(Comparison),
    Key(Comparison),
    Home,
}

/// A search. Its multitrack form goes on to the next track where its own shows nothing more.
#[derive(Clone, Copy, Debug, PartialEq, Eq)]
pub struct Search {
    pub area: SearchArea,
    pub multitrack: bool,
}

/// What a read reads: the home address, record 0, areas of the next record, all records from the
/// next one on, or the whole track.
#[derive(Clone, Copy, Debug, PartialEq, Eq)]
pub enum ReadArea {
    Home,
    Zero,
    Count,
    Data,
    KeyData,
    CountKeyData,
    Multiple,
    Track,
}

/// A read. Its multitrack form goes on to the next track where its own shows nothing more.
#[derive(Clone, Copy, Debug, PartialEq, Eq)]
pub struct Read {
    pub area: ReadArea,
    pub multitrack: bool,
}

/// The writes. The updates are the forms of write data and of write key and data that stand in a
/// domain alone; `NextTrack` is write count, key and data on the next track.
#[derive(Clone, Copy, Debug, PartialEq, Eq)]
pub enum Write {
    Data,
    UpdateData,
    KeyData,
    UpdateKeyData,
    CountKeyData,
    NextTrack,
    Zero,
}

/// The commands that ask the device that the path is on.
#[derive(Clone, Copy, Debug, PartialEq, Eq)]
pub enum DeviceCommand {
    Sense,
    SenseId,
    Reserve,
    Release,
    UnconditionalReserve,
    SetPathGroup,
    SensePathGroup,
}

/// The commands of the profile, by kind.
#[derive(Clone, Copy, Debug, PartialEq, Eq)]
pub enum Command {
    Control(Control),
    Search(Search),
    Read(Read),
    Write(Write),
    Device(DeviceCommand),
}

/// The codes of searches and reads come in pairs: the multitrack form has the high bit (IBM).
fn is_multitrack(code: u8) -> bool
    ensures { result ≡ is_multitrack code }
{
    code >= 0x80
}

fn search_command(area: SearchArea, code: u8) -> Command
    ensures { result ≡ search_command area code }
{
    Command::Search(Search {
        area,
        multitrack: is_multitrack(code),
    })
}

fn read_command(area: ReadArea, code: u8) -> Command
    ensures { result ≡ read_command area code }
{
    Command::Read(Read {
        area,
        multitrack: is_multitrack(code),
    })
}

/// Read multiple and read track have no multitrack form.
fn read_alone(area: ReadArea) -> Command
    ensures { result ≡ read_command area 0 }
{
    Command::Read(Read {
        area,
        multitrack: false,
    })
}

/// The command that a code stands for (IBM's codes), or none. A transfer in channel is no command.
#[tactic(auto, unfolding(crate::specs::Commands::command_of))]
pub fn command_of(code: u8) -> Option<Command>
    ensures { result ≡ command_of code }
{
    let command = match code {
        0x03 => Command::Control(Control::NoOperation),
        0x07 => Command::Control(Control::Seek),
        0x0b => Command::Control(Control::SeekCylinder),
        0x1b => Command::Control(Control::SeekHead),
        0x13 => Command::Control(Control::Recalibrate),
        0x23 => Command::Control(Control::SetSector),
        0x1f => Command::Control(Control::SetFileMask),
        0x63 => Command::Control(Control::DefineExtent),
        0x47 => Command::Control(Control::LocateRecord),
        0x31 | 0xb1 => search_command(SearchArea::Id(Comparison::Equal), code),
        0x51 | 0xd1 => search_command(SearchArea::Id(Comparison::High), code),
        0x71 | 0xf1 => search_command(SearchArea::Id(Comparison::EqualOrHigh), code),
        0x29 | 0xa9 => search_command(SearchArea::Key(Comparison::Equal), code),
        0x49 | 0xc9 => search_command(SearchArea::Key(Comparison::High), code),
        0x69 | 0xe9 => search_command(SearchArea::Key(Comparison::EqualOrHigh), code),
        0x39 | 0xb9 => search_command(SearchArea::Home, code),
        0x1a | 0x9a => read_command(ReadArea::Home, code),
        0x16 | 0x96 => read_command(ReadArea::Zero, code),
        0x12 | 0x92 => read_command(ReadArea::Count, code),
        0x06 | 0x86 => read_command(ReadArea::Data, code),
        0x0e | 0x8e => read_command(ReadArea::KeyData, code),
        0x1e | 0x9e => read_command(ReadArea::CountKeyData, code),
        0x5e => read_alone(ReadArea::Multiple),
        0xde => read_alone(ReadArea::Track),
        0x05 => Command::Write(Write::Data),
        0x85 => Command::Write(Write::UpdateData),
        0x0d => Command::Write(Write::KeyData),
        0x8d => Command::Write(Write::UpdateKeyData),
        0x1d => Command::Write(Write::CountKeyData),
        0x9d => Command::Write(Write::NextTrack),
        0x15 => Command::Write(Write::Zero),
        0x04 => Command::Device(DeviceCommand::Sense),
        0xe4 => Command::Device(DeviceCommand::SenseId),
        0xb4 => Command::Device(DeviceCommand::Reserve),
        0x94 => Command::Device(DeviceCommand::Release),
        0x14 => Command::Device(DeviceCommand::UnconditionalReserve),
        0xaf => Command::Device(DeviceCommand::SetPathGroup),
        0x34 => Command::Device(DeviceCommand::SensePathGroup),
        _ => return None,
    };
    Some(command)
}

/// Whether a code is a search's: a satisfied search passes over the next word.
pub fn is_search(code: u8) -> bool
    ensures { result ≡ is_search code }
{
    matches!(command_of(code), Some(Command::Search(_)))
}

/// The least count in bytes that a command's word has to have (IBM): with less it is rejected.
pub fn required_count(command: Command) -> u16
    ensures { result ≡ required_count command }
{
    match command {
        Command::Control(Control::DefineExtent | Control::LocateRecord) => 16,
        Command::Device(DeviceCommand::SetPathGroup) => 12,
        Command::Write(Write::CountKeyData | Write::NextTrack | Write::Zero) => 8,
        Command::Control(Control::Seek | Control::SeekCylinder | Control::SeekHead) => 6,
        _ => 1,
    }
}

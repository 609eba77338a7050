ghost use Rattle.std.specs.Prelude.{◌≡◌, ◌<◌, ◌*◌, IfOk, IfSome, Ok, Some};
ghost use Rattle.ckd_types.specs.Parameters.{given};
ghost use Rattle.ckd_rules.specs.Checks.{control_may_follow, write_may_follow, read_may_follow, device_may_follow, may_follow, is_before_records};
ghost use Rattle.ckd_rules.specs.Checks.{may_stand_at, is_in_sequence, seeks, sets_mask, has_own_number, defines, locates, control_order, device_act};
ghost use Rattle.ckd_rules.specs.Checks.{decoded_order, mask_fault, first_track, is_between, is_within, placed_order, masked_order, permitted_order};
ghost use Rattle.ckd_rules.specs.Checks.{order_by, order_of};
ghost use Rattle.ckd_rules.specs.Facts.{IsOrder};
ghost use Rattle.ckd_rules.specs.declared.order.CommandOrder.TheVariants.{Seeks, Defines};
ghost use Rattle.ckd_types.specs.declared.command.DeviceCommand.TheVariants.{SetPathGroup};

use crate::{After, CommandOrder, LocalAct, Look, Place, Stance};
use ckd_params::{decode_domain, decode_extent, decode_seek, decode_seek_head};
use ckd_sense::{
    INVALID_COMMAND, INVALID_PARAMETER, INVALID_SEQUENCE, SHORT_COUNT, file_protected, reject,
};
use ckd_types::{
    Ccw, Command, Control, DeviceCommand, Domain, Extent, FixedData, GroupId, ReadArea, Sense,
    TrackNo, Write, accepts, command_of, is_mask, permits_seek, permits_write, required_count,
};

/// Outside a domain a mask is set once, and a locate record wants an extent. Own.
fn control_may_follow(stance: &Stance, control: Control) -> bool
    ensures { result ≡ control_may_follow stance.now control }
{
    match control {
        Control::DefineExtent | Control::SetFileMask => !stance.mask_set,
        Control::LocateRecord => stance.extent.is_some(),
        _ => true,
    }
}

/// What a write outside a domain needs of the command before it.
fn write_may_follow(after: After, write: Write) -> bool
    ensures { result ≡ write_may_follow after write }
{
    match write {
        Write::Data => matches!(after, After::IdEqual | After::KeyEqual),
        Write::KeyData => matches!(after, After::IdEqual),
        Write::CountKeyData => matches!(
            after,
            After::IdEqual | After::KeyEqual | After::Found | After::Wrote
        ),
        Write::Zero => matches!(after, After::HomeEqual),
        Write::UpdateData | Write::UpdateKeyData | Write::NextTrack => false,
    }
}

fn read_may_follow(area: ReadArea) -> bool
    ensures { result ≡ read_may_follow area }
{
    !matches!(area, ReadArea::Track)
}

/// Who takes or frees the device does it first.
fn device_may_follow(stance: &Stance, command: DeviceCommand) -> bool
    ensures { result ≡ device_may_follow stance.now command }
{
    match command {
        DeviceCommand::Reserve | DeviceCommand::Release | DeviceCommand::UnconditionalReserve => {
            stance.commands == 0
        }
        _ => true,
    }
}

fn may_follow(stance: &Stance, command: Command) -> bool
    ensures { result ≡ may_follow stance.now command }
{
    match command {
        Command::Control(control) => control_may_follow(stance, control),
        Command::Search(_) => true,
        Command::Read(read) => read_may_follow(read.area),
        Command::Write(write) => write_may_follow(stance.after, write),
        Command::Device(command) => device_may_follow(stance, command),
    }
}

/// In a domain record 0 is written before all records, without a search.
fn may_stand_at(place: Place, command: Command) -> bool
    ensures { result ≡ may_stand_at place command }
{
    match command {
        Command::Write(Write::Zero) => matches!(place, Place::Index | Place::Home),
        _ => true,
    }
}

fn is_in_sequence(stance: &Stance, domain: Option<Domain>, command: Command) -> bool
    ensures { result ≡ is_in_sequence stance.now domain command }
{
    match domain {
        None => may_follow(stance, command),
        Some(d) => accepts(d.operation, command) && may_stand_at(stance.place, command),
    }
}

/// The first sixteen bytes that a command is given.
fn given(ccw: &Ccw) -> [u8; 16]
    ensures { result ≡ given 16 ccw.now }
{
    let mut bytes = [0; 16];
    let from = ccw.given.as_slice();
    let count = from.len().min(16);
    bytes[..count].copy_from_slice(&from[..count]);
    bytes
}

fn seeks(track: Option<TrackNo>) -> Option<CommandOrder>
    ensures order { result ≡ seeks track }
    ensures kept { IfSome result (λ o. IfSome track (λ t. o ≡ Seeks t)) }
{
    match track {
        Some(track) => Some(CommandOrder::Seeks(track)),
        None => None,
    }
}

fn sets_mask(mask: u8) -> Option<CommandOrder>
    ensures { result ≡ sets_mask mask }
{
    if is_mask(mask) {
        Some(CommandOrder::SetsMask(mask))
    } else {
        None
    }
}

/// An extent that has a number has the device's. Own.
fn has_own_number(own: u16, number: Option<u16>) -> bool
    ensures { result ≡ has_own_number own number }
{
    match number {
        Some(number) => number == own,
        None => true,
    }
}

fn defines(own: u16, extent: Extent) -> Option<CommandOrder>
    ensures order { result ≡ defines own (Ok extent) }
    ensures kept { IfSome result (λ o. o ≡ Defines extent) }
{
    if has_own_number(own, extent.number) {
        Some(CommandOrder::Defines(extent))
    } else {
        None
    }
}

/// What a control command is to do; None where its bytes mean nothing on the device.
fn control_order(
    fixed: &FixedData,
    stance: &Stance,
    bytes: &[u8; 16],
    control: Control,
) -> Option<CommandOrder>
    requires track { stance.now.track < fixed.now.cylinders * 15 }
    ensures order { result ≡ control_order fixed.now stance.now bytes.now control }
    ensures on_device { IfSome result (IsOrder (fixed.now.cylinders * 15)) }
{
    match control {
        Control::NoOperation => Some(CommandOrder::Nothing),
        Control::Seek | Control::SeekCylinder => seeks(decode_seek(bytes, fixed.cylinders())),
        Control::SeekHead => {
            let track = stance.track;
            seeks(decode_seek_head(bytes, track))
        }
        Control::Recalibrate => Some(CommandOrder::Recalibrates),
        Control::SetSector => Some(CommandOrder::SetsSector),
        Control::SetFileMask => sets_mask(bytes[0]),
        Control::DefineExtent => match decode_extent(bytes, fixed.cylinders()) {
            Ok(extent) => defines(fixed.number(), extent),
            Err(_) => None,
        },
        Control::LocateRecord => match decode_domain(bytes, fixed.cylinders()) {
            Ok(domain) => Some(CommandOrder::Locates(domain)),
            Err(_) => None,
        },
    }
}

/// Set path group ID is given a function byte and an ID.
fn sets_group(bytes: &[u8; 16]) -> LocalAct
    ensures { result ≡ device_act bytes.now SetPathGroup }
{
    let mut id = [0; 11];
    id.copy_from_slice(&bytes[1..12]);
    LocalAct::SetGroup {
        function: bytes[0],
        id: GroupId::new(id),
    }
}

fn device_act(ccw: &Ccw, command: DeviceCommand) -> LocalAct
    ensures { result ≡ device_act (given 16 ccw.now) command }
{
    match command {
        DeviceCommand::Sense => LocalAct::Sense,
        DeviceCommand::SenseId => LocalAct::SenseId,
        DeviceCommand::Reserve => LocalAct::Reserve,
        DeviceCommand::Release => LocalAct::Release,
        DeviceCommand::UnconditionalReserve => LocalAct::Steal,
        DeviceCommand::SetPathGroup => sets_group(&given(ccw)),
        DeviceCommand::SensePathGroup => LocalAct::SenseGroup,
    }
}

/// What a command is to do; None where its bytes mean nothing on the device.
fn decoded(fixed: &FixedData, stance: &Stance, ccw: &Ccw, command: Command) -> Option<CommandOrder>
    requires track { stance.now.track < fixed.now.cylinders * 15 }
    ensures order { result ≡ decoded_order fixed.now stance.now ccw.now command }
    ensures on_device { IfSome result (IsOrder (fixed.now.cylinders * 15)) }
{
    match command {
        Command::Control(control) => control_order(fixed, stance, &given(ccw), control),
        Command::Search(search) => Some(CommandOrder::Looks(Look::Searches(search))),
        Command::Read(read) => Some(CommandOrder::Looks(Look::Reads(read))),
        Command::Write(write) => Some(CommandOrder::Looks(Look::Writes(write))),
        Command::Device(command) => Some(CommandOrder::Asks(device_act(ccw, command))),
    }
}

/// A write that the mask forbids is a bad sequence, a seek is file protected.
fn mask_fault(mask: u8, command: Command) -> Option<Sense>
    ensures { result ≡ mask_fault mask command }
{
    match command {
        Command::Control(control) => {
            if permits_seek(mask, control) {
                None
            } else {
                Some(file_protected())
            }
        }
        Command::Write(write) => {
            if permits_write(mask, write) {
                None
            } else {
                Some(reject(INVALID_SEQUENCE))
            }
        }
        _ => None,
    }
}

/// The track that a command is on, or goes to.
fn first_track(stance: &Stance, order: &CommandOrder) -> Option<TrackNo>
    ensures { result ≡ first_track stance.now order.now }
{
    match order {
        CommandOrder::Seeks(track) => Some(*track),
        CommandOrder::Recalibrates => TrackNo::new(0),
        CommandOrder::Locates(domain) => Some(domain.seek),
        CommandOrder::Looks(_) => Some(stance.track),
        _ => None,
    }
}

fn is_between(extent: Extent, t: TrackNo) -> bool
    ensures { result ≡ is_between extent t }
{
    extent.first.get() <= t.get() && t.get() <= extent.last.get()
}

fn is_within(extent: Option<Extent>, track: Option<TrackNo>) -> bool
    ensures { result ≡ is_within extent track }
{
    match (extent, track) {
        (Some(e), Some(t)) => is_between(e, t),
        _ => true,
    }
}

fn permitted_order(
    stance: &Stance,
    command: Command,
    order: Option<CommandOrder>,
) -> Result<CommandOrder, Sense>
    ensures order { result ≡ permitted_order stance.now command order }
    ensures kept { IfOk result (λ o. order ≡ Some o) }
{
    let Some(order) = order else {
        return Err(reject(INVALID_PARAMETER));
    };
    if let Some(sense) = mask_fault(stance.mask, command) {
        return Err(sense);
    }
    if !is_within(stance.extent, first_track(stance, &order)) {
        return Err(file_protected());
    }
    Ok(order)
}

/// What the command of a word is to do, or the sense of the first check that it fails before it looks
/// at a track.
pub fn order_of(fixed: &FixedData, stance: &Stance, ccw: &Ccw) -> Result<CommandOrder, Sense>
    requires track { stance.now.track < fixed.now.cylinders * 15 }
    ensures order { result ≡ order_of fixed.now stance.now ccw.now }
    ensures on_device { IfOk result (IsOrder (fixed.now.cylinders * 15)) }
{
    let Some(command) = command_of(ccw.command) else {
        return Err(reject(INVALID_COMMAND));
    };
    if !is_in_sequence(stance, stance.domain, command) {
        return Err(reject(INVALID_SEQUENCE));
    }
    if ccw.count < required_count(command) {
        return Err(reject(SHORT_COUNT));
    }
    permitted_order(stance, command, decoded(fixed, stance, ccw, command))
}

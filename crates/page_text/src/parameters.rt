ghost use Rattle.std.specs.Prelude.{◌≡◌, ◌<◌, ◌++◌, OnOk, slice_index};
ghost use Rattle.page_text.specs.Parameters.{attributes_text, control_form, count_text, domain_text, double_at, extent_text, fast_name, form_by, form_of, form_text, home_text, id_text, lengths_text, locate_text, mask_text, mode_name, named_text, operation_name, order_text, orientation_name, parameters_text, place_text, record_text, search_form, seek_name, seek_text, to_head_text, write_control_name, write_form};

use crate::{Page, Piece};
use ckd_types::{Ccw, Command, Control, NoMemory, SearchArea, Write, command_of};

/// Which parameters a command has.
#[derive(Clone, Copy)]
pub(crate) enum Form {
    None,
    Extent,
    Locate,
    Seek,
    Head,
    Mask,
    Id,
    Home,
    Count,
}

fn control_form(control: Control) -> Form
    ensures { result ≡ control_form control }
{
    match control {
        Control::DefineExtent => Form::Extent,
        Control::LocateRecord => Form::Locate,
        Control::Seek => Form::Seek,
        Control::SeekCylinder => Form::Seek,
        Control::SeekHead => Form::Head,
        Control::SetFileMask => Form::Mask,
        Control::NoOperation => Form::None,
        Control::Recalibrate => Form::None,
        Control::SetSector => Form::None,
    }
}

fn search_form(area: SearchArea) -> Form
    ensures { result ≡ search_form area }
{
    match area {
        SearchArea::Id(_) => Form::Id,
        SearchArea::Key(_) => Form::None,
        SearchArea::Home => Form::Home,
    }
}

fn write_form(write: Write) -> Form
    ensures { result ≡ write_form write }
{
    match write {
        Write::CountKeyData => Form::Count,
        Write::NextTrack => Form::Count,
        Write::Zero => Form::Count,
        Write::Data => Form::None,
        Write::UpdateData => Form::None,
        Write::KeyData => Form::None,
        Write::UpdateKeyData => Form::None,
    }
}

fn form_by(command: Command) -> Form
    ensures { result ≡ form_by command }
{
    match command {
        Command::Control(control) => control_form(control),
        Command::Search(search) => search_form(search.area),
        Command::Read(_) => Form::None,
        Command::Write(write) => write_form(write),
        Command::Device(_) => Form::None,
    }
}

fn form_of(code: u8) -> Form
    ensures { result ≡ form_of code }
{
    match command_of(code) {
        Some(command) => form_by(command),
        None => Form::None,
    }
}

/// A byte that is given: those that are missing are zeros.
fn byte_at(bytes: &[u8], i: usize) -> u8
    ensures { result ≡ slice_index bytes.now i }
{
    match bytes.get(i) {
        Some(b) => *b,
        None => 0,
    }
}

/// A number of two bytes.
fn double_at(bytes: &[u8], i: usize) -> u64
    requires { i < 100 }
    ensures { result ≡ double_at bytes.now i }
{
    u64::from(byte_at(bytes, i)) * 256 + u64::from(byte_at(bytes, i + 1))
}

fn write_control_name(mask: u8) -> &'static [u8]
    ensures { result.now ≡ write_control_name mask }
{
    if mask / 64 == 0 {
        b"all writes but record 0's"
    } else if mask / 64 == 1 {
        b"no writes"
    } else if mask / 64 == 2 {
        b"updates alone"
    } else {
        b"all writes"
    }
}

fn seek_name(mask: u8) -> &'static [u8]
    ensures { result.now ≡ seek_name mask }
{
    if mask / 8 % 4 == 0 {
        b", all seeks"
    } else if mask / 8 % 4 == 1 {
        b", seeks of cylinder and head"
    } else if mask / 8 % 4 == 2 {
        b", seeks of head"
    } else {
        b", no seeks"
    }
}

fn mode_name(attributes: u8) -> &'static [u8]
    ensures { result.now ≡ mode_name attributes }
{
    if attributes / 4 % 8 == 0 {
        b"normal"
    } else if attributes / 4 % 8 == 1 {
        b"bypass cache"
    } else if attributes / 4 % 8 == 2 {
        b"inhibit cache loading"
    } else if attributes / 4 % 8 == 3 {
        b"sequential access"
    } else {
        b"no mode"
    }
}

fn fast_name(attributes: u8) -> &'static [u8]
    ensures { result.now ≡ fast_name attributes }
{
    if attributes % 4 == 0 {
        b""
    } else if attributes % 4 == 1 {
        b", no fast write"
    } else if attributes % 4 == 2 {
        b", cache fast write"
    } else {
        b", cache fast write, no fast write"
    }
}

fn operation_name(b: u8) -> &'static [u8]
    ensures { result.now ≡ operation_name b }
{
    if b % 64 == 0 {
        b"orient"
    } else if b % 64 == 1 {
        b"write data"
    } else if b % 64 == 3 {
        b"format"
    } else if b % 64 == 6 {
        b"read data"
    } else if b % 64 == 12 {
        b"read tracks"
    } else if b % 64 == 22 {
        b"read"
    } else {
        b"no operation of these"
    }
}

fn orientation_name(b: u8) -> &'static [u8]
    ensures { result.now ≡ orientation_name b }
{
    if b / 64 == 0 {
        b" from count"
    } else if b / 64 == 1 {
        b" from home address"
    } else if b / 64 == 2 {
        b" from data"
    } else {
        b" from index"
    }
}

/// A byte with what it means.
#[tactic(auto, unfolding(crate::specs::Parameters::named_text))]
fn put_named<'a>(
    page: &mut Page,
    before: &'a [u8],
    byte: u8,
    name: &'a [u8],
    more: &'a [u8],
) -> Result<(), NoMemory>
    ensures { OnOk result (page.new ≡ page.old ++ named_text before.now byte name.now more.now) }
{
    let pieces = [
        Piece::Text(before),
        Piece::Byte(byte),
        Piece::Text(b": "),
        Piece::Text(name),
        Piece::Text(more),
    ];
    page.put(&pieces)
}

/// A cylinder and a head.
#[tactic(auto, unfolding(crate::specs::Parameters::place_text))]
fn put_place(page: &mut Page, before: &[u8], cylinder: u64, head: u64) -> Result<(), NoMemory>
    ensures { OnOk result (page.new ≡ page.old ++ place_text before.now cylinder head) }
{
    let pieces = [
        Piece::Text(before),
        Piece::Text(b"cylinder "),
        Piece::Number(cylinder),
        Piece::Text(b" head "),
        Piece::Number(head),
    ];
    page.put(&pieces)
}

/// A record's number, before its place.
#[tactic(auto, unfolding(crate::specs::Parameters::record_text))]
fn put_record(page: &mut Page, before: &[u8], number: u8) -> Result<(), NoMemory>
    ensures { OnOk result (page.new ≡ page.old ++ record_text before.now number) }
{
    let pieces = [
        Piece::Text(before),
        Piece::Text(b"record "),
        Piece::Small(number),
        Piece::Text(b" of "),
    ];
    page.put(&pieces)
}

#[tactic(auto, unfolding(crate::specs::Parameters::order_text))]
fn put_order<'a>(page: &mut Page, name: &'a [u8], from: &'a [u8], count: u8) -> Result<(), NoMemory>
    ensures { OnOk result (page.new ≡ page.old ++ order_text name.now from.now count) }
{
    let pieces = [
        Piece::Text(name),
        Piece::Text(from),
        Piece::Text(b"; commands in the domain: "),
        Piece::Small(count),
    ];
    page.put(&pieces)
}

#[tactic(auto, unfolding(crate::specs::Parameters::lengths_text))]
fn put_lengths(page: &mut Page, key: u8, length: u64) -> Result<(), NoMemory>
    ensures { OnOk result (page.new ≡ page.old ++ lengths_text key length) }
{
    let pieces = [
        Piece::Text(b", key length "),
        Piece::Small(key),
        Piece::Text(b", data length "),
        Piece::Number(length),
    ];
    page.put(&pieces)
}

fn put_mask(page: &mut Page, mask: u8) -> Result<(), NoMemory>
    ensures { OnOk result (page.new ≡ page.old ++ mask_text mask) }
{
    put_named(
        page,
        b"mask ",
        mask,
        write_control_name(mask),
        seek_name(mask),
    )
}

fn put_attributes(page: &mut Page, attributes: u8) -> Result<(), NoMemory>
    ensures { OnOk result (page.new ≡ page.old ++ attributes_text attributes) }
{
    let mode = mode_name(attributes);
    put_named(
        page,
        b"; attributes ",
        attributes,
        mode,
        fast_name(attributes),
    )
}

fn put_extent(page: &mut Page, bytes: &[u8]) -> Result<(), NoMemory>
    ensures { OnOk result (page.new ≡ page.old ++ extent_text bytes.now) }
{
    put_mask(page, byte_at(bytes, 0))?;
    put_attributes(page, byte_at(bytes, 1))?;
    put_place(
        page,
        b"; extent from ",
        double_at(bytes, 8),
        double_at(bytes, 10),
    )?;
    put_place(page, b" to ", double_at(bytes, 12), double_at(bytes, 14))?;
    Ok(())
}

#[tactic(auto, unfolding(crate::specs::Parameters::id_text))]
fn put_id(page: &mut Page, before: &[u8], bytes: &[u8], i: usize) -> Result<(), NoMemory>
    requires { i < 90 }
    ensures { OnOk result (page.new ≡ page.old ++ id_text before.now bytes.now i) }
{
    put_record(page, before, byte_at(bytes, i + 4))?;
    put_place(page, b"", double_at(bytes, i), double_at(bytes, i + 2))?;
    Ok(())
}

fn put_domain(page: &mut Page, first: u8, count: u8) -> Result<(), NoMemory>
    ensures { OnOk result (page.new ≡ page.old ++ domain_text first count) }
{
    put_order(page, operation_name(first), orientation_name(first), count)
}

fn put_locate(page: &mut Page, bytes: &[u8]) -> Result<(), NoMemory>
    ensures { OnOk result (page.new ≡ page.old ++ locate_text bytes.now) }
{
    put_domain(page, byte_at(bytes, 0), byte_at(bytes, 3))?;
    put_place(
        page,
        b"; seek to ",
        double_at(bytes, 4),
        double_at(bytes, 6),
    )?;
    put_id(page, b"; ", bytes, 8)?;
    Ok(())
}

fn put_seek(page: &mut Page, bytes: &[u8]) -> Result<(), NoMemory>
    ensures { OnOk result (page.new ≡ page.old ++ seek_text bytes.now) }
{
    put_place(page, b"to ", double_at(bytes, 2), double_at(bytes, 4))
}

#[tactic(auto, unfolding(crate::specs::Parameters::to_head_text))]
fn put_to_head(page: &mut Page, head: u64) -> Result<(), NoMemory>
    ensures { OnOk result (page.new ≡ page.old ++ to_head_text head) }
{
    page.put(&[Piece::Text(b"to head "), Piece::Number(head)])
}

fn put_home(page: &mut Page, bytes: &[u8]) -> Result<(), NoMemory>
    ensures { OnOk result (page.new ≡ page.old ++ home_text bytes.now) }
{
    put_place(page, b"", double_at(bytes, 0), double_at(bytes, 2))
}

fn put_count(page: &mut Page, bytes: &[u8]) -> Result<(), NoMemory>
    ensures { OnOk result (page.new ≡ page.old ++ count_text bytes.now) }
{
    put_id(page, b"", bytes, 0)?;
    put_lengths(page, byte_at(bytes, 5), double_at(bytes, 6))?;
    Ok(())
}

fn put_form(page: &mut Page, form: Form, bytes: &[u8]) -> Result<(), NoMemory>
    ensures { OnOk result (page.new ≡ page.old ++ form_text form bytes.now) }
{
    match form {
        Form::None => page.put(&[]),
        Form::Extent => put_extent(page, bytes),
        Form::Locate => put_locate(page, bytes),
        Form::Seek => put_seek(page, bytes),
        Form::Head => put_to_head(page, double_at(bytes, 4)),
        Form::Mask => put_mask(page, byte_at(bytes, 0)),
        Form::Id => put_id(page, b"", bytes, 0),
        Form::Home => put_home(page, bytes),
        Form::Count => put_count(page, bytes),
    }
}

/// What the bytes that are given to a command say.
pub(crate) fn put_parameters(page: &mut Page, ccw: &Ccw) -> Result<(), NoMemory>
    ensures { OnOk result (page.new ≡ page.old ++ parameters_text ccw.now) }
{
    put_form(page, form_of(ccw.command), ccw.given.as_slice())
}

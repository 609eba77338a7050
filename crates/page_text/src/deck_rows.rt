ghost use Rattle.std.specs.Prelude.{◌≡◌, ◌++◌, OnOk};
ghost use Rattle.page_text.specs.DeckRows.{
  chain_name,
  code_by,
  deck_programs,
  deck_row,
  device_programs,
  flags_by,
  flags_text,
  length_name,
  path_programs,
  program_head,
  program_text,
  skip_name,
  word_code_text,
  word_end,
  word_place,
  word_row,
};

use crate::drawing::{Drawing, draw_all};
use crate::names::{name_of, repeat_name};
use crate::parameters::put_parameters;
use crate::{Page, Piece};
use ckd_ccw::Program;
use ckd_types::{Bytes, Ccw, DeviceNo, NoMemory, PathNo};
use deck_plan::PathPlans;
use deck_text::Deck;

/// A row of the deck's text.
#[tactic(auto, unfolding(crate::specs::DeckRows::deck_row))]
fn put_deck_row(page: &mut Page, i: u64, text: &[u8]) -> Result<(), NoMemory>
    ensures { OnOk result (page.new ≡ page.old ++ deck_row i text.now) }
{
    let pieces = [
        Piece::Text(b"<tr id='d"),
        Piece::Number(i),
        Piece::Text(b"'><th scope='row'><a href='#d"),
        Piece::Number(i),
        Piece::Text(b"'>"),
        Piece::Number(i),
        Piece::Text(b"</a></th><td class='t'>"),
        Piece::Shown(text),
        Piece::Text(b"</td></tr>\n"),
    ];
    page.put(&pieces)
}

/// The rows of the deck's text.
#[derive(Clone, Copy)]
pub(crate) struct DeckRows;

impl Drawing<Bytes> for DeckRows {
    ghost text = { λ s i it. deck_row i it };

    ghost next = { λ s i it. s };

    fn put(&mut self, page: &mut Page, i: u64, it: &Bytes) -> Result<(), NoMemory> {
        put_deck_row(page, i, it.as_slice())
    }
}

fn chain_name(flags: u8) -> &'static [u8]
    ensures { result.now ≡ chain_name flags }
{
    if flags / 64 % 2 == 1 {
        b" chained"
    } else {
        b""
    }
}

fn length_name(flags: u8) -> &'static [u8]
    ensures { result.now ≡ length_name flags }
{
    if flags / 32 % 2 == 1 {
        b" suppress length"
    } else {
        b""
    }
}

fn skip_name(flags: u8) -> &'static [u8]
    ensures { result.now ≡ skip_name flags }
{
    if flags / 16 % 2 == 1 { b" skip" } else { b"" }
}

/// The words of a program, in their order.
#[derive(Clone, Copy)]
pub(crate) struct ProgramWords {
    pub(crate) device: DeviceNo,
    pub(crate) path: PathNo,
    pub(crate) ordinal: u64,
}

#[tactic(auto, unfolding(crate::specs::DeckRows::word_place))]
fn put_word_place(page: &mut Page, of: &ProgramWords, index: u64) -> Result<(), NoMemory>
    ensures { OnOk result (page.new ≡ page.old ++ word_place of.now index) }
{
    let pieces = [
        Piece::Text(b"<tr id='w"),
        Piece::Device(of.device),
        Piece::Text(b"-"),
        Piece::Path(of.path),
        Piece::Text(b"-"),
        Piece::Number(of.ordinal),
        Piece::Text(b"-"),
        Piece::Number(index),
        Piece::Text(b"'><th scope='row'>"),
        Piece::Number(index),
        Piece::Text(b"</th><td class='t'>"),
    ];
    page.put(&pieces)
}

#[tactic(auto, unfolding(crate::specs::DeckRows::code_by))]
fn put_code_by<'a>(
    page: &mut Page,
    code: u8,
    name: &'a [u8],
    more: &'a [u8],
) -> Result<(), NoMemory>
    ensures { OnOk result (page.new ≡ page.old ++ code_by code name.now more.now) }
{
    let pieces = [
        Piece::Byte(code),
        Piece::Text(b"</td><td>"),
        Piece::Text(name),
        Piece::Text(more),
        Piece::Text(b"</td><td>"),
    ];
    page.put(&pieces)
}

#[tactic(auto, unfolding(crate::specs::DeckRows::flags_by))]
fn put_flags_by<'a>(
    page: &mut Page,
    chain: &'a [u8],
    length: &'a [u8],
    skip: &'a [u8],
    count: u16,
) -> Result<(), NoMemory>
    ensures { OnOk result (page.new ≡ page.old ++ flags_by chain.now length.now skip.now count) }
{
    let pieces = [
        Piece::Text(chain),
        Piece::Text(length),
        Piece::Text(skip),
        Piece::Text(b"</td><td class='n'>"),
        Piece::Short(count),
        Piece::Text(b"</td><td>"),
    ];
    page.put(&pieces)
}

fn put_code(page: &mut Page, code: u8) -> Result<(), NoMemory>
    ensures { OnOk result (page.new ≡ page.old ++ word_code_text code) }
{
    put_code_by(page, code, name_of(code), repeat_name(code))
}

fn put_flags(page: &mut Page, flags: u8, count: u16) -> Result<(), NoMemory>
    ensures { OnOk result (page.new ≡ page.old ++ flags_text flags count) }
{
    let length = length_name(flags);
    put_flags_by(page, chain_name(flags), length, skip_name(flags), count)
}

#[tactic(auto, unfolding(crate::specs::DeckRows::word_end))]
fn put_word_end(page: &mut Page, given: &[u8]) -> Result<(), NoMemory>
    ensures { OnOk result (page.new ≡ page.old ++ word_end given.now) }
{
    let pieces = [
        Piece::Text(b"</td><td class='t'>"),
        Piece::Hex(given),
        Piece::Text(b"</td></tr>\n"),
    ];
    page.put(&pieces)
}

/// A row of a channel command word: its index, code, name, flags, count, what its bytes say, and the bytes.
fn put_word(page: &mut Page, of: &ProgramWords, i: u64, ccw: &Ccw) -> Result<(), NoMemory>
    ensures { OnOk result (page.new ≡ page.old ++ word_row of.now i ccw.now) }
{
    put_word_place(page, of, i.saturating_sub(1))?;
    put_code(page, ccw.command)?;
    put_flags(page, ccw.flags, ccw.count)?;
    put_parameters(page, ccw)?;
    put_word_end(page, ccw.given.as_slice())?;
    Ok(())
}

impl Drawing<Ccw> for ProgramWords {
    ghost text = { λ s i it. word_row s i it };

    ghost next = { λ s i it. s };

    fn put(&mut self, page: &mut Page, i: u64, it: &Ccw) -> Result<(), NoMemory> {
        put_word(page, self, i, it)
    }
}

#[tactic(auto, unfolding(crate::specs::DeckRows::program_head))]
fn put_program_head(page: &mut Page, of: &ProgramWords) -> Result<(), NoMemory>
    ensures { OnOk result (page.new ≡ page.old ++ program_head of.now) }
{
    let pieces = [
        Piece::Text(b"<tr><th colspan='7' class='h'>Program "),
        Piece::Number(of.ordinal),
        Piece::Text(b" of path "),
        Piece::Path(of.path),
        Piece::Text(b" on device "),
        Piece::Device(of.device),
        Piece::Text(b"</th></tr>\n"),
    ];
    page.put(&pieces)
}

/// A program, with its place before it.
fn put_program(page: &mut Page, of: ProgramWords, program: &Program) -> Result<(), NoMemory>
    ensures { OnOk result (page.new ≡ page.old ++ program_text of program.now) }
{
    let mut words = of;
    put_program_head(page, &words)?;
    draw_all::<ProgramWords, Ccw>(page, &mut words, program.ccws())?;
    Ok(())
}

/// The programs of a path on a device, numbered from 1.
fn put_path(
    page: &mut Page,
    device: DeviceNo,
    path: PathNo,
    plans: &PathPlans,
) -> Result<(), NoMemory>
    ensures { OnOk result (page.new ≡ page.old ++ path_programs device plans.now path) }
{
    for i in 0..plans.len(path) {
        let of = ProgramWords {
            device,
            path,
            ordinal: i as u64 + 1,
        };
        put_program(page, of, plans.at(path, i))?;
    }
    Ok(())
}

/// The programs of a device, path by path.
fn put_device(page: &mut Page, device: DeviceNo, plans: &PathPlans) -> Result<(), NoMemory>
    ensures { OnOk result (page.new ≡ page.old ++ device_programs device plans.now) }
{
    put_path(page, device, PathNo::of(1), plans)?;
    put_path(page, device, PathNo::of(2), plans)?;
    put_path(page, device, PathNo::of(3), plans)?;
    put_path(page, device, PathNo::of(4), plans)?;
    Ok(())
}

/// All programs of a deck, device by device.
pub(crate) fn put_programs(page: &mut Page, deck: &Deck) -> Result<(), NoMemory>
    ensures { OnOk result (page.new ≡ page.old ++ deck_programs deck.now) }
{
    for i in 0..deck.device_count() {
        let device = deck.device_at(i).number;
        put_device(page, device, deck.plans(device))?;
    }
    Ok(())
}

ghost use Rattle.std.specs.Prelude.{◌≡◌, ◌++◌, OnOk};
ghost use Rattle.page_text.specs.ReportRows.{code_text, end_text, frame_name, left_text, line_words, link_text, note_name, outcome_by, outcome_text, reject_name, row_end, row_start, row_text, sense_name, sense_text, status_name, unused_text, words_of};

use crate::answers::{put_back, put_loose, put_order, put_over, put_start, put_totals};
use crate::drawing::Drawing;
use crate::lines::ShownLine;
use crate::names::{name_of, repeat_name};
use crate::{Page, Piece};
use ckd_types::{NoMemory, Note, Sense};
use report_text::{EndLine, ReportLine};

/// The bits of a status that a run ends a command with.
fn status_name(status: u8) -> &'static [u8]
    ensures { result.now ≡ status_name status }
{
    if status == 0x0c {
        b"channel end, device end"
    } else if status == 0x4c {
        b"status modifier, channel end, device end: the search is satisfied"
    } else if status == 0x0d {
        b"channel end, device end, unit exception: end of file"
    } else if status == 0x0e {
        b"channel end, device end, unit check"
    } else {
        b"another status"
    }
}

fn note_name(note: Note) -> &'static [u8]
    ensures { result.now ≡ note_name note }
{
    match note {
        Note::Plain => b"",
        Note::IncorrectLength => b"; incorrect length",
        Note::Limit => b"; the chain ends at its limit",
    }
}

fn reject_name(eighth: u8) -> &'static [u8]
    ensures { result.now ≡ reject_name eighth }
{
    if eighth == 1 {
        b"command reject: the code is no command's"
    } else if eighth == 2 {
        b"command reject: it may not stand here, or the mask forbids it"
    } else if eighth == 3 {
        b"command reject: the count is less than the least"
    } else if eighth == 4 {
        b"command reject: a parameter means nothing here"
    } else {
        b"command reject"
    }
}

/// What sense bytes 0, 1 and 7 say.
fn sense_name(first: u8, second: u8, eighth: u8) -> &'static [u8]
    ensures { result.now ≡ sense_name first second eighth }
{
    if first == 0x80 {
        reject_name(eighth)
    } else if first == 0x10 {
        b"equipment check: the track can't be had"
    } else if first == 0x08 {
        b"data check: the volume gave bytes that are no track"
    } else if second == 0x40 {
        b"invalid track format: a record doesn't fit"
    } else if second == 0x20 {
        b"end of cylinder"
    } else if second == 0x08 {
        b"no record found"
    } else if second == 0x04 {
        b"file protected: the track is outside the extent, or the mask forbids the seek"
    } else {
        b"no check"
    }
}

fn frame_name(modified: bool) -> &'static [u8]
    ensures { result.now ≡ frame_name modified }
{
    if modified {
        b"a modified frame: "
    } else {
        b"a clean frame: "
    }
}

/// The name of the command that ended, where the deck has it.
fn put_code(page: &mut Page, code: Option<u8>) -> Result<(), NoMemory>
    ensures { OnOk result (page.new ≡ page.old ++ code_text code) }
{
    match code {
        Some(code) => page.put(&[Piece::Text(name_of(code)), Piece::Text(repeat_name(code))]),
        None => page.put(&[Piece::Text(b"a command")]),
    }
}

#[tactic(auto, unfolding(crate::specs::ReportRows::link_text))]
fn put_link(page: &mut Page, end: &EndLine) -> Result<(), NoMemory>
    ensures { OnOk result (page.new ≡ page.old ++ link_text end.now) }
{
    let pieces = [
        Piece::Text(b"<a href='#w"),
        Piece::Device(end.device),
        Piece::Text(b"-"),
        Piece::Path(end.path),
        Piece::Text(b"-"),
        Piece::Short(end.ordinal),
        Piece::Text(b"-"),
        Piece::Short(end.index),
        Piece::Text(b"'>"),
    ];
    page.put(&pieces)
}

#[tactic(auto, unfolding(crate::specs::ReportRows::outcome_by))]
fn put_outcome_by<'a>(
    page: &mut Page,
    status: &'a [u8],
    residual: u16,
    note: &'a [u8],
) -> Result<(), NoMemory>
    ensures { OnOk result (page.new ≡ page.old ++ outcome_by status.now residual note.now) }
{
    let pieces = [
        Piece::Text(b"</a>: "),
        Piece::Text(status),
        Piece::Text(b"; residual count "),
        Piece::Short(residual),
        Piece::Text(note),
    ];
    page.put(&pieces)
}

fn put_outcome(page: &mut Page, end: &EndLine) -> Result<(), NoMemory>
    ensures { OnOk result (page.new ≡ page.old ++ outcome_text end.now) }
{
    put_outcome_by(
        page,
        status_name(end.status.0),
        end.residual,
        note_name(end.note),
    )
}

/// A command's end, with a link to its word.
fn put_end(page: &mut Page, end: &EndLine, code: Option<u8>) -> Result<(), NoMemory>
    ensures { OnOk result (page.new ≡ page.old ++ end_text end.now code) }
{
    put_link(page, end)?;
    put_code(page, code)?;
    put_outcome(page, end)?;
    Ok(())
}

fn put_sense(page: &mut Page, sense: &Sense) -> Result<(), NoMemory>
    ensures { OnOk result (page.new ≡ page.old ++ sense_text sense.now) }
{
    let bytes = &sense.bytes;
    page.put(&[Piece::Text(sense_name(bytes[0], bytes[1], bytes[7]))])
}

fn put_left(page: &mut Page, n: u16) -> Result<(), NoMemory>
    ensures { OnOk result (page.new ≡ page.old ++ left_text n) }
{
    page.put(&[
        Piece::Text(b"programs that weren't started: "),
        Piece::Short(n),
    ])
}

fn put_unused(page: &mut Page, n: u32) -> Result<(), NoMemory>
    ensures { OnOk result (page.new ≡ page.old ++ unused_text n) }
{
    page.put(&[
        Piece::Text(b"event lines that weren't used: "),
        Piece::Count(n),
    ])
}

/// What a line says, in words.
fn put_line(page: &mut Page, line: &ReportLine, code: Option<u8>) -> Result<(), NoMemory>
    ensures { OnOk result (page.new ≡ page.old ++ line_words line.now code) }
{
    match line {
        ReportLine::Start(_, _, answer) => put_start(page, answer),
        ReportLine::End(end) => put_end(page, end, code),
        ReportLine::Data(bytes) => page.put(&[
            Piece::Text(b"bytes that were sent: "),
            Piece::Number(bytes.len() as u64),
        ]),
        ReportLine::Sense(sense) => put_sense(page, sense),
        ReportLine::Half(_, _, t) => page.put(&[
            Piece::Text(b"first part of a write done: "),
            Piece::Track(*t),
        ]),
        ReportLine::Back(_, answer) => put_back(page, answer),
        ReportLine::StepIdle(_) => page.put(&[Piece::Text(b"no program runs")]),
        ReportLine::RunIdle(_) => page.put(&[Piece::Text(b"no program runs")]),
        ReportLine::Loose(_, answer) => put_loose(page, answer),
        ReportLine::Io { reads, writes } => page.put(&[
            Piece::Text(b"reads of volumes: "),
            Piece::Number(*reads),
            Piece::Text(b", writes: "),
            Piece::Number(*writes),
        ]),
        ReportLine::Over(_, _, _, how) => put_over(page, how),
        ReportLine::Reset(_, _) => page.put(&[Piece::Text(b"reset of the path")]),
        ReportLine::Order(order, answer) => put_order(page, order, answer),
        ReportLine::Device(_, totals) => put_totals(page, totals),
        ReportLine::Lost(_, t) => page.put(&[Piece::Text(b"lost: "), Piece::Track(*t)]),
        ReportLine::Frame(_, t, modified) => {
            page.put(&[Piece::Text(frame_name(*modified)), Piece::Track(*t)])
        }
        ReportLine::Fresh(_) => page.put(&[Piece::Text(b"the volume was made empty")]),
        ReportLine::Left(_, _, n) => put_left(page, *n),
        ReportLine::Unused(n) => put_unused(page, *n),
        ReportLine::Finish => page.put(&[Piece::Text(b"the report is whole")]),
        ReportLine::Sum(_, n) => page.put(&[Piece::Text(b"sum: "), Piece::Number(*n)]),
    }
}

fn put_words(page: &mut Page, shown: &ShownLine) -> Result<(), NoMemory>
    ensures { OnOk result (page.new ≡ page.old ++ words_of shown.now) }
{
    match &shown.line {
        Some(line) => put_line(page, line, shown.code),
        None => page.put(&[]),
    }
}

#[tactic(auto, unfolding(crate::specs::ReportRows::row_start))]
fn put_row_start(page: &mut Page, i: u64, text: &[u8]) -> Result<(), NoMemory>
    ensures { OnOk result (page.new ≡ page.old ++ row_start i text.now) }
{
    let pieces = [
        Piece::Text(b"<tr id='l"),
        Piece::Number(i),
        Piece::Text(b"'><th scope='row'><a href='#l"),
        Piece::Number(i),
        Piece::Text(b"'>"),
        Piece::Number(i),
        Piece::Text(b"</a></th><td class='t'>"),
        Piece::Shown(text),
        Piece::Text(b"</td><td>"),
    ];
    page.put(&pieces)
}

#[tactic(auto, unfolding(crate::specs::ReportRows::row_end))]
fn put_row_end(page: &mut Page) -> Result<(), NoMemory>
    ensures { OnOk result (page.new ≡ page.old ++ row_end) }
{
    page.put(&[Piece::Text(b"</td></tr>\n")])
}

/// A row of the report's table: a line's number, its text, and what it says.
fn put_row(page: &mut Page, i: u64, shown: &ShownLine) -> Result<(), NoMemory>
    ensures { OnOk result (page.new ≡ page.old ++ row_text i shown.now) }
{
    put_row_start(page, i, shown.text.as_slice())?;
    put_words(page, shown)?;
    put_row_end(page)?;
    Ok(())
}

/// The rows of the report's table.
#[derive(Clone, Copy)]
pub(crate) struct ReportRows;

impl Drawing<ShownLine> for ReportRows {
    ghost text = { λ s i it. row_text i it };

    ghost next = { λ s i it. s };

    fn put(&mut self, page: &mut Page, i: u64, it: &ShownLine) -> Result<(), NoMemory> {
        put_row(page, i, it)
    }
}

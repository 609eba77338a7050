ghost use Rattle.std.specs.Prelude.{◌≡◌, ◌≤◌, ◌-◌, ◌++◌, ◌∷◌, [], ◌<◌, ◌+◌, List, OnErr, OnOk, if◌then◌else◌, length, take, ℕ};
ghost use Rattle.ckd_outside.specs.Causes.{HasCause};
ghost use Rattle.ckd_outside.specs.Texts.{Puts};
ghost use Rattle.report_text.specs.Counting.{counts_of, is_accepted, is_check, is_end, is_start};
ghost use Rattle.report_text.specs.Ends.{end_line, lines_text};
ghost use Rattle.report_text.specs.Lines.{line_text};
ghost use Rattle.report_text.specs.Record.{IsSpent, byte_count, kept_line, kept_lines, other_count, whole_line};
ghost use Rattle.report_text.specs.declared.line.ReportLine.TheVariants as lines;

use crate::words::{HexWord, put_often};
use crate::{EndLine, HowOver, LineCounts, LineSpelling, ReportLine, StartAnswer, put_data};
use ckd_outside::{Failed, LineBuffer, Sink, Spelling};
use ckd_types::{Bytes, CommandEnd, DeviceNo, NoMemory, PathNo, Sense};
use std::alloc::Global;
use std::marker::Model;

/// From how many bytes on a DATA line keeps its own memory, and isn't copied.
const MANY_BYTES: usize = 512;

/// The lines of most events: END, DATA, SENSE, IO, OVER, and one more.
const MOST_LINES: usize = 6;

/// The bytes of a SENSE line.
const SENSE_BYTES: usize = 32;

/// A line as a record keeps it: sixteen bytes, with those of a DATA or SENSE line elsewhere, and so every line without
/// a form of its own.
#[derive(Clone, Copy)]
enum Kept {
    End(EndLine),
    Io(u32, u32),
    Over(PathNo, DeviceNo, u16, HowOver),
    Data(u32),
    Sense,
    Other,
}

/// The lines of a run's events so far, in little room. They are seen as a list.
#[derive(Drop)]
pub struct RunRecord {
    kept: Vec<Kept>,
    bytes: Vec<u8>,
    others: Vec<ReportLine>,
}

impl Model for RunRecord {
    ghost use Rattle.std.specs.Prelude.{List};
    ghost use Rattle.report_text.specs.declared.line.ReportLine.{ReportLine};
    ghost use Rattle.report_text.specs.Record.{IsSpent, kept_lines};

    ghost Value = { List ReportLine };

    ghost view = { λ r. kept_lines r.kept.items r.bytes.items r.others.items };

    ghost invariant = { λ r. IsSpent r.kept.items r.bytes.items r.others.items };
}

/// The END line of a command of this program.
pub fn end_line(path: PathNo, device: DeviceNo, ordinal: u16, end: &CommandEnd) -> EndLine
    ensures { result ≡ end_line path device ordinal end.now }
{
    EndLine {
        path,
        device,
        ordinal,
        index: end.index,
        status: end.status,
        residual: end.residual,
        note: end.note,
    }
}

impl RunRecord {
    /// Nothing has happened. Takes no memory.
    pub fn new(alloc: Global) -> RunRecord
        ensures { result ≡ [] }
    {
        RunRecord {
            kept: Vec::new(alloc),
            bytes: Vec::new(alloc),
            others: Vec::new(alloc),
        }
    }

    /// Room for the lines of most events: a command's end with few bytes and sense, its calls, its program's end, and one
    /// that is kept whole.
    pub fn make_room(&mut self) -> Result<(), NoMemory>
        ensures { self.new ≡ self.old }
    {
        self.kept.reserve(MOST_LINES)?;
        self.bytes.reserve(MANY_BYTES + SENSE_BYTES)?;
        self.others.reserve(1)?;
        Ok(())
    }

    /// A line whose short form says all.
    fn push_short(&mut self, kept: Kept) -> Result<(), NoMemory>
        requires no_bytes { byte_count kept ≡ 0 }
        requires no_other { other_count kept ≡ 0 }
        ensures did { OnOk result (self.new ≡ self.old ++ kept_line kept [] [] ∷ []) }
        ensures same { OnErr result (self.new ≡ self.old) }
    {
        self.kept.push(kept)?;
        Ok(())
    }

    /// A line with all of these bytes.
    fn push_bytes(&mut self, kept: Kept, bytes: &[u8]) -> Result<(), NoMemory>
        requires all_bytes { byte_count kept ≡ length bytes.now }
        requires no_other { other_count kept ≡ 0 }
        ensures did { OnOk result (self.new ≡ self.old ++ whole_line kept bytes.now ∷ []) }
        ensures same { OnErr result (self.new ≡ self.old) }
    {
        self.kept.reserve(1)?;
        self.bytes.extend_from_slice(bytes)?;
        self.kept.push_reserved(kept);
        Ok(())
    }

    fn push_other(&mut self, line: ReportLine) -> Result<(), NoMemory>
        ensures did { OnOk result (self.new ≡ self.old ++ line ∷ []) }
        ensures same { OnErr result (self.new ≡ self.old) }
    {
        self.kept.reserve(1)?;
        self.others.push(line)?;
        self.kept.push_reserved(Kept::Other);
        Ok(())
    }

    fn push_io(&mut self, reads: u64, writes: u64) -> Result<(), NoMemory>
        ensures did { OnOk result (self.new ≡ self.old ++ lines.Io reads writes ∷ []) }
        ensures same { OnErr result (self.new ≡ self.old) }
    {
        if reads > u64::from(u32::MAX) || writes > u64::from(u32::MAX) {
            return self.push_other(ReportLine::Io { reads, writes });
        }
        self.push_short(Kept::Io(reads as u32, writes as u32))
    }

    fn push_sense(&mut self, sense: &Sense) -> Result<(), NoMemory>
        ensures did { OnOk result (self.new ≡ self.old ++ lines.Sense sense.now ∷ []) }
        ensures same { OnErr result (self.new ≡ self.old) }
    {
        self.push_bytes(Kept::Sense, &sense.bytes)
    }

    /// A DATA line of borrowed bytes; of 4 GiB or more for want of memory none.
    pub fn push_data(&mut self, bytes: &[u8]) -> Result<(), NoMemory>
        ensures did { OnOk result (self.new ≡ self.old ++ lines.Data bytes.now ∷ []) }
        ensures same { OnErr result (self.new ≡ self.old) }
    {
        match u32::try_from(bytes.len()) {
            Ok(n) => self.push_bytes(Kept::Data(n), bytes),
            Err(_) => Err(NoMemory),
        }
    }

    /// A DATA line: few bytes stand beside those of others, and many where they are.
    fn push_owned(&mut self, bytes: Bytes) -> Result<(), NoMemory>
        ensures did { OnOk result (self.new ≡ self.old ++ lines.Data bytes ∷ []) }
        ensures same { OnErr result (self.new ≡ self.old) }
    {
        if bytes.len() >= MANY_BYTES {
            return self.push_other(ReportLine::Data(bytes));
        }
        self.push_data(bytes.as_slice())
    }

    /// One line more, behind the others; for want of memory none.
    pub fn push(&mut self, line: ReportLine) -> Result<(), NoMemory>
        ensures did { OnOk result (self.new ≡ self.old ++ line ∷ []) }
        ensures same { OnErr result (self.new ≡ self.old) }
    {
        match line {
            ReportLine::End(end) => self.push_short(Kept::End(end)),
            ReportLine::Io { reads, writes } => self.push_io(reads, writes),
            ReportLine::Over(path, device, ordinal, how) => {
                self.push_short(Kept::Over(path, device, ordinal, how))
            }
            ReportLine::Data(bytes) => self.push_owned(bytes),
            ReportLine::Sense(sense) => self.push_sense(&sense),
            line => self.push_other(line),
        }
    }

    /// The END line of a command of this program; for want of memory none.
    pub fn push_end_line(
        &mut self,
        path: PathNo,
        device: DeviceNo,
        ordinal: u16,
        end: &CommandEnd,
    ) -> Result<(), NoMemory>
        ensures did { OnOk result (self.new ≡ self.old ++ lines.End (end_line path device ordinal end.now) ∷ []) }
        ensures same { OnErr result (self.new ≡ self.old) }
    {
        self.push_short(Kept::End(end_line(path, device, ordinal, end)))
    }

    /// What the lines come to.
    pub fn counts(&self) -> LineCounts
        ensures { result ≡ counts_of self.now }
    {
        count_kept(&self.kept, &self.bytes, &self.others)
    }
}

#[tactic(auto, unfolding(crate::specs::Lines::text_of))]
fn put_end_text<K: Sink>(sink: &mut K, buffer: &mut LineBuffer, end: &EndLine) -> Result<(), Failed>
    ensures bytes { Puts (K.held sink.old) buffer.old (K.held sink.new) buffer.new result (line_text (lines.End end.now)) }
    ensures cause { HasCause (K.faults sink.old) (K.faults sink.new) result }
{
    put_often(sink, buffer, b"END", end)
}

/// The first 32 of some bytes.
#[tactic(auto, unfolding(crate::specs::Lines::text_of))]
fn put_sense_text<K: Sink>(
    sink: &mut K,
    buffer: &mut LineBuffer,
    bytes: &[u8],
) -> Result<(), Failed>
    requires some { 32 ≤ length bytes.now }
    ensures bytes { Puts (K.held sink.old) buffer.old (K.held sink.new) buffer.new result (line_text (lines.Sense (record { bytes = take 32 bytes.now }))) }
    ensures cause { HasCause (K.faults sink.old) (K.faults sink.new) result }
{
    let (bytes, _) = bytes.split_at(32);
    put_often(sink, buffer, b"SENSE", &HexWord(bytes))
}

fn put_kept<K: Sink>(
    sink: &mut K,
    buffer: &mut LineBuffer,
    kept: &Kept,
    bytes: &[u8],
    others: &[ReportLine],
) -> Result<(), Failed>
    requires bytes { byte_count kept.now ≤ length bytes.now }
    requires others { other_count kept.now ≤ length others.now }
    ensures bytes { Puts (K.held sink.old) buffer.old (K.held sink.new) buffer.new result (line_text (kept_line kept.now bytes.now others.now)) }
    ensures cause { HasCause (K.faults sink.old) (K.faults sink.new) result }
{
    match kept {
        Kept::End(end) => put_end_text(sink, buffer, end),
        Kept::Io(reads, writes) => {
            let line = ReportLine::Io {
                reads: u64::from(*reads),
                writes: u64::from(*writes),
            };
            LineSpelling::put(sink, buffer, &line)
        }
        Kept::Over(path, device, ordinal, how) => {
            LineSpelling::put(
                sink,
                buffer,
                &ReportLine::Over(*path, *device, *ordinal, *how),
            )
        }
        Kept::Data(n) => put_data(sink, buffer, &bytes[..*n as usize]),
        Kept::Sense => put_sense_text(sink, buffer, bytes),
        Kept::Other => LineSpelling::put(sink, buffer, &others[0]),
    }
}

fn byte_count(kept: &Kept) -> usize
    ensures { result ≡ byte_count kept.now }
{
    match kept {
        Kept::Data(n) => *n as usize,
        Kept::Sense => 32,
        Kept::End(_) | Kept::Io(_, _) | Kept::Over(_, _, _, _) | Kept::Other => 0,
    }
}

fn other_count(kept: &Kept) -> usize
    ensures { result ≡ other_count kept.now }
{
    match kept {
        Kept::Other => 1,
        Kept::End(_) | Kept::Io(_, _) | Kept::Over(_, _, _, _) | Kept::Data(_) | Kept::Sense => 0,
    }
}

fn is_accepted(answer: &StartAnswer) -> bool
    ensures { result ≡ is_accepted answer.now }
{
    match answer {
        StartAnswer::Accepted(_) => true,
        StartAnswer::Busy(_)
        | StartAnswer::Done
        | StartAnswer::Running
        | StartAnswer::Secondary(_)
        | StartAnswer::Reserved(_)
        | StartAnswer::Shut(_) => false,
    }
}

fn is_start(line: &ReportLine) -> bool
    ensures { result ≡ is_start line.now }
{
    match line {
        ReportLine::Start(_, _, answer) => is_accepted(answer),
        _ => false,
    }
}

fn is_end(line: &ReportLine) -> bool
    ensures { result ≡ is_end line.now }
{
    match line {
        ReportLine::End(_) => true,
        _ => false,
    }
}

fn is_check(line: &ReportLine) -> bool
    ensures { result ≡ is_check line.now }
{
    match line {
        ReportLine::End(end) => end.status.has_unit_check(),
        _ => false,
    }
}

/// Whether a line that is kept starts a program, whatever its bytes are.
fn starts(kept: &Kept, others: &[ReportLine]) -> bool
    requires { other_count kept.now ≤ length others.now }
    ensures { (bytes : List ℕ) → result ≡ is_start (kept_line kept.now bytes others.now) }
{
    match kept {
        Kept::Other => is_start(&others[0]),
        Kept::End(_) | Kept::Io(_, _) | Kept::Over(_, _, _, _) | Kept::Data(_) | Kept::Sense =>
            false,
    }
}

fn ends(kept: &Kept, others: &[ReportLine]) -> bool
    requires { other_count kept.now ≤ length others.now }
    ensures { (bytes : List ℕ) → result ≡ is_end (kept_line kept.now bytes others.now) }
{
    match kept {
        Kept::End(_) => true,
        Kept::Other => is_end(&others[0]),
        Kept::Io(_, _) | Kept::Over(_, _, _, _) | Kept::Data(_) | Kept::Sense => false,
    }
}

fn ends_checked(kept: &Kept, others: &[ReportLine]) -> bool
    requires { other_count kept.now ≤ length others.now }
    ensures { (bytes : List ℕ) → result ≡ is_check (kept_line kept.now bytes others.now) }
{
    match kept {
        Kept::End(end) => end.status.has_unit_check(),
        Kept::Other => is_check(&others[0]),
        Kept::Io(_, _) | Kept::Over(_, _, _, _) | Kept::Data(_) | Kept::Sense => false,
    }
}

/// One more, where it counts.
fn counted(n: u64, more: bool) -> u64
    requires { n < 18446744073709551615 }
    ensures { result ≡ n + (if more then 1 else 0) }
{
    if more { n + 1 } else { n }
}

fn count_kept(list: &[Kept], bytes: &[u8], others: &[ReportLine]) -> LineCounts
    requires spent { IsSpent list.now bytes.now others.now }
    ensures { result ≡ counts_of (kept_lines list.now bytes.now others.now) }
{
    let mut counts = LineCounts {
        programs: 0,
        commands: 0,
        checks: 0,
    };
    let mut bytes_left = bytes;
    let mut others_left = others;
    for kept in list {
        counts = LineCounts {
            programs: counted(counts.programs, starts(kept, others_left)),
            commands: counted(counts.commands, ends(kept, others_left)),
            checks: counted(counts.checks, ends_checked(kept, others_left)),
        };
        bytes_left = bytes_left.split_at(byte_count(kept)).1;
        others_left = others_left.split_at(other_count(kept)).1;
    }
    counts
}

fn put_all_kept<K: Sink>(
    sink: &mut K,
    buffer: &mut LineBuffer,
    list: &[Kept],
    bytes: &[u8],
    others: &[ReportLine],
) -> Result<(), Failed>
    requires spent { IsSpent list.now bytes.now others.now }
    ensures bytes { Puts (K.held sink.old) buffer.old (K.held sink.new) buffer.new result (lines_text (kept_lines list.now bytes.now others.now)) }
    ensures cause { HasCause (K.faults sink.old) (K.faults sink.new) result }
{
    let mut bytes_left = bytes;
    let mut others_left = others;
    for kept in list {
        put_kept(sink, buffer, kept, bytes_left, others_left)?;
        bytes_left = bytes_left.split_at(byte_count(kept)).1;
        others_left = others_left.split_at(other_count(kept)).1;
    }
    Ok(())
}

impl Spelling<RunRecord> for LineSpelling {
    ghost text = { lines_text };

    fn put<K: Sink>(sink: &mut K, buffer: &mut LineBuffer, it: &RunRecord) -> Result<(), Failed> {
        put_all_kept(sink, buffer, &it.kept, &it.bytes, &it.others)
    }
}

ghost use Rattle.std.specs.Prelude.{◌≡◌, ◌≤◌, ◌+◌, ◌++◌, ◌∷◌, [], decimal, length};
ghost use Rattle.ckd_outside.specs.Causes.{HasCause};
ghost use Rattle.ckd_outside.specs.Texts.{Puts, buffer_size};
ghost use Rattle.report_text.specs.declared.line.ReportLine.TheVariants.{Data as data_line};
ghost use Rattle.report_text.specs.Keywords.{keyword_text};
ghost use Rattle.report_text.specs.Words.{all_spaced, answer_words, note_key, order_words, spaced};
ghost use Rattle.report_text.specs.Lines.{end_words, line_text, words_in_line};

use crate::answer_words::mark_key;
use crate::line::key_of;
use crate::words::{HexWord, KeyWord, Words, put_behind, put_line, put_numbers, put_often};
use crate::{EndLine, Keyword, Order, OrderAnswer, ReportLine, keyword_text};
use ckd_outside::{Failed, LineBuffer, Sink, Spelling, make_room};
use ckd_types::{DeviceNo, Note, PathNo, TrackNo};

fn path_word(path: &PathNo) -> u64
    ensures { result ≡ path.now }
{
    u64::from(path.get())
}

fn device_word(device: &DeviceNo) -> u64
    ensures { result ≡ device.now }
{
    u64::from(device.get())
}

fn track_word(track: &TrackNo) -> u64
    ensures { result ≡ track.now }
{
    u64::from(track.get())
}

/// A note behind other words, for which room was made.
fn put_note(buffer: &mut LineBuffer, note: Note)
    requires room { length buffer.old + 6 ≤ buffer_size }
    ensures text { buffer.new ≡ buffer.old ++ spaced (keyword_text (note_key note)) }
{
    match note {
        Note::Plain => buffer.put(b" -"),
        Note::IncorrectLength => buffer.put(b" IL"),
        Note::Limit => buffer.put(b" LIMIT"),
    }
}

impl Words for EndLine {
    ghost words = { end_words };

    /// Room is made once: a report has more of these lines than of all others.
    fn put<K: Sink>(&self, sink: &mut K, buffer: &mut LineBuffer) -> Result<(), Failed> {
        make_room(sink, buffer, 120)?;
        buffer.put(b" ");
        buffer.put_number(path_word(&self.path));
        buffer.put(b" ");
        buffer.put_number(device_word(&self.device));
        buffer.put(b" ");
        buffer.put_number(u64::from(self.ordinal));
        buffer.put(b" ");
        buffer.put_number(u64::from(self.index));
        buffer.put(b" ");
        buffer.put_byte(self.status.0);
        buffer.put(b" ");
        buffer.put_number(u64::from(self.residual));
        put_note(buffer, self.note);
        Ok(())
    }
}

/// An order's words, and what it is answered.
fn put_order<K: Sink>(
    sink: &mut K,
    buffer: &mut LineBuffer,
    order: &Order,
    answer: &OrderAnswer,
) -> Result<(), Failed>
    ensures bytes { Puts (K.held sink.old) buffer.old (K.held sink.new) buffer.new result (all_spaced (order_words order.now ++ answer_words answer.now)) }
    ensures cause { HasCause (K.faults sink.old) (K.faults sink.new) result }
{
    order.put(sink, buffer)?;
    answer.put(sink, buffer)
}

impl Words for ReportLine {
    ghost words = { words_in_line };

    fn put<K: Sink>(&self, sink: &mut K, buffer: &mut LineBuffer) -> Result<(), Failed> {
        match self {
            ReportLine::Start(path, device, answer) => {
                put_behind(
                    sink,
                    buffer,
                    &[path_word(path), device_word(device)],
                    answer,
                )
            }
            ReportLine::End(end) => end.put(sink, buffer),
            ReportLine::Data(bytes) => HexWord(bytes.as_slice()).put(sink, buffer),
            ReportLine::Sense(sense) => HexWord(&sense.bytes).put(sink, buffer),
            ReportLine::Half(path, device, track) => {
                let numbers = [path_word(path), device_word(device), track_word(track)];
                put_numbers(sink, buffer, &numbers)
            }
            ReportLine::Back(device, answer) => {
                put_behind(sink, buffer, &[device_word(device)], answer)
            }
            ReportLine::StepIdle(device) => {
                put_behind(
                    sink,
                    buffer,
                    &[device_word(device)],
                    &KeyWord(Keyword::Idle),
                )
            }
            ReportLine::RunIdle(device) => {
                put_behind(
                    sink,
                    buffer,
                    &[device_word(device)],
                    &KeyWord(Keyword::Idle),
                )
            }
            ReportLine::Loose(device, answer) => {
                put_behind(sink, buffer, &[device_word(device)], answer)
            }
            ReportLine::Io { reads, writes } => put_numbers(sink, buffer, &[*reads, *writes]),
            ReportLine::Over(path, device, ordinal, how) => {
                let numbers = [path_word(path), device_word(device), u64::from(*ordinal)];
                put_behind(sink, buffer, &numbers, how)
            }
            ReportLine::Reset(path, device) => {
                put_numbers(sink, buffer, &[path_word(path), device_word(device)])
            }
            ReportLine::Order(order, answer) => put_order(sink, buffer, order, answer),
            ReportLine::Device(device, totals) => {
                put_behind(sink, buffer, &[device_word(device)], totals)
            }
            ReportLine::Lost(device, track) => {
                put_numbers(sink, buffer, &[device_word(device), track_word(track)])
            }
            ReportLine::Frame(device, track, modified) => {
                let numbers = [device_word(device), track_word(track)];
                put_behind(sink, buffer, &numbers, &KeyWord(mark_key(*modified)))
            }
            ReportLine::Fresh(device) => put_numbers(sink, buffer, &[device_word(device)]),
            ReportLine::Left(path, device, programs) => {
                let numbers = [path_word(path), device_word(device), u64::from(*programs)];
                put_numbers(sink, buffer, &numbers)
            }
            ReportLine::Unused(events) => put_numbers(sink, buffer, &[u64::from(*events)]),
            ReportLine::Finish => Ok(()),
            ReportLine::Sum(_, n) => put_numbers(sink, buffer, &[*n]),
        }
    }
}

/// How the lines of a report, a history and a summary are spelled.
pub struct LineSpelling;

impl Spelling<ReportLine> for LineSpelling {
    ghost text = { line_text };

    #[tactic(auto, unfolding(crate::specs::Lines::text_of))]
    fn put<K: Sink>(sink: &mut K, buffer: &mut LineBuffer, it: &ReportLine) -> Result<(), Failed> {
        put_line(sink, buffer, key_of(it), it)
    }
}

/// Puts a DATA line of borrowed bytes.
#[tactic(auto, unfolding(crate::specs::Lines::text_of))]
pub fn put_data<K: Sink>(sink: &mut K, buffer: &mut LineBuffer, bytes: &[u8]) -> Result<(), Failed>
    ensures bytes { Puts (K.held sink.old) buffer.old (K.held sink.new) buffer.new result (line_text (data_line bytes.now)) }
    ensures cause { HasCause (K.faults sink.old) (K.faults sink.new) result }
{
    put_often(sink, buffer, b"DATA", &HexWord(bytes))
}

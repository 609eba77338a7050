ghost use Rattle.std.specs.Prelude.{◌≡◌, Ok, IfOk, IfSome};
ghost use Rattle.report_text.specs.Lines.{text_of};
ghost use Rattle.report_reading.specs.Reading.{Reads, data_line, line_by, line_of};

use crate::end_ahead::end_ahead;
use crate::line_words::LineWords;
use crate::places::{is_key, word_at};
use crate::read_lines::event_line;
use crate::{LineError, LineFault, is_read_back};
use ckd_types::{Bytes, NoMemory};
use hex::FromHexError;
use report_text::{Keyword, ReportLine, Respelling};
use std::alloc::Global;

/// The bytes of one word of digits.
fn data_line(alloc: Global, words: &LineWords) -> Result<ReportLine, LineError>
    ensures { Reads result (data_line words.now) }
{
    let word = word_at(words, 1)?;
    match hex::decode(alloc, word) {
        Ok(bytes) => Ok(ReportLine::Data(Bytes::from_vec(bytes))),
        Err(FromHexError::OutOfMemory) => Err(LineError::NoMemory),
        Err(_) => Err(LineError::Fault(LineFault::Digits)),
    }
}

/// What the words of a line say.
fn line_by(alloc: Global, words: &LineWords) -> Result<ReportLine, LineError>
    ensures { Reads result (line_by words.now) }
{
    let word = word_at(words, 0)?;
    if is_key(word, Keyword::Data) {
        return data_line(alloc, words);
    }
    let line = event_line(word, words)?;
    Ok(line)
}

/// The END line that a text is, if it is one.
fn end_of(text: &[u8]) -> Option<ReportLine>
    ensures { IfSome result (λ line. (line_of text.now ≡ Ok line) × (text_of line ≡ text.now)) }
{
    let end = end_ahead(text)?;
    let line = ReportLine::End(end);
    is_read_back(&line);
    Some(line)
}

/// The line of a report, a history or a summary that a text without a line feed is, or its first fault. It takes
/// memory for the bytes of a DATA line, and where a line is longer than all before, since a line other than END is
/// spelled again and compared.
#[tactic(auto, unfolding(crate::specs::Reading::line_of))]
pub fn read_line(
    alloc: Global,
    respelling: &mut Respelling,
    text: &[u8],
) -> Result<ReportLine, LineError>
    ensures read { Reads result (line_of text.now) }
    ensures exact { IfOk result (λ line. text_of line ≡ text.now) }
{
    // most lines of a long report
    if let Some(line) = end_of(text) {
        return Ok(line);
    }
    let line = line_by(alloc, &LineWords::of(text))?;
    if respelling.is_text_of(&line, text)? {
        Ok(line)
    } else {
        Err(LineError::Fault(LineFault::Text))
    }
}

ghost use Rattle.std.specs.Prelude.{◌≡◌, Ok, Err, true, if◌then◌else◌};
ghost use Rattle.report_text.specs.declared.line.ReportLine.{ReportLine};
ghost use Rattle.report_text.specs.Lines.{text_of};
ghost use Rattle.report_reading.specs.Ranges.{IsLine, NamesTrack, form_fault, has_form};
ghost use Rattle.report_reading.specs.Reading.{line_of};

use crate::in_ranges;
use report_text::ReportLine;

/// Laws: the line that the text of a line is, is that line, where its numbers and bytes are in their ranges, and no other
/// such line has its text; but the text of POWER with another answer than DONE is none, nor IO 0 0, which no event has.
pub fn reads_back()
    ensures again { (line : ReportLine) → IsLine line → line_of (text_of line) ≡ (if has_form line then Ok line else Err (form_fault line)) }
    ensures apart { (line other : ReportLine) → IsLine line → IsLine other → has_form line ≡ true → text_of line ≡ text_of other → line ≡ other }
{}

/// What the text of any line is read as that names no track from 960 on, which no device of a deck has: its types keep its other
/// numbers and its bytes in their ranges.
pub fn is_read_back(line: &ReportLine)
    ensures { NamesTrack line.now → line_of (text_of line.now) ≡ (if has_form line.now then Ok line.now else Err (form_fault line.now)) }
{
    in_ranges(line);
    reads_back();
}

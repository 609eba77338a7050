ghost use Rattle.std.specs.Prelude.{◌∷◌, []};
ghost use Rattle.ckd_outside.specs.Causes.{HasCause};
ghost use Rattle.ckd_outside.specs.Texts.{Puts};
ghost use Rattle.report_text.specs.Ends.{lines_text};

use ckd_outside::{Failed, LineBuffer, Sink, Spelling};
use report_text::{LineSpelling, ReportLine};

/// Puts one line.
pub(crate) fn put_line<K: Sink>(
    sink: &mut K,
    buffer: &mut LineBuffer,
    line: &ReportLine,
) -> Result<(), Failed>
    ensures bytes { Puts (K.held sink.old) buffer.old (K.held sink.new) buffer.new result (lines_text (line.now ∷ [])) }
    ensures cause { HasCause (K.faults sink.old) (K.faults sink.new) result }
{
    LineSpelling::put(sink, buffer, line)
}

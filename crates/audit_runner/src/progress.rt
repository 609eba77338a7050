ghost use Rattle.std.specs.Prelude.{◌≡◌};

use ckd_outside::{Failed, Faulty, Piece, Sink, Source};
use deck_text::write_line;

/// So many bytes are read between two lines.
const STEP: usize = 16_777_216;

/// A source whose progress is written to a sink, every 16 MiB, where it is shown at all. What the sink answers changes
/// nothing.
#[derive(Drop)]
pub struct Shown<S, K> {
    source: S,
    sink: K,
    is_shown: bool,
    unshown: usize,
    mebibytes: u64,
}

impl<S: Source, K: Sink> Shown<S, K> {
    pub fn new(source: S, sink: K, is_shown: bool) -> Shown<S, K>
        ensures { result.source ≡ source }
    {
        Shown {
            source,
            sink,
            is_shown,
            unshown: 0,
            mebibytes: 0,
        }
    }

    fn show(&mut self, count: usize)
        ensures { self.new.source ≡ self.old.source }
    {
        self.unshown = self.unshown.saturating_add(count);
        if !self.is_shown || self.unshown < STEP {
            return;
        }
        self.unshown = 0;
        self.mebibytes = self.mebibytes.saturating_add(16);
        let pieces = [
            Piece::Text(b"audit: "),
            Piece::Number(self.mebibytes),
            Piece::Text(b" MiB read\n"),
        ];
        let _ = write_line(&mut self.sink, &pieces);
    }
}

impl<S: Source, K: Sink> Faulty for Shown<S, K> {
    ghost faults = { λ s. S.faults s.source };

    ghost allowance = { λ s. S.allowance s.source };
}

impl<S: Source, K: Sink> Source for Shown<S, K> {
    ghost left = { λ s. S.left s.source };

    fn read(&mut self, into: &mut [u8]) -> Result<usize, Failed> {
        let count = self.source.read(into)?;
        self.show(count);
        Ok(count)
    }
}

ghost use Rattle.deck_text.specs.Answers.{Parses};
ghost use Rattle.deck_text.specs.Parse.{parsed};

use crate::lines::next_line;
use crate::reading::Reading;
use crate::{Deck, DeckFault, Which};
use std::alloc::Global;

const MOST_BYTES: usize = 16_777_216;

/// The deck that a text is, or its first fault.
pub fn read_deck(alloc: Global, text: &[u8]) -> Result<Deck, DeckFault>
    ensures { Parses result (parsed text.now) }
{
    if text.len() > MOST_BYTES {
        return Err(DeckFault::Limit(Which::Size));
    }
    let mut reading = Reading::new(alloc)?;
    let mut number = 1u32;
    let mut rest = text;
    while !rest.is_empty() {
        let (line, after) = next_line(rest);
        reading.take_line(alloc, number, line)?;
        number += 1;
        rest = after;
    }
    reading.finish(number)
}

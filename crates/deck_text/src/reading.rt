ghost use Rattle.std.specs.Prelude.{◌≡◌, ◌<◌, IfOk, IfSome, length, slice_index_or};
ghost use Rattle.deck_text.specs.Answers.{Takes};
ghost use Rattle.deck_text.specs.Words.{words_of};
ghost use Rattle.deck_text.specs.Reading.{open_program, line_put, put_words, take_line};
ghost use Rattle.deck_text.specs.Parse.{reading_begun, deck_finished};

use crate::ccw::ccw_line;
use crate::events::event_line;
use crate::forms::{count_line, deck_line, device_line, fault_line, no_words, path_and_device};
use crate::keyword::{DeckKeyword, EventWord, keyword_of};
use crate::lines::{has_bad_byte, is_comment};
use crate::place::{LinePlace, may_stand};
use crate::words::next_word;
use crate::{Deck, DeckFault, DeckWhy, PlannedProgram, Which};
use ckd_ccw::{Program, ProgramFault};
use ckd_types::{Ccw, DeviceNo, NoMemory, PathNo};
use std::alloc::Global;
use std::marker::Model;
use std::mem;

const MOST_FAULTS: usize = 1024;

const MOST_PROGRAMS: usize = 512;

const MOST_WORDS: usize = 256;

const MOST_EVENTS: usize = 65_536;

/// A reading on its way: where it is, the deck so far, and of the program that is open its words and
/// the numbers of their lines.
#[derive(Drop)]
pub struct Reading {
    place: LinePlace,
    deck: Deck,
    words: Vec<Ccw>,
    lines: Vec<u32>,
}

impl Model for Reading {
    ghost use Rattle.std.specs.Prelude.{length};
    ghost use Rattle.deck_text.specs.Reading.{HasRoom, State};

    ghost Value = { State };

    ghost view = { λ r. record { place = r.place; deck = r.deck; words = r.words.items; lines = r.lines.items } };

    ghost invariant = { λ r. HasRoom r.place (length r.deck.programs) };
}

fn refused(line: u32, why: DeckWhy) -> DeckFault
    ensures { result ≡ DeckFault.Refused line why }
{
    DeckFault::Refused { line, why }
}

impl Reading {
    /// Before the first line.
    pub fn new(alloc: Global) -> Result<Reading, NoMemory>
        ensures { IfOk result (λ reading. reading ≡ reading_begun) }
    {
        Ok(Reading {
            place: LinePlace::Front,
            deck: Deck::new(alloc)?,
            words: Vec::new(alloc),
            lines: Vec::new(alloc),
        })
    }

    /// The deck, where the text ends before line `number`.
    pub fn finish(self, number: u32) -> Result<Deck, DeckFault>
        ensures { result ≡ deck_finished number self.place self.deck }
    {
        if matches!(self.place, LinePlace::Events) {
            Ok(self.deck)
        } else {
            Err(refused(number, DeckWhy::Unfinished))
        }
    }

    fn put_deck(&mut self, number: u32, rest: &[u8]) -> Result<(), DeckFault>
        ensures { Takes result self.new (line_put number self.old DeckKeyword.Deck (words_of rest.now)) }
    {
        if let Err(why) = deck_line(rest) {
            return Err(refused(number, why));
        }
        self.place = LinePlace::Sizes;
        Ok(())
    }

    fn put_cache(&mut self, number: u32, rest: &[u8]) -> Result<(), DeckFault>
        ensures { Takes result self.new (line_put number self.old DeckKeyword.Cache (words_of rest.now)) }
    {
        let frames = match count_line(1, 4096, rest) {
            Ok(frames) => frames,
            Err(why) => return Err(refused(number, why)),
        };
        self.place = LinePlace::Slots;
        self.deck.set_frames(frames as u16);
        Ok(())
    }

    fn put_store(&mut self, number: u32, rest: &[u8]) -> Result<(), DeckFault>
        ensures { Takes result self.new (line_put number self.old DeckKeyword.Store (words_of rest.now)) }
    {
        let slots = match count_line(0, 1024, rest) {
            Ok(slots) => slots,
            Err(why) => return Err(refused(number, why)),
        };
        self.place = LinePlace::FirstDevice;
        self.deck.set_slots(slots as u16);
        Ok(())
    }

    fn put_device(&mut self, number: u32, rest: &[u8]) -> Result<(), DeckFault>
        ensures { Takes result self.new (line_put number self.old DeckKeyword.Device (words_of rest.now)) }
    {
        let line = match device_line(self.deck.devices(), rest) {
            Ok(line) => line,
            Err(why) => return Err(refused(number, why)),
        };
        self.place = LinePlace::Devices;
        self.deck.push_device(line)?;
        Ok(())
    }

    fn put_fault(&mut self, number: u32, rest: &[u8]) -> Result<(), DeckFault>
        ensures { Takes result self.new (line_put number self.old DeckKeyword.Fault (words_of rest.now)) }
    {
        let line = match fault_line(self.deck.devices(), rest) {
            Ok(line) => line,
            Err(why) => return Err(refused(number, why)),
        };
        if self.deck.fault_count() >= MOST_FAULTS {
            return Err(DeckFault::Limit(Which::Faults));
        }
        self.place = LinePlace::Faults;
        self.deck.push_fault(line)?;
        Ok(())
    }

    fn put_program(&mut self, number: u32, rest: &[u8]) -> Result<(), DeckFault>
        ensures { Takes result self.new (line_put number self.old DeckKeyword.Program (words_of rest.now)) }
    {
        let (path, device) = match path_and_device(self.deck.devices(), rest) {
            Ok(at) => at,
            Err(why) => return Err(refused(number, why)),
        };
        if self.deck.program_count() >= MOST_PROGRAMS {
            return Err(DeckFault::Limit(Which::Programs));
        }
        self.place = LinePlace::Inside(path, device);
        self.words.clear();
        self.lines.clear();
        Ok(())
    }

    fn put_ccw(&mut self, alloc: Global, number: u32, rest: &[u8]) -> Result<(), DeckFault>
        ensures { Takes result self.new (line_put number self.old DeckKeyword.Ccw (words_of rest.now)) }
    {
        let ccw = ccw_line(alloc, number, rest)?;
        if self.words.len() >= MOST_WORDS {
            return Err(refused(number, DeckWhy::Program));
        }
        self.words.push(ccw)?;
        self.lines.push(number)?;
        Ok(())
    }

    /// The line of a program's bad word, or END's where there is none.
    fn line_of(&self, index: u16, number: u32) -> u32
        ensures { result ≡ slice_index_or self.now.lines index number }
    {
        let index = usize::from(index);
        if index < self.lines.len() {
            self.lines[index]
        } else {
            number
        }
    }

    /// The path and the device of the program that is open.
    fn open_program(&self) -> Option<(PathNo, DeviceNo)>
        ensures value { result ≡ open_program self.now.place }
        ensures room { IfSome result (λ at. length self.now.deck.programs < 512) }
    {
        match self.place {
            LinePlace::Inside(path, device) => Some((path, device)),
            _ => None,
        }
    }

    fn put_end(&mut self, alloc: Global, number: u32, rest: &[u8]) -> Result<(), DeckFault>
        ensures { Takes result self.new (line_put number self.old DeckKeyword.End (words_of rest.now)) }
    {
        if let Err(why) = no_words(rest) {
            return Err(refused(number, why));
        }
        let Some((path, device)) = self.open_program() else {
            return Err(refused(number, DeckWhy::Order));
        };
        let words = mem::replace(&mut self.words, Vec::new(alloc));
        let program = match Program::new(words) {
            Ok(program) => program,
            Err(ProgramFault::Bad { index, .. }) => {
                return Err(refused(self.line_of(index, number), DeckWhy::Program));
            }
        };
        self.deck.push_program(PlannedProgram {
            path,
            device,
            program,
        })?;
        self.place = LinePlace::Programs;
        self.lines.clear();
        Ok(())
    }

    fn put_events(&mut self, number: u32, rest: &[u8]) -> Result<(), DeckFault>
        ensures { Takes result self.new (line_put number self.old DeckKeyword.Events (words_of rest.now)) }
    {
        if let Err(why) = no_words(rest) {
            return Err(refused(number, why));
        }
        self.place = LinePlace::Events;
        Ok(())
    }

    fn put_event(&mut self, number: u32, word: EventWord, rest: &[u8]) -> Result<(), DeckFault>
        ensures { Takes result self.new (line_put number self.old (DeckKeyword.Event word) (words_of rest.now)) }
    {
        let line = match event_line(self.deck.devices(), word, rest) {
            Ok(line) => line,
            Err(why) => return Err(refused(number, why)),
        };
        if self.deck.schedule().len() >= MOST_EVENTS {
            return Err(DeckFault::Limit(Which::Events));
        }
        self.deck.push_event(line)?;
        Ok(())
    }

    fn put(
        &mut self,
        alloc: Global,
        number: u32,
        keyword: DeckKeyword,
        rest: &[u8],
    ) -> Result<(), DeckFault>
        ensures { Takes result self.new (line_put number self.old keyword (words_of rest.now)) }
    {
        match keyword {
            DeckKeyword::Deck => self.put_deck(number, rest),
            DeckKeyword::Cache => self.put_cache(number, rest),
            DeckKeyword::Store => self.put_store(number, rest),
            DeckKeyword::Device => self.put_device(number, rest),
            DeckKeyword::Fault => self.put_fault(number, rest),
            DeckKeyword::Program => self.put_program(number, rest),
            DeckKeyword::Ccw => self.put_ccw(alloc, number, rest),
            DeckKeyword::End => self.put_end(alloc, number, rest),
            DeckKeyword::Events => self.put_events(number, rest),
            DeckKeyword::Event(word) => self.put_event(number, word, rest),
        }
    }

    fn put_words(
        &mut self,
        alloc: Global,
        number: u32,
        keyword: Option<DeckKeyword>,
        rest: &[u8],
    ) -> Result<(), DeckFault>
        ensures { Takes result self.new (put_words number self.old keyword (words_of rest.now)) }
    {
        let Some(keyword) = keyword else {
            return Err(refused(number, DeckWhy::Word));
        };
        if !may_stand(keyword, self.place) {
            return Err(refused(number, DeckWhy::Order));
        }
        self.put(alloc, number, keyword, rest)
    }

    /// Takes the line of this number.
    pub fn take_line(&mut self, alloc: Global, number: u32, line: &[u8]) -> Result<(), DeckFault>
        ensures { Takes result self.new (take_line number line.now self.old) }
    {
        if line.is_empty() || is_comment(line) {
            return Ok(());
        }
        let (word, rest) = next_word(line);
        if word.is_empty() {
            return Ok(());
        }
        if has_bad_byte(line) {
            return Err(refused(number, DeckWhy::Byte));
        }
        self.put_words(alloc, number, keyword_of(word), rest)
    }
}

ghost use Rattle.std.specs.Prelude.{◌≡◌};
ghost use Rattle.std.specs.Str.{bytes_eq};
ghost use Rattle.deck_text.specs.Keywords.{head_of, event_word_of, keyword_of, orelse};

/// The first word of an event line.
#[derive(Clone, Copy)]
pub enum EventWord {
    Start,
    Step,
    Run,
    Back,
    Settle,
    Reset,
    Fail,
    Repair,
    Replace,
    Pair,
    Unpair,
    Suspend,
    Resume,
    Power,
}

/// The first word of a line.
#[derive(Clone, Copy)]
pub enum DeckKeyword {
    Deck,
    Cache,
    Store,
    Device,
    Fault,
    Program,
    Ccw,
    End,
    Events,
    Event(EventWord),
}

/// The cache or the store.
#[derive(Clone, Copy)]
pub enum EventPart {
    Cache,
    Store,
}

/// Whether a word is this one, letter by letter: small letters are others.
pub fn is_text(text: &[u8], want: &[u8]) -> bool
    ensures { result ≡ bytes_eq text.now want.now }
{
    text == want
}

#[tactic(auto, unfolding(crate::specs::Keywords::head_of))]
fn head_of(word: &[u8]) -> Option<DeckKeyword>
    ensures { result ≡ head_of word.now }
{
    if is_text(word, b"DECK") {
        Some(DeckKeyword::Deck)
    } else if is_text(word, b"CACHE") {
        Some(DeckKeyword::Cache)
    } else if is_text(word, b"STORE") {
        Some(DeckKeyword::Store)
    } else if is_text(word, b"DEVICE") {
        Some(DeckKeyword::Device)
    } else if is_text(word, b"FAULT") {
        Some(DeckKeyword::Fault)
    } else if is_text(word, b"PROGRAM") {
        Some(DeckKeyword::Program)
    } else if is_text(word, b"CCW") {
        Some(DeckKeyword::Ccw)
    } else if is_text(word, b"END") {
        Some(DeckKeyword::End)
    } else if is_text(word, b"EVENTS") {
        Some(DeckKeyword::Events)
    } else {
        None
    }
}

#[tactic(auto, unfolding(crate::specs::Keywords::event_word_of))]
fn event_word_of(word: &[u8]) -> Option<EventWord>
    ensures { result ≡ event_word_of word.now }
{
    if is_text(word, b"START") {
        Some(EventWord::Start)
    } else if is_text(word, b"STEP") {
        Some(EventWord::Step)
    } else if is_text(word, b"RUN") {
        Some(EventWord::Run)
    } else if is_text(word, b"BACK") {
        Some(EventWord::Back)
    } else if is_text(word, b"SETTLE") {
        Some(EventWord::Settle)
    } else if is_text(word, b"RESET") {
        Some(EventWord::Reset)
    } else if is_text(word, b"FAIL") {
        Some(EventWord::Fail)
    } else if is_text(word, b"REPAIR") {
        Some(EventWord::Repair)
    } else if is_text(word, b"REPLACE") {
        Some(EventWord::Replace)
    } else if is_text(word, b"PAIR") {
        Some(EventWord::Pair)
    } else if is_text(word, b"UNPAIR") {
        Some(EventWord::Unpair)
    } else if is_text(word, b"SUSPEND") {
        Some(EventWord::Suspend)
    } else if is_text(word, b"RESUME") {
        Some(EventWord::Resume)
    } else if is_text(word, b"POWER") {
        Some(EventWord::Power)
    } else {
        None
    }
}

/// The keyword that a word is.
pub fn keyword_of(word: &[u8]) -> Option<DeckKeyword>
    ensures { result ≡ keyword_of word.now }
{
    if let Some(keyword) = head_of(word) {
        return Some(keyword);
    }
    let event = event_word_of(word)?;
    Some(DeckKeyword::Event(event))
}

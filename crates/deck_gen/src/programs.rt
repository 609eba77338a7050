ghost use Rattle.std.specs.Prelude.{◌≡◌, IfOk};
ghost use Rattle.ckd_types.specs.Program.{IsProgram};
ghost use Rattle.deck_gen.specs.Programs.{format_words, update_words, read_words, track_words, program_of};

use crate::choice::{Choice, Kind};
use crate::words::{extent_word, format_word, locate_word, read_word, update_word};
use ckd_ccw::Program;
use ckd_types::{Ccw, NoMemory, Operation, TrackNo};
use std::alloc::Global;

fn format_words(alloc: Global, track: TrackNo, x: u64) -> Result<Vec<Ccw>, NoMemory>
    ensures { IfOk result (λ words. words.items ≡ format_words track x) }
{
    Ok(vec![in alloc;
        extent_word(alloc, 0xc0, 0xc0)?,
        locate_word(alloc, Operation::Format, 4, track, 0)?,
        format_word(alloc, Ccw::CHAIN, track, 1, x)?,
        format_word(alloc, Ccw::CHAIN, track, 2, x)?,
        format_word(alloc, Ccw::CHAIN, track, 3, x)?,
        format_word(alloc, 0, track, 4, x)?,
    ]?)
}

fn update_words(alloc: Global, track: TrackNo, x: u64) -> Result<Vec<Ccw>, NoMemory>
    ensures { IfOk result (λ words. words.items ≡ update_words track x) }
{
    Ok(vec![in alloc;
        extent_word(alloc, 0x80, 0xc0)?,
        locate_word(alloc, Operation::WriteData, 1, track, 1)?,
        update_word(alloc, x)?,
    ]?)
}

fn read_words(alloc: Global, track: TrackNo) -> Result<Vec<Ccw>, NoMemory>
    ensures { IfOk result (λ words. words.items ≡ read_words track) }
{
    Ok(vec![in alloc;
        extent_word(alloc, 0x40, 0xc0)?,
        locate_word(alloc, Operation::ReadData, 2, track, 1)?,
        read_word(0x86, Ccw::CHAIN | Ccw::SUPPRESS_LENGTH, 4096),
        read_word(0x86, Ccw::SUPPRESS_LENGTH, 4096),
    ]?)
}

fn track_words(alloc: Global, track: TrackNo) -> Result<Vec<Ccw>, NoMemory>
    ensures { IfOk result (λ words. words.items ≡ track_words track) }
{
    Ok(vec![in alloc;
        extent_word(alloc, 0x40, 0xcc)?,
        locate_word(alloc, Operation::ReadTracks, 2, track, 0)?,
        read_word(0xde, Ccw::CHAIN | Ccw::SUPPRESS_LENGTH, 65535),
        read_word(0xde, Ccw::SUPPRESS_LENGTH, 65535),
    ]?)
}

fn words_of(alloc: Global, choice: &Choice) -> Result<Vec<Ccw>, NoMemory>
    ensures { IfOk result (λ words. words.items ≡ program_of choice.now.kind choice.now.track choice.now.last) }
{
    match choice.kind {
        Kind::Format => format_words(alloc, choice.track, choice.last),
        Kind::Update => update_words(alloc, choice.track, choice.last),
        Kind::Read => read_words(alloc, choice.track),
        Kind::ReadTracks => track_words(alloc, choice.track),
    }
}

fn as_program(words: Vec<Ccw>) -> Program
    requires { IsProgram words.items }
    ensures { result ≡ words.items }
{
    Program::new(words).unwrap()
}

/// The program of a choice.
pub fn program_of(alloc: Global, choice: &Choice) -> Result<Program, NoMemory>
    ensures { IfOk result (λ program. program ≡ program_of choice.now.kind choice.now.track choice.now.last) }
{
    let words = words_of(alloc, choice)?;
    Ok(as_program(words))
}

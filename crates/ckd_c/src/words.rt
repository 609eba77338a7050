ghost use Rattle.std.specs.Prelude.{◌≡◌, IfErr, IfOk, map};
ghost use Rattle.ckd_c.specs.Calls.{ccw_of};
ghost use Rattle.ckd_c.specs.Codes.{IsRefusal};

use crate::code::{Code, why_number};
use ckd_ccw::{Program, ProgramFault};
use ckd_types::{Bytes, Ccw, NoMemory};
use std::alloc::Global;

/// A channel command word, and where the caller has the bytes that are given to it.
#[repr(C)]
#[derive(Clone, Copy)]
pub struct CkdCcw<'a> {
    pub command: u8,
    pub flags: u8,
    pub count: u16,
    pub given: &'a [u8],
}

/// Which word of a program is bad, from 0 on, and why: a number of `ckd_why`.
#[repr(C)]
#[derive(Clone, Copy)]
pub struct CkdRefusal {
    pub word: u16,
    pub why: u32,
}

/// A word with a copy of its bytes.
fn word_of(alloc: Global, ccw: &CkdCcw<'_>) -> Result<Ccw, Code>
    ensures made { IfOk result (λ made. made ≡ ccw_of ccw.now) }
    ensures early { IfErr result IsRefusal }
{
    match Bytes::from_slice(alloc, ccw.given) {
        Ok(given) => Ok(Ccw {
            command: ccw.command,
            flags: ccw.flags,
            count: ccw.count,
            given,
        }),
        Err(NoMemory) => Err(Code::NoMemory),
    }
}

/// The words, each with a copy of its bytes.
fn words_of(alloc: Global, ccws: &[CkdCcw<'_>]) -> Result<Vec<Ccw>, Code>
    ensures made { IfOk result (λ made. made.items ≡ map ccw_of ccws.now) }
    ensures early { IfErr result IsRefusal }
{
    let mut made = Vec::new(alloc);
    for ccw in ccws {
        made.push(word_of(alloc, ccw)?)?;
    }
    Ok(made)
}

/// The channel program of these words, or which of them is bad.
pub(crate) fn program_of(
    alloc: Global,
    ccws: &[CkdCcw<'_>],
    refusal: &mut CkdRefusal,
) -> Result<Program, Code>
    ensures made { IfOk result (λ program. program ≡ map ccw_of ccws.now) }
    ensures early { IfErr result IsRefusal }
{
    let words = words_of(alloc, ccws)?;
    match Program::new(words) {
        Ok(program) => Ok(program),
        Err(ProgramFault::Bad { index, why }) => {
            refusal.word = index;
            refusal.why = why_number(why);
            Err(Code::BadProgram)
        }
    }
}

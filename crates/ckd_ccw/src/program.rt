ghost use Rattle.std.specs.Prelude.{◌≡◌, ◌<◌, ◌≤◌, false, IfOk, IfErr, IfSome, MatchOption, length};
ghost use Rattle.ckd_types.specs.Ccw.{ccw_at, is_transfer};
ghost use Rattle.ckd_types.specs.Program.{IsProgram, fault_from, fault_of, first_fault};
ghost use Rattle.ckd_ccw.specs.Faults.{reason, index_of};
ghost use Rattle.ckd_ccw.specs.Words.{IsWord};

use crate::checks::fault_of;
use ckd_types::{Ccw, NoMemory, Why};
use std::alloc::Global;
use std::marker::Model;

/// The most channel command words of a program. Own.
const MOST_WORDS: usize = 256;

/// Why a list of channel command words is no program: the index of the first bad word, and the
/// first reason why it is bad. An empty list has index 0, one that is too long index 256.
#[derive(Clone, Copy, Debug, PartialEq, Eq)]
pub enum ProgramFault {
    Bad { index: u16, why: Why },
}

/// A channel program: 1 to 256 channel command words, through which a chain goes from command to
/// command without leaving them.
#[derive(Debug, Drop)]
pub struct Program {
    items: Vec<Ccw>,
}

impl Model for Program {
    ghost use Rattle.std.specs.Prelude.{List};
    ghost use Rattle.ckd_types.specs.declared.channel.Ccw.{Ccw};
    ghost use Rattle.ckd_types.specs.Program.{IsProgram};

    ghost Value = { List Ccw };

    ghost view = { λ p. p.items.items };

    ghost invariant = { λ p. IsProgram p.items.items };
}

/// The first bad word of a list that is short enough.
fn first_bad(ccws: &[Ccw]) -> Option<ProgramFault>
    requires { length ccws.now ≤ 256 }
    ensures fault { MatchOption result (fault_from ccws.now 0 ccws.now ≡ None) (λ fault. fault_from ccws.now 0 ccws.now ≡ Some (reason fault)) }
    ensures word { IfSome result (λ fault. index_of fault < length ccws.now) }
{
    for i in 0..ccws.len() {
        if let Some(why) = fault_of(ccws, i) {
            return Some(ProgramFault::Bad {
                index: i as u16,
                why,
            });
        }
    }
    None
}

fn first_fault(ccws: &[Ccw]) -> Option<ProgramFault>
    ensures fault { MatchOption result (IsProgram ccws.now) (λ fault. first_fault ccws.now ≡ Some (reason fault)) }
    ensures word { IfSome result (λ fault. 0 < length ccws.now → index_of fault < length ccws.now) }
    ensures most { IfSome result (λ fault. index_of fault ≤ 256) }
{
    if ccws.is_empty() {
        return Some(ProgramFault::Bad {
            index: 0,
            why: Why::Empty,
        });
    }
    if MOST_WORDS < ccws.len() {
        return Some(ProgramFault::Bad {
            index: 256,
            why: Why::TooLong,
        });
    }
    first_bad(ccws)
}

impl Program {
    /// A list as a program, which keeps the list. Takes no memory.
    pub fn new(ccws: Vec<Ccw>) -> Result<Program, ProgramFault>
        ensures program { IfOk result (λ program. program ≡ ccws.items) }
        ensures accepted { IfOk result (λ program. IsProgram program) }
        ensures refused { IfErr result (λ fault. first_fault ccws.items ≡ Some (reason fault)) }
        ensures word { IfErr result (λ fault. 0 < length ccws.items → index_of fault < length ccws.items) }
        ensures most { IfErr result (λ fault. index_of fault ≤ 256) }
    {
        match first_fault(&ccws) {
            Some(fault) => Err(fault),
            None => Ok(Program { items: ccws }),
        }
    }

    /// The words, 1 to 256 of them.
    pub fn ccws(&self) -> &[Ccw]
        ensures value { result.now ≡ self.now }
        ensures program { IsProgram self.now }
    {
        &self.items
    }

    /// How many words there are.
    pub fn len(&self) -> usize
        ensures value { result ≡ length self.now }
        ensures least { 1 ≤ result }
        ensures most { result ≤ 256 }
        ensures program { IsProgram self.now }
        ensures first { is_transfer (ccw_at self.now 0) ≡ false }
    {
        self.items.len()
    }

    /// Word `i`.
    #[tactic(auto, using(crate::proofs::Programs::word_at))]
    pub fn at(&self, i: usize) -> &Ccw
        requires { i < length self.now }
        ensures value { result.now ≡ ccw_at self.now i }
        ensures word { IsWord self.now i result.now }
        ensures index { i < 256 }
    {
        &self.items[i]
    }

    /// An equal program.
    pub fn copy(&self, alloc: Global) -> Result<Program, NoMemory>
        ensures { IfOk result (λ program. program ≡ self.now) }
    {
        let mut items = Vec::with_capacity(alloc, self.items.len())?;
        for ccw in &self.items {
            items.push(ccw.copy(alloc)?)?;
        }
        Ok(Program { items })
    }
}

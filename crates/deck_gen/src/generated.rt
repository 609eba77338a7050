ghost use Rattle.std.specs.Prelude.{◌≡◌, ◌≤◌, ◌<◌, ◌+◌, ◌++◌, ◌∷◌, [], IfOk, OnOk, length};
ghost use Rattle.deck_gen.specs.Generated.{device_line, path_of, planned, lines_of, deck_of_seed};

use crate::choice::{Choice, choice_behind};
use crate::programs::program_of;
use ckd_types::{DeviceNo, Geometry, NoMemory, PathNo};
use deck_plan::EventLine;
use deck_text::{Deck, DeviceLine, PlannedProgram};
use std::alloc::Global;

fn device(n: u8) -> DeviceNo
    requires { n < 16 }
    ensures { result ≡ n }
{
    DeviceNo::new(n).unwrap()
}

fn path_of(i: u16) -> PathNo
    requires { 1 ≤ i }
    ensures { result ≡ path_of i }
{
    PathNo::of(1 + ((i - 1) % 4) as u8)
}

fn device_line(n: u8) -> DeviceLine
    requires { n < 16 }
    ensures { result ≡ device_line n }
{
    DeviceLine {
        number: device(n),
        geometry: Geometry::D3390,
        cylinders: 2,
    }
}

/// The deck before its first program, with the events that stand before all others.
fn head(alloc: Global) -> Result<Deck, NoMemory>
    ensures { IfOk result (λ deck. deck ≡ record {
      frames = 64;
      slots = 16;
      devices = device_line 0 ∷ device_line 1 ∷ device_line 2 ∷ [];
      faults = [];
      programs = [];
      events = EventLine.Pair 0 1 ∷ EventLine.Settle 0 ∷ [];
    }) }
{
    let mut deck = Deck::new(alloc)?;
    deck.set_frames(64);
    deck.set_slots(16);
    deck.push_device(device_line(0))?;
    deck.push_device(device_line(1))?;
    deck.push_device(device_line(2))?;
    deck.push_event(EventLine::Pair(device(0), device(1)))?;
    deck.push_event(EventLine::Settle(device(0)))?;
    Ok(deck)
}

fn push_program(alloc: Global, deck: &mut Deck, i: u16, choice: &Choice) -> Result<(), NoMemory>
    requires first { 1 ≤ i }
    requires room { length deck.old.programs < 512 }
    ensures { OnOk result (deck.new ≡ record deck.old { programs = deck.old.programs ++ planned i choice.now ∷ [] }) }
{
    let program = program_of(alloc, choice)?;
    deck.push_program(PlannedProgram {
        path: path_of(i),
        device: choice.device,
        program,
    })
}

fn push_lines(deck: &mut Deck, i: u16, choice: &Choice) -> Result<(), NoMemory>
    requires first { 1 ≤ i }
    requires room { length deck.old.events + 3 ≤ 65536 }
    ensures { OnOk result (deck.new ≡ record deck.old { events = deck.old.events ++ lines_of i choice.now }) }
{
    let device = choice.device;
    deck.push_event(EventLine::Start(path_of(i), device))?;
    deck.push_event(EventLine::Run(device))?;
    if i % 3 == 0 {
        deck.push_event(EventLine::Back(device))?;
    }
    Ok(())
}

/// The deck of a seed and a count of programs: what is done to a pair and a single volume of two
/// cylinders by programs that format, update and read.
pub fn generate(alloc: Global, seed: u64, programs: u16) -> Result<Deck, NoMemory>
    requires { programs ≤ 512 }
    ensures { IfOk result (λ deck. deck ≡ deck_of_seed seed programs) }
{
    let mut deck = head(alloc)?;
    let mut x = seed;
    for n in 0..programs {
        let choice = choice_behind(x);
        push_program(alloc, &mut deck, n + 1, &choice)?;
        push_lines(&mut deck, n + 1, &choice)?;
        x = choice.last;
    }
    deck.push_event(EventLine::Settle(device(0)))?;
    deck.push_event(EventLine::Settle(device(2)))?;
    Ok(deck)
}

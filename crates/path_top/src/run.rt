//! The run of a deck's paths.

ghost use Rattle.std.specs.Prelude.{◌≡◌, All, IfOk, map, true};
ghost use Rattle.deck_run.specs.Opening.{WasRead, numbers_in};
ghost use Rattle.deck_run.specs.Owning.{AreOwn};
ghost use Rattle.deck_run.specs.Standing.{StandsAs};
ghost use Rattle.deck_run.specs.Unused.{AreUnused};
ghost use Rattle.deck_top.specs.Bays.{HandsOut};
ghost use Rattle.device_defs.specs.Pledge.{are_kept};
ghost use Rattle.path_top.specs.Histories.{AreToldOfOn};
ghost use Rattle.path_top.specs.Pairs.{AllFit, paired_on, unused_in};
ghost use Rattle.path_top.specs.Devices.{all_told};
ghost use Rattle.path_top.specs.Told.{DeviceTold};
ghost use Rattle.subsystem_core.specs.Devices.{numbers_of};
ghost use Rattle.subsystem_defs.specs.Decks.{Firsts};

use crate::orders::orders_in;
use crate::pairs::{pair_first, unused_in};
use ckd_types::NoMemory;
use deck_run::{EmptyVolume, open_on};
use deck_text::Deck;
use deck_top::{VolumeBay, hand_out_all};
use device_core::Device;
use device_outside::{Gate, Volume};
use path_threads::run_paths;
use std::alloc::Global;
use std::sync::Wait;
use std::thread::Threads;
use subsystem_core::Subsystem;

/// The devices of a deck over the volumes of a bay, with the pairs that its first PAIR lines make.
fn open_paired<V: Volume, B: VolumeBay<V>>(
    alloc: Global,
    deck: &Deck,
    bay: &mut B,
) -> Result<Subsystem<V>, NoMemory>
    requires { WasRead deck.now }
    ensures stands { (firsts : Firsts) → HandsOut (B.view bay.old) firsts → IfOk result (λ sub. StandsAs sub (paired_on firsts deck.now)) }
    ensures fit { (firsts : Firsts) → HandsOut (B.view bay.old) firsts → IfOk result (λ sub. AllFit firsts deck.now.devices) }
    ensures numbers { IfOk result (λ sub. numbers_of sub.devices.items ≡ numbers_in deck.now.devices) }
    ensures own { IfOk result (λ sub. AreOwn sub.devices.items) }
    ensures unused { IfOk result (λ sub. AreUnused sub.devices.items) }
    ensures firsts { (B.view bay.new).firsts ≡ (B.view bay.old).firsts }
    ensures spoiled { (B.view bay.new).spoiled ≡ (B.view bay.old).spoiled }
    ensures taken { (B.view bay.new).taken ≡ (B.view bay.old).taken }
{
    let volumes = hand_out_all(alloc, deck, bay)?;
    let mut sub = open_on(alloc, deck, volumes)?;
    pair_first(&mut sub, deck.schedule().as_slice())?;
    Ok(sub)
}

/// A deck's devices behind the run of its paths, over the volumes of a bay.
pub(crate) fn run_deck<
    R: Threads + Wait + Sync,
    V: EmptyVolume + Send,
    B: VolumeBay<V>,
    G: Gate + Sync,
>(rt: &R, alloc: Global, deck: &Deck, bay: &mut B, gate: &G) -> Result<Vec<Device<V>>, NoMemory>
    requires { WasRead deck.now }
    ensures told { (firsts : Firsts) → HandsOut (B.view bay.old) firsts
        → IfOk result (λ devices. AreToldOfOn firsts deck.now (all_told devices.items)) }
    ensures numbers { IfOk result (λ devices. map (λ (x : DeviceTold). x.device) (all_told devices.items) ≡ numbers_in deck.now.devices) }
    ensures kept { IfOk result (λ devices. All (λ (x : DeviceTold). are_kept x.journal ≡ true) (all_told devices.items)) }
    ensures firsts { (B.view bay.new).firsts ≡ (B.view bay.old).firsts }
    ensures spoiled { (B.view bay.new).spoiled ≡ (B.view bay.old).spoiled }
    ensures taken { (B.view bay.new).taken ≡ (B.view bay.old).taken }
{
    let sub = open_paired(alloc, deck, bay)?;
    let orders = orders_in(alloc, &sub, deck.schedule().as_slice())?;
    let (pool, devices) = sub.into_parts();
    let ran = run_paths(rt, alloc, devices, pool, orders, gate)?;
    Ok(ran.devices)
}

/// How many of a deck's event lines are unused.
pub(crate) fn unused_of(deck: &Deck) -> u32
    requires { WasRead deck.now }
    ensures { result ≡ unused_in deck.now.events }
{
    let unused = unused_in(deck.schedule().as_slice());
    unused as u32
}

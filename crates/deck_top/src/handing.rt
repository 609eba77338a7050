//! The volumes that the devices of a deck begin on.

ghost use Rattle.std.specs.Prelude.{◌≡◌, ◌+◌, IfOk, OnOk, length, map, true};
ghost use Rattle.deck_run.specs.Opening.{AllHold, HasTracks, HaveTracks, HoldsFirst, are_open, is_open_device};
ghost use Rattle.subsystem_defs.specs.Decks.{Firsts};
ghost use Rattle.deck_top.specs.Bays.{HandsOut};

use crate::bay::VolumeBay;
use ckd_types::NoMemory;
use deck_run::failing_of;
use deck_text::{Deck, DeviceLine};
use device_outside::Volume;
use std::alloc::Global;

/// The volume of a DEVICE line, with the failing calls of its FAULT lines.
fn hand_out_one<V: Volume, B: VolumeBay<V>>(
    alloc: Global,
    deck: &Deck,
    line: DeviceLine,
    bay: &mut B,
) -> Result<V, NoMemory>
    requires { is_open_device line ≡ true }
    ensures tracks { IfOk result (λ v. HasTracks line (V.view v)) }
    ensures holds { (firsts : Firsts) → HandsOut (B.view bay.old) firsts → IfOk result (λ v. HoldsFirst firsts deck.now line (V.view v)) }
    ensures made { OnOk result ((B.view bay.new).made ≡ (B.view bay.old).made + 1) }
    ensures firsts { (B.view bay.new).firsts ≡ (B.view bay.old).firsts }
    ensures spoiled { (B.view bay.new).spoiled ≡ (B.view bay.old).spoiled }
    ensures taken { (B.view bay.new).taken ≡ (B.view bay.old).taken }
{
    let reads = failing_of(alloc, deck, false, line.number)?;
    let writes = failing_of(alloc, deck, true, line.number)?;
    let volume = bay.hand_out(alloc, line, &reads, &writes)?;
    Ok(volume)
}

/// A volume for each device of a deck, in its order. Where memory is lacking the bay may have handed out some of them.
pub fn hand_out_all<V: Volume, B: VolumeBay<V>>(
    alloc: Global,
    deck: &Deck,
    bay: &mut B,
) -> Result<Vec<V>, NoMemory>
    requires { are_open deck.now.devices ≡ true }
    ensures tracks { IfOk result (λ volumes. HaveTracks deck.now.devices (map V.view volumes.items)) }
    ensures holds { (firsts : Firsts) → HandsOut (B.view bay.old) firsts
        → IfOk result (λ volumes. AllHold firsts deck.now deck.now.devices (map V.view volumes.items)) }
    ensures made { OnOk result ((B.view bay.new).made ≡ (B.view bay.old).made + length deck.now.devices) }
    ensures firsts { (B.view bay.new).firsts ≡ (B.view bay.old).firsts }
    ensures spoiled { (B.view bay.new).spoiled ≡ (B.view bay.old).spoiled }
    ensures taken { (B.view bay.new).taken ≡ (B.view bay.old).taken }
{
    let mut volumes = Vec::new(alloc);
    for i in 0..deck.device_count() {
        volumes.push(hand_out_one(alloc, deck, deck.device_at(i), bay)?)?;
    }
    Ok(volumes)
}

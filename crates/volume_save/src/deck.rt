ghost use Rattle.std.specs.Prelude.{◌≡◌, IfErr, IfOk, true};
ghost use Rattle.device_outside.specs.Lists.{is_in};
ghost use Rattle.subsystem_defs.specs.Decks.{run_of};
ghost use Rattle.deck_run.specs.Opening.{WasRead, numbers_in};
ghost use Rattle.volume_save.specs.Saving.{saving_of, Gives, HasReason, IsSaved};

use crate::{Unsaved, saved};
use ckd_types::DeviceNo;
use deck_run::run_deck;
use deck_text::Deck;
use device_outside::MemBay;
use std::alloc::Global;
use volume_file::FileVolume;

/// The plain volume of a device of a deck after its run, over volumes of which no track is spoiled, or the first reason for which
/// there is none.
pub fn saved_behind(alloc: Global, deck: &Deck, d: DeviceNo) -> Result<FileVolume, Unsaved>
    requires read { WasRead deck.now }
    requires here { is_in d (numbers_in deck.now.devices) ≡ true }
    ensures found { Gives result (saving_of deck.now d) }
    ensures plain { IfOk result (IsSaved deck.now d) }
    ensures reason { IfErr result (HasReason (run_of deck.now).behind d) }
{
    let mut bay = MemBay::new(alloc);
    let ran = run_deck(alloc, deck, &mut bay)?;
    let mut sub = ran.sub;
    match saved(alloc, &mut sub, d) {
        Ok(volume) => Ok(FileVolume::of_device(volume)),
        Err(why) => Err(why),
    }
}

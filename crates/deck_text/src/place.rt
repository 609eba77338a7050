ghost use Rattle.std.specs.Prelude.{◌≡◌};
ghost use Rattle.deck_text.specs.Reading.{may_stand};

use crate::keyword::DeckKeyword;
use ckd_types::{DeviceNo, PathNo};

/// Which line may come: DECK, CACHE, STORE, the first DEVICE; a line of a part of the deck, or one of
/// a later part; a CCW of a program, or its END.
#[derive(Clone, Copy)]
pub enum LinePlace {
    Front,
    Sizes,
    Slots,
    FirstDevice,
    Devices,
    Faults,
    Programs,
    Inside(PathNo, DeviceNo),
    Events,
}

/// Whether a line may stand at a place.
pub fn may_stand(keyword: DeckKeyword, place: LinePlace) -> bool
    ensures { result ≡ may_stand keyword place }
{
    match keyword {
        DeckKeyword::Deck => matches!(place, LinePlace::Front),
        DeckKeyword::Cache => matches!(place, LinePlace::Sizes),
        DeckKeyword::Store => matches!(place, LinePlace::Slots),
        DeckKeyword::Device => matches!(place, LinePlace::FirstDevice | LinePlace::Devices),
        DeckKeyword::Fault => matches!(place, LinePlace::Devices | LinePlace::Faults),
        DeckKeyword::Program | DeckKeyword::Events => {
            matches!(
                place,
                LinePlace::Devices | LinePlace::Faults | LinePlace::Programs
            )
        }
        DeckKeyword::Ccw | DeckKeyword::End => matches!(place, LinePlace::Inside(_, _)),
        DeckKeyword::Event(_) => matches!(place, LinePlace::Events),
    }
}

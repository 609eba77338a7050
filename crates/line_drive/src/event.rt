ghost use Rattle.std.specs.Prelude.{◌≡◌, IfOk, OnOk, true};
ghost use Rattle.device_outside.specs.Hears.{HeardAll};
ghost use Rattle.device_outside.specs.Keeper.{Heard};
ghost use Rattle.subsystem_core.specs.Comes.{CameKept};
ghost use Rattle.subsystem_core.specs.Devices.{numbers_of};
ghost use Rattle.subsystem_core.specs.Ends.{answer_of};
ghost use Rattle.subsystem_core.specs.Keepers.{TakesAll};
ghost use Rattle.subsystem_core.specs.Places.{may_come};
ghost use Rattle.subsystem_core.specs.Frames.{HasSameDevices};
ghost use Rattle.subsystem_defs.specs.Happening.{happens};
ghost use Rattle.subsystem_defs.specs.Lines.{is_settled};
ghost use Rattle.subsystem_defs.specs.Subsystem as runs;
ghost use Rattle.keeper_laws.specs.Messages.{event_messages};
ghost use Rattle.deck_run.specs.Owning.{AreOwn};
ghost use Rattle.deck_run.specs.Seen.{settles};
ghost use Rattle.deck_run.specs.Standing.{StandsAs};
ghost use Rattle.line_drive.specs.Ending.{EndsAs};
ghost use Rattle.line_drive.specs.Recalling.{IsPathIn};

use ckd_types::NoMemory;
use deck_run::chains_stand;
use device_outside::{Keep, Volume};
use subsystem_core::{EventEnd, Subsystem};
use subsystem_defs::Event;
use track_image::TrackImage;

/// The path of a start is one.
fn path_stands(e: &Event)
    ensures { IsPathIn e.now }
{
    match e {
        Event::Start(path, _) => {
            let _n = path.get();
        }
        _ => (),
    }
}

/// One event, of whichever devices, with a keeper. Where all volumes of the devices are accounted for it is what happens in the
/// defined run, and the keeper hears what is told in that, one message after another. Of that nothing is said where memory is
/// lacking.
pub fn do_event_with<V: Volume, K: Keep<TrackImage>>(
    sub: &mut Subsystem<V>,
    e: Event,
    keep: &mut K,
) -> Result<EventEnd, NoMemory>
    requires may { may_come (numbers_of sub.old.devices.items) e ≡ true }
    requires takes { TakesAll K.takes keep.old sub.old.devices.items }
    ensures numbers { HasSameDevices sub.old sub.new }
    ensures takes { TakesAll K.takes keep.new sub.new.devices.items }
    ensures came { CameKept (Heard K.hears K.takes) e sub.old keep.old (answer_of result) sub.new keep.new }
    ensures own { AreOwn sub.old.devices.items → OnOk result (AreOwn sub.new.devices.items) }
    ensures happened { (run : runs.Subsystem) → StandsAs sub.old run → AreOwn sub.old.devices.items
        → IfOk result (λ end. EndsAs e sub.new end (happens run e).end × StandsAs sub.new (happens run e).behind) }
    ensures settled { (run : runs.Subsystem) → StandsAs sub.old run → AreOwn sub.old.devices.items
        → IfOk result (λ end. settles end ≡ is_settled (happens run e).end) }
    ensures heard { (run : runs.Subsystem) → StandsAs sub.old run → AreOwn sub.old.devices.items
        → OnOk result (HeardAll (Heard K.hears K.takes) keep.old (event_messages run e) keep.new) }
{
    path_stands(&e);
    chains_stand(sub.devices());
    sub.event_with(e, keep)
}

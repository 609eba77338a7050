ghost use Rattle.std.specs.Prelude.{◌≡◌, ◌<◌, ◌^◌};
ghost use Rattle.ckd_rules.specs.Acts.{sense_id_bytes, is_given, answered, taken};

use crate::control::control;
use crate::ending::end;
use crate::{Ending, LocalAct, Stance};
use ckd_types::{Bytes, Ccw, Geometry, UnitStatus};

/// What sense ID answers: a 3990 and a device behind it. The two model bytes are our own choice.
pub fn sense_id_bytes(geometry: Geometry) -> [u8; 7]
    ensures { result ≡ sense_id_bytes geometry }
{
    match geometry {
        Geometry::D3390 => [0xff, 0x39, 0x90, 0x03, 0x33, 0x90, 0x02],
        Geometry::D3380 => [0xff, 0x39, 0x90, 0x03, 0x33, 0x80, 0x02],
    }
}

/// The act gives bytes to the device; every other act answers some.
pub fn is_given(act: LocalAct) -> bool
    ensures { result ≡ is_given act }
{
    matches!(act, LocalAct::SetGroup { .. })
}

/// The end of a command that sends what the device answered. Of these bytes it sends as many as its
/// count says, and none with the flag skip. Takes no memory.
pub fn answer(stance: &mut Stance, ccw: &Ccw, bytes: Bytes) -> Ending
    requires commands { stance.old.commands < 4096 }
    requires moved { stance.old.moved < 2 ^ 21 }
    ensures stance { stance.new ≡ (answered stance.old ccw.now bytes).stance }
    ensures ending { result ≡ (answered stance.old ccw.now bytes).ending }
{
    let area = bytes.len();
    let sent = if ccw.skips() {
        Bytes::new()
    } else {
        bytes.cut_to(usize::from(ccw.count))
    };
    control(stance);
    end(stance, ccw, area, UnitStatus::normal(), sent)
}

/// The end of a set path group ID, which the device took: a function byte and an ID of eleven bytes (IBM).
pub fn take(stance: &mut Stance, ccw: &Ccw) -> Ending
    requires commands { stance.old.commands < 4096 }
    requires moved { stance.old.moved < 2 ^ 21 }
    ensures stance { stance.new ≡ (taken stance.old ccw.now).stance }
    ensures ending { result ≡ (taken stance.old ccw.now).ending }
{
    control(stance);
    end(stance, ccw, 12, UnitStatus::normal(), Bytes::new())
}

ghost use Rattle.std.specs.Prelude.{◌≡◌, IfOk, OnErr, OnOk};
ghost use Rattle.ckd_rules.specs.Facts.{HasRoom, Stands, Turns};
ghost use Rattle.ckd_rules.specs.Writes.{write_on};

use crate::format::{format_behind, format_on, zero_on};
use crate::update::update_on;
use ckd_rules::{After, Stance, Turned};
use ckd_types::{Ccw, NoMemory, Write};
use std::alloc::Global;
use track_image::TrackImage;

/// What a write does to the track that the chain is on (IBM, GA32-0099): it ends there, with an edit
/// of that track where it writes, or goes on to the next track. The edit isn't made here. A format on
/// the next track is not moved to it: the stance is there already. No check of its word and its stance
/// refuses the command. The stance is changed in place: behind the command, or on the next track before
/// its index. After want of memory it is as it was.
///
/// Own: bytes that are not given are zeros, and in a domain every update is an update write.
pub fn write(
    alloc: Global,
    image: &TrackImage,
    stance: &mut Stance,
    ccw: &Ccw,
    write: Write,
) -> Result<Turned, NoMemory>
    requires room { HasRoom stance.old }
    requires stands { Stands 65535 stance.old }
    ensures turned { IfOk result (λ turned. turned ≡ (write_on image.now.geometry image.now.track stance.old ccw.now write).turned) }
    ensures stance { OnOk result (stance.new ≡ (write_on image.now.geometry image.now.track stance.old ccw.now write).stance) }
    ensures turns { IfOk result (Turns image.now.geometry image.now.track.records stance.old stance.new) }
    ensures same { OnErr result (stance.new ≡ stance.old) }
{
    let _ = image.len();
    let in_domain = stance.domain.is_some();
    match write {
        Write::Data => update_on(alloc, image, false, in_domain, stance, ccw),
        Write::UpdateData => update_on(alloc, image, false, true, stance, ccw),
        Write::KeyData => update_on(alloc, image, true, in_domain, stance, ccw),
        Write::UpdateKeyData => update_on(alloc, image, true, true, stance, ccw),
        Write::CountKeyData => format_on(alloc, image, stance, ccw),
        Write::NextTrack => format_behind(alloc, image, After::Other, stance, ccw, 0),
        Write::Zero => zero_on(alloc, image, stance, ccw),
    }
}

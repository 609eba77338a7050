ghost use Rattle.std.specs.Prelude.{◌≡◌, ◌≤◌, ◌*◌, IfOk, OnErr, OnOk};
ghost use Rattle.ckd_rules.specs.Facts.{HasRoom, Stands, IsLook, TurnsOn};
ghost use Rattle.ckd_rules.specs.Look.{look_on};

use ckd_read::read;
use ckd_rules::{Look, Stance, Turned, locate};
use ckd_search::search;
use ckd_types::{Ccw, FixedData, NoMemory};
use ckd_write::write;
use std::alloc::Global;
use track_image::TrackImage;

/// What a command does on the track that it looks at. The stance is changed in place: behind the
/// command, or on the next track before its index. After want of memory it is as it was.
#[inline(always)]
#[tactic(auto, using(ckd_rules::proofs::NextTrack::turns_on, ckd_rules::proofs::NextTrack::looks_on, ckd_rules::proofs::Openings::located_on))]
pub fn look_on(
    alloc: Global,
    fixed: &FixedData,
    image: &TrackImage,
    stance: &mut Stance,
    ccw: &Ccw,
    look: &Look,
) -> Result<Turned, NoMemory>
    requires room { HasRoom stance.old }
    requires stands { Stands (fixed.now.cylinders * 15) stance.old }
    requires look { IsLook (fixed.now.cylinders * 15) look.now }
    ensures turned { IfOk result (λ turned. turned ≡ (look_on image.now.geometry image.now.track stance.old ccw.now look.now).turned) }
    ensures stance { OnOk result (stance.new ≡ (look_on image.now.geometry image.now.track stance.old ccw.now look.now).stance) }
    ensures turns { IfOk result (TurnsOn image.now.geometry (fixed.now.cylinders * 15) image.now.track.records stance.old stance.new) }
    ensures same { OnErr result (stance.new ≡ stance.old) }
{
    let _ = fixed.cylinders();
    match look {
        Look::Finds(domain) => {
            let found = image.find(domain.search);
            Ok(Turned::Ended(locate(stance, ccw, domain, found)))
        }
        Look::Searches(sought) => Ok(search(image, stance, ccw, *sought)),
        Look::Reads(area) => read(alloc, image, stance, ccw, *area),
        Look::Writes(form) => write(alloc, image, stance, ccw, *form),
    }
}

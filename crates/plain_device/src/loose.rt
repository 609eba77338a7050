ghost use Rattle.std.specs.Prelude.{◌≡◌, ◌==◌, ◌<◌, not, All, IfOk, length};
ghost use Rattle.std.specs.List.{filter};
ghost use Rattle.plain_defs.specs.Loose.{is_loose_in, without, restored};
ghost use Rattle.plain_device.specs.Volume.{loose_of};

use crate::volume::Images;
use ckd_types::{NoMemory, TrackNo};
use std::alloc::Global;
use track_image::TrackImage;

/// A track with data of cache fast write, and the image that it goes back to when these are lost.
#[derive(Debug, Drop)]
pub struct LooseImage {
    pub track: TrackNo,
    pub image: TrackImage,
}

fn is_other(l: &LooseImage, t: u16) -> bool
    ensures { result ≡ not (l.now.track == t) }
{
    l.track.get() != t
}

/// Those of other tracks.
fn keep_others(loose: &mut Vec<LooseImage>, t: u16)
    ensures { loose.new.items ≡ filter (λ l. not (l.track == t)) loose.old.items }
{
    loose.retain(|l| is_other(l, t));
}

/// Whether a track is one of them.
pub fn is_among(loose: &[LooseImage], t: TrackNo) -> bool
    ensures { result ≡ is_loose_in (loose_of loose.now) t }
{
    for l in loose {
        if l.track.get() == t.get() {
            return true;
        }
    }
    false
}

/// A track isn't loose any more.
pub fn take_out(loose: &mut Vec<LooseImage>, t: TrackNo)
    ensures others { loose.new.items ≡ filter (λ l. not (l.track == t)) loose.old.items }
    ensures list { loose_of loose.new.items ≡ without t (loose_of loose.old.items) }
{
    keep_others(loose, t.get());
}

/// Each track is again what it was.
pub fn put_back(volume: &mut Images, mut loose: Vec<LooseImage>)
    requires fits { All (λ l. (l.image.geometry ≡ volume.old.geometry) × (l.track < length volume.old.tracks)) loose.items }
    ensures { volume.new ≡ record volume.old { tracks = restored (loose_of loose.items) volume.old.tracks } }
{
    while let Some(l) = loose.pop() {
        volume.set(l.track, l.image);
    }
}

/// Copies each of them.
pub fn copies(alloc: Global, loose: &[LooseImage]) -> Result<Vec<LooseImage>, NoMemory>
    ensures { IfOk result (λ made. made.items ≡ loose.now) }
{
    let mut made = Vec::with_capacity(alloc, loose.len())?;
    for l in loose {
        made.push(LooseImage {
            track: l.track,
            image: l.image.copy(alloc)?,
        })?;
    }
    Ok(made)
}

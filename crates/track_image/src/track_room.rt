ghost use Rattle.std.specs.Prelude.{◌≡◌, ◌≤◌, IfOk, length};
ghost use Rattle.ckd_types.specs.Geometry.{cchh_of};
ghost use Rattle.ckd_types.specs.Track.{empty_track, track_bytes};
ghost use Rattle.track_image.specs.Packed.{most_bytes};

use crate::tape::{MOST, append};
use crate::{BytesFault, TrackImage};
use ckd_types::{Geometry, NoMemory, TrackNo};
use std::alloc::Global;
use std::marker::Model;

/// A track's bytes in room that was made for any track, so that an image is taken over without memory.
#[derive(Debug, Drop)]
pub struct TrackRoom {
    geometry: Geometry,
    track: TrackNo,
    bytes: Vec<u8>,
}

impl Model for TrackRoom {
    ghost use Rattle.std.specs.Prelude.{vec_capacity};
    ghost use Rattle.track_image.specs.Image.{Image};
    ghost use Rattle.track_image.specs.TrackRoom.{IsHeld, track_read};

    ghost Value = { Image };

    ghost view = { λ r. record { geometry = r.geometry; track = track_read r.geometry r.track r.bytes.items } };

    ghost invariant = { λ r. IsHeld r.geometry r.track r.bytes.items (vec_capacity r.bytes) };
}

impl TrackRoom {
    /// An empty track, in room for any track.
    pub fn with_room(
        alloc: Global,
        geometry: Geometry,
        track: TrackNo,
    ) -> Result<TrackRoom, NoMemory>
        ensures { IfOk result (λ made. made ≡ record { geometry = geometry; track = empty_track track }) }
    {
        let image = TrackImage::empty(alloc, geometry, track)?;
        let mut bytes = Vec::with_capacity(alloc, MOST)?;
        append(&mut bytes, image.bytes());
        image.fits();
        Ok(TrackRoom {
            geometry,
            track,
            bytes,
        })
    }

    /// Takes over the image of the same track. Takes no memory.
    pub fn assign(&mut self, from: &TrackImage)
        requires geometry { from.now.geometry ≡ self.old.geometry }
        requires home { from.now.track.home ≡ self.old.track.home }
        ensures { self.new ≡ from.now }
    {
        from.fits();
        self.bytes.truncate(0);
        append(&mut self.bytes, from.bytes());
    }

    /// The bytes of the track, as a volume holds them. Takes no memory.
    pub fn bytes(&self) -> &[u8]
        ensures value { result.now ≡ track_bytes self.now.track }
        ensures most { length result.now ≤ most_bytes }
    {
        &self.bytes
    }

    /// The track's image in memory of its own.
    pub fn to_image(&self, alloc: Global) -> Result<TrackImage, NoMemory>
        ensures { IfOk result (λ made. made ≡ self.now) }
    {
        match TrackImage::from_bytes(alloc, self.geometry, self.track, &self.bytes) {
            Ok(image) => Ok(image),
            Err(BytesFault::BadTrack { .. }) => unreachable!(),
            Err(BytesFault::NoMemory) => Err(NoMemory),
        }
    }
}

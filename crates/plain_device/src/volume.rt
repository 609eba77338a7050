ghost use Rattle.std.specs.Prelude.{◌≡◌, ◌<◌, ◌≤◌, ◌*◌, IfOk, OnOk, OnErr, length, slice_set};
ghost use Rattle.ckd_types.specs.Edit.{apply_edit};
ghost use Rattle.ckd_types.specs.Volume.{empty_volume, track_in};
ghost use Rattle.ckd_rules.specs.Facts.{Suits};

use ckd_types::{Edit, Geometry, HEADS, NoMemory, TrackNo};
use ckd_write::edit_image;
use std::alloc::Global;
use std::marker::Model;
use track_image::TrackImage;

/// The tracks of a volume, in memory.
#[derive(Debug, Drop)]
pub struct Images {
    geometry: Geometry,
    images: Vec<TrackImage>,
}

impl Model for Images {
    ghost use Rattle.std.specs.Prelude.{◌≡◌, All};
    ghost use Rattle.track_image.specs.Image.{Image};
    ghost use Rattle.plain_device.specs.Volume.{ImageVolume, tracks_of};

    ghost Value = { ImageVolume };

    ghost view = { λ v. record { geometry = v.geometry; tracks = tracks_of v.images.items } };

    ghost invariant = { λ v. All (λ (i : Image). i.geometry ≡ v.geometry) v.images.items };
}

impl Images {
    /// The empty tracks of this many cylinders.
    pub fn empty(alloc: Global, geometry: Geometry, cylinders: u16) -> Result<Images, NoMemory>
        requires { cylinders ≤ 4369 }
        ensures volume { IfOk result (λ v. v ≡ record { geometry = geometry; tracks = empty_volume cylinders }) }
        ensures len { IfOk result (λ v. length v.tracks ≡ cylinders * 15) }
    {
        let count = cylinders * HEADS;
        let mut images = Vec::with_capacity(alloc, usize::from(count))?;
        for n in 0..count {
            let image = TrackImage::empty(alloc, geometry, TrackNo::new(n).unwrap())?;
            images.push(image)?;
        }
        Ok(Images { geometry, images })
    }

    /// The model that all of its tracks are of.
    pub fn geometry(&self) -> Geometry
        ensures { result ≡ self.now.geometry }
    {
        self.geometry
    }

    /// How many tracks there are.
    pub fn len(&self) -> usize
        ensures { result ≡ length self.now.tracks }
    {
        self.images.len()
    }

    /// The image of a track.
    pub fn image(&self, t: TrackNo) -> &TrackImage
        requires { t < length self.now.tracks }
        ensures { result.now ≡ record { geometry = self.now.geometry; track = track_in self.now.tracks t } }
    {
        &self.images[usize::from(t.get())]
    }

    /// Edits a track. Takes memory only for a record behind its last one.
    pub fn edit(&mut self, t: TrackNo, edit: Edit) -> Result<(), NoMemory>
        requires track { t < length self.old.tracks }
        requires suits { Suits self.old.geometry (track_in self.old.tracks t).records edit }
        ensures done { OnOk result (self.new ≡ record self.old { tracks = slice_set self.old.tracks t (apply_edit edit (track_in self.old.tracks t)) }) }
        ensures same { OnErr result (self.new ≡ self.old) }
    {
        edit_image(&mut self.images[usize::from(t.get())], &edit)?;
        Ok(())
    }

    /// Puts another image in place of a track's.
    pub fn set(&mut self, t: TrackNo, image: TrackImage)
        requires track { t < length self.old.tracks }
        requires model { image.geometry ≡ self.old.geometry }
        ensures { self.new ≡ record self.old { tracks = slice_set self.old.tracks t image.track } }
    {
        self.images[usize::from(t.get())] = image;
    }

    /// Copies every track.
    pub fn copy(&self, alloc: Global) -> Result<Images, NoMemory>
        ensures { IfOk result (λ made. made ≡ self.now) }
    {
        let mut images = Vec::with_capacity(alloc, self.images.len())?;
        for image in &self.images {
            images.push(image.copy(alloc)?)?;
        }
        Ok(Images {
            geometry: self.geometry,
            images,
        })
    }
}

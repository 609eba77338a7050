ghost use Rattle.std.specs.Prelude.{◌≡◌, ◌≤◌, ◌<◌, IfOk, length, slice_set};
ghost use Rattle.ckd_types.specs.Geometry.{cchh_of};
ghost use Rattle.volume_file.specs.File.{IsWhole, empty_images, image_in};

use crate::DeviceVolume;
use ckd_types::{Geometry, NoMemory, TrackNo};
use std::alloc::Global;
use std::marker::Model;
use track_image::TrackImage;

/// A volume of at most 64 cylinders, with the images of all its tracks: what a file holds.
#[derive(Debug, Drop)]
pub struct FileVolume {
    volume: DeviceVolume,
}

impl Model for FileVolume {
    ghost use Rattle.std.specs.Prelude.{◌≤◌};
    ghost use Rattle.volume_file.specs.File.{ImageVolume};

    ghost Value = { ImageVolume };

    ghost view = { λ v. v.volume };

    ghost invariant = { λ v. v.volume.cylinders ≤ 64 };
}

impl FileVolume {
    /// A volume whose tracks are empty.
    pub fn new(alloc: Global, geometry: Geometry, cylinders: u8) -> Result<FileVolume, NoMemory>
        requires least { 1 ≤ cylinders }
        requires most { cylinders ≤ 64 }
        ensures { IfOk result (λ v. v ≡ record { geometry = geometry; cylinders = cylinders; images = empty_images geometry cylinders }) }
    {
        let volume = DeviceVolume::new(alloc, geometry, u16::from(cylinders))?;
        Ok(FileVolume { volume })
    }

    /// The volume of the images of all its tracks.
    #[tactic(auto, using(crate::proofs::EmptyImages::whole_has_all))]
    pub fn of(geometry: Geometry, cylinders: u8, images: Vec<TrackImage>) -> FileVolume
        requires { IsWhole (record { geometry = geometry; cylinders = cylinders; images = images.items }) }
        ensures { result ≡ record { geometry = geometry; cylinders = cylinders; images = images.items } }
    {
        FileVolume {
            volume: DeviceVolume::of(geometry, u16::from(cylinders), images),
        }
    }

    /// That of a device, which has at most 64 cylinders.
    pub fn of_device(volume: DeviceVolume) -> FileVolume
        requires { volume.cylinders ≤ 64 }
        ensures { result ≡ volume }
    {
        FileVolume { volume }
    }

    /// Each track fits and is where it says.
    #[tactic(auto, using(crate::proofs::EmptyImages::small_is_whole))]
    pub fn is_whole(&self)
        ensures { IsWhole self.now }
    {
        self.volume.has_all_tracks();
    }

    /// Which device type its tracks are laid out for.
    pub fn geometry(&self) -> Geometry
        ensures { result ≡ self.now.geometry }
    {
        self.volume.geometry()
    }

    /// How many cylinders it has: 1 to 64, of 15 tracks each.
    pub fn cylinders(&self) -> u8
        ensures { result ≡ self.now.cylinders }
    {
        self.volume.cylinders() as u8
    }

    /// The images of all tracks, in rising order.
    pub fn images(&self) -> &[TrackImage]
        ensures { result.now ≡ self.now.images }
    {
        self.volume.images()
    }

    /// The image of a track of the volume.
    pub fn image(&self, t: TrackNo) -> &TrackImage
        requires { t < length self.now.images }
        ensures { result.now ≡ image_in self.now t }
    {
        self.volume.image(t)
    }

    /// Puts another image in place of a track's.
    pub fn set(&mut self, t: TrackNo, image: TrackImage)
        requires track { t < length self.old.images }
        requires model { image.geometry ≡ self.old.geometry }
        requires home { image.track.home ≡ cchh_of t }
        ensures { self.new ≡ record self.old { images = slice_set self.old.images t image } }
    {
        self.volume.set(t, image);
    }
}

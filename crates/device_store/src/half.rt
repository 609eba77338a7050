use ckd_types::{Edit, TrackNo};
use track_image::TrackImage;

/// Whose write in two parts it is: of a command, whose edit it is; of a command that was cut since; or of the background. With
/// the first two, whether the command's mode was bypass.
#[derive(Debug, Drop)]
pub enum Origin {
    OfCommand(bool, Edit),
    OfCut(bool),
    OfBackground,
}

/// Side A took the new track, and side B is still to be tried. The image is the new one.
#[derive(Debug, Drop)]
pub struct HalfWrite {
    pub track: TrackNo,
    pub origin: Origin,
    pub image: TrackImage,
}

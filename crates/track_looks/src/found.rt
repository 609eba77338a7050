use ckd_types::Side;
use track_image::TrackImage;

/// What a look at a track found: the track; or it is lost; or this side failed, the first one, and none gave bytes; or the bytes
/// of this side are no track.
#[derive(Debug, Drop)]
pub enum Look {
    Track(TrackImage),
    Lost,
    Fault(Side),
    BadBytes(Side),
}

use ckd_types::{DeviceNo, Side, TrackNo};
use track_image::TrackImage;

/// Why a session isn't begun: the first of these that is so.
#[derive(Clone, Copy, Debug, PartialEq, Eq)]
pub enum BeginFault {
    /// The device is lent.
    Lent { of: DeviceNo },
    /// A half write is open, one of the background too.
    Half,
    /// The least track that holds data of cache fast write which aren't firm.
    Loose { track: TrackNo },
    NoMemory,
}

/// What a session gives. The images are those of the beginning.
#[derive(Debug, Drop)]
pub enum Given {
    Track(TrackNo, TrackImage),
    /// The track is lost, and counts as given.
    Lost(TrackNo),
    /// The look at the next track failed, as a look does. It is still to be given.
    Fault(Side),
    BadBytes(Side),
    /// The device was lent since, first to this one. Nothing more is given.
    Gone { of: DeviceNo },
    /// All tracks were given.
    Finished,
}

/// Why a copy ends before all tracks were given.
#[derive(Clone, Copy, Debug, PartialEq, Eq)]
pub enum Early {
    Gone,
    Lost(TrackNo),
    Fault(Side),
}

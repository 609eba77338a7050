use ckd_types::{Side, TrackNo};

/// What a call that copies a track came to.
#[derive(Clone, Copy, Debug, PartialEq, Eq)]
pub enum Remote {
    Copied(TrackNo),
    /// The far volume is level.
    Idle,
    /// The next track is lost; or its look failed, as a look does. It is still to be copied.
    Lost(TrackNo),
    Fault(Side),
    BadBytes(Side),
    /// A put failed: of the track, or of one that its look made firm. No track counts as copied any more.
    LinkFault,
    /// The next track waits for a write of two parts, or is loose.
    Waits,
}

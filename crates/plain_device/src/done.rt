use crate::Paths;
use ckd_types::{CommandEnd, Edit, TrackNo};

/// The edit of a track.
#[derive(Debug, Drop)]
pub struct Written {
    pub track: TrackNo,
    pub edit: Edit,
}

/// What a command came to, of which the device has nothing yet: how it ended, its edit, and what is kept of the paths
/// behind it.
#[derive(Debug, Drop)]
pub struct Done {
    pub end: CommandEnd,
    pub edit: Option<Written>,
    pub paths: Paths,
}

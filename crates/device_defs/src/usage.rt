use ckd_types::{Mode, TrackNo};

/// How a command asks for cache and store to be used, by its extent: the mode, whether fast writes are
/// inhibited, the extent's last track, and whether its writes may live in the cache alone.
#[derive(Clone, Copy, Debug)]
pub struct Usage {
    pub mode: Mode,
    pub inhibit: bool,
    pub last: Option<TrackNo>,
    pub provisional: bool,
}

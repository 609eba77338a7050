/// How often each kind of loss came to a device.
#[derive(Clone, Copy, Debug, PartialEq, Eq)]
pub struct Losses {
    pub cache: u64,
    pub store: u64,
    pub sides: u64,
}

/// What a device counts: its calls of volumes, whatever volumes it had, those of them that failed, and its
/// losses. Each count stops at the greatest of 64 bits. A power loss counts as one of the cache.
#[derive(Clone, Copy, Debug, PartialEq, Eq)]
pub struct Counts {
    pub reads: u64,
    pub writes: u64,
    pub failed: u64,
    pub losses: Losses,
}

use crate::Log;
use ckd_chain::Chain;
use ckd_types::{EndList, PathNo};
use plain_defs::ActList;

/// The program that runs. So many acts more as `room` says have room among its acts.
#[derive(Debug, Drop)]
pub struct Running {
    pub path: PathNo,
    pub ordinal: u16,
    pub chain: Chain,
    pub ends: EndList,
    pub acts: ActList,
    pub room: usize,
}

/// What is kept of a path, so that no event walks the journal: how many of its programs were started, whether it ran one since its
/// last reset or runs one, and whether a reset of it waits for the end of the program that runs.
#[derive(Clone, Copy, Debug, PartialEq, Eq)]
pub struct KeptPath {
    pub started: u16,
    pub used: bool,
    pub waits: bool,
}

impl KeptPath {
    /// A path of which nothing happened.
    pub const FRESH: KeptPath = KeptPath {
        started: 0,
        used: false,
        waits: false,
    };
}

/// What happened to a device: its journal, the program that runs, what is kept of each path, whether a program was started since the
/// power came, and where in the journal the program is that ended last.
#[derive(Debug, Drop)]
pub struct Past {
    pub items: Log,
    pub running: Option<Running>,
    pub kept: [KeptPath; 4],
    pub powered: bool,
    pub last: usize,
}

/// A step of a program: its command ended, and its end stands in the journal (`last_end`); or it wrote one side of two.
#[derive(Clone, Copy, Debug, PartialEq, Eq)]
pub enum Stepped {
    Ended,
    Half(ckd_types::TrackNo),
}

use ckd_rules::{LocalAct, Look, Stance};

/// Where a chain is between two commands: its stance, and the word of the next command, if there is
/// one.
#[derive(Clone, Copy, Debug)]
pub struct Mark {
    pub stance: Stance,
    pub next: Option<usize>,
}

/// How far the command at hand is, once it has begun: its ending is known; it looks at the track of
/// the stance; or it asks the device.
#[derive(Clone, Copy, Debug, PartialEq, Eq)]
pub enum Stage {
    Over,
    Looks(Look),
    Asks(LocalAct),
}

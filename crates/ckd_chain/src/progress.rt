use ckd_rules::LocalAct;
use ckd_types::{Bytes, CommandEnd, Edit, TrackNo};

/// What a step of a chain came to.
#[derive(Debug, Drop)]
pub enum Progress {
    /// The command ended.
    Ended(CommandEnd),
    /// A multitrack command goes on to this track: the next step wants its image.
    Need(TrackNo),
    /// The command edits this track. It waits for a settle.
    Write { track: TrackNo, edit: Edit },
    /// The command asks the device that its path is on. It waits for a settle.
    Local(LocalAct),
}

/// How a command that waits fared.
#[derive(Debug, Drop)]
pub enum Settled {
    /// Its edit was made, or the device did its act and answers no bytes.
    Written,
    /// Its track can't be had, or its edit can't be made.
    Equipment,
    /// The bytes of its track are no track.
    DataCheck,
    /// The device answered these bytes.
    Sent(Bytes),
    /// The device refuses the bytes that the command gave it.
    BadParameter,
}

use ckd_types::{Domain, Extent, GroupId, Read, Search, TrackNo, Write};

/// What a command asks of the device that its path is on.
#[derive(Clone, Copy, Debug, PartialEq, Eq)]
pub enum LocalAct {
    /// The path's sense bytes, which are then zero.
    Sense,
    /// What the control unit and the device are.
    SenseId,
    /// Reserves the device, and answers as sense does.
    Reserve,
    /// Frees the device, and answers as sense does.
    Release,
    /// Moves the reservation to the path, whoever holds the device, and answers as sense does.
    Steal,
    /// Sets the path's group ID. It answers no bytes, and may be refused.
    SetGroup { function: u8, id: GroupId },
    /// The path's state byte and group ID.
    SenseGroup,
}

/// What a command does on the tracks that it looks at: it finds the record of a locate record, it
/// searches, reads or writes.
#[derive(Clone, Copy, Debug, PartialEq, Eq)]
pub enum Look {
    Finds(Domain),
    Searches(Search),
    Reads(Read),
    Writes(Write),
}

/// What a command is to do, once its code, its place in the chain, its count, its parameters, the mask
/// and the extent let it: nothing; go to a track; take a sector, a mask or an extent; stand where a
/// locate record says; look at tracks; or ask the device.
#[derive(Clone, Copy, Debug, PartialEq, Eq)]
pub enum CommandOrder {
    Nothing,
    Seeks(TrackNo),
    Recalibrates,
    SetsSector,
    SetsMask(u8),
    Defines(Extent),
    Locates(Domain),
    Looks(Look),
    Asks(LocalAct),
}

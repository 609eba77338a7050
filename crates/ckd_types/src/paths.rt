/// A side of a device: B is the second volume of a duplex pair.
#[derive(Clone, Copy, Debug, PartialEq, Eq)]
pub enum Side {
    A,
    B,
}

/// The eleven bytes that name a path group. What they say is the system's own affair.
#[derive(Clone, Copy, Debug, PartialEq, Eq)]
pub struct GroupId {
    pub bytes: [u8; 11],
}

impl GroupId {
    ghost use Rattle.std.specs.Prelude.{◌≡◌};

    /// The ID of these bytes.
    pub fn new(bytes: [u8; 11]) -> GroupId
        ensures { result.bytes ≡ bytes }
    {
        GroupId { bytes }
    }

    /// Its bytes, as they were given.
    pub fn bytes(&self) -> &[u8; 11]
        ensures { result.now ≡ self.now.bytes }
    {
        &self.bytes
    }
}

/// Whom a path stands for, and who holds a reserved device: a path group, or a path by itself.
#[derive(Clone, Copy, Debug, PartialEq, Eq)]
pub enum Owner {
    Group(GroupId),
    Path(crate::PathNo),
}

/// What a device keeps of a path's membership in a path group: it was reset and has set no ID since; it was
/// ungrouped; or it is in the group of an ID, in single or multipath mode (GA32-0099).
#[derive(Clone, Copy, Debug, PartialEq, Eq)]
pub enum PathState {
    Reset,
    Ungrouped,
    Grouped { id: GroupId, multipath: bool },
}

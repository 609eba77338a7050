//! The plain types of count-key-data storage, and the definitions that every crate above cites.
#![tactic(auto)]

mod bytes;
mod channel;
mod command;
mod fixed;
mod geometry;
mod growing;
mod memory;
mod number;
mod parameters;
mod paths;
mod record;
mod sense;
mod status;

pub use bytes::Bytes;
pub use channel::{Ccw, CommandEnd, EndList, Note, Why};
pub use command::{
    Command, Comparison, Control, DeviceCommand, Read, ReadArea, Search, SearchArea, Write,
    command_of, is_search, required_count,
};
pub use fixed::FixedData;
pub use geometry::{Cchh, Geometry, HEADS, capacity, cchh_of, cost};
pub use growing::Growing;
pub use memory::NoMemory;
pub use number::{DeviceNo, PathNo, TrackNo};
pub use parameters::{
    ALL_SEEKS, ALL_WRITES, Domain, Extent, Mode, NO_SEEKS, NO_WRITES, NO_ZERO_WRITES, Operation,
    Orientation, ParamFault, SEEK_CONTROL, SEEK_CYLINDER, WRITE_CONTROL, accepts, is_mask, mode_of,
    operation_code, operation_of, permits_move, permits_seek, permits_write,
};
pub use paths::{GroupId, Owner, PathState, Side};
pub use record::{Edit, RecId, Record, Records, Track, empty_track};
pub use sense::Sense;
pub use status::UnitStatus;

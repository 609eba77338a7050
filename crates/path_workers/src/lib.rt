//! What a worker does at a device in its turn: an event of a path, a piece of work in the background, or an operator's order (a loss, where
//! the device may have it, a volume in a failed one's place, and a side that is held or copied again); what a turn keeps of a device; and
//! devices that are finished behind a run.
#![tactic(auto)]

mod background;
mod device_orders;
mod ending;
mod events;
mod promise;
mod turns;

pub use background::background_event;
pub use device_orders::{DeviceOrder, lose, may_lose, one_more, order};
pub use ending::{finish, finish_all};
pub use events::{Came, Visitor, path_event};
pub use promise::{DeviceSeat, DeviceTurn, Promise};
pub use turns::{background_turn, path_turn};

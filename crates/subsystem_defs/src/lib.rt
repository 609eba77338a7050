//! What each event of the subsystem means: a pool that is shared, and its devices. Its definitions, and the plain
//! types that they share with the code.
#![tactic(auto)]

mod end;
mod event;

pub use end::{EventEnd, OrderFault};
pub use event::Event;

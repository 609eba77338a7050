//! The event lines of a deck, done one event at a time by whoever has the devices: RUN and SETTLE are written out by what the
//! devices tell. And an event of all devices with a keeper, which is what happens in the defined run.
#![tactic(auto)]

mod event;
mod law;
mod lines;
mod orders;
mod stage;

pub use event::do_event_with;
pub use law::driven_is_run;
pub use lines::drive;
pub use orders::{do_replace, do_unpair};
pub use stage::{Stage, Stopped};

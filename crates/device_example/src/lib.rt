//! A device alone, without decks and without the other devices: docs/DEVICE.md goes through it. The volume and the port are the
//! caller's own, and a test runs two programs over them.
#![tactic(auto)]

mod caller;
#[cfg(test)]
mod far_end;
mod port;
#[cfg(test)]
mod tests;
mod volume;

pub use caller::run_program;
pub use port::CountedRequests;
pub use volume::{OneCylinder, Watched};

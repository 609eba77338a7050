//! Who holds a reserved device.
#![tactic(auto)]

mod reserve;

pub use reserve::Reserve;

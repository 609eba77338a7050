//! A look at one track of a device past the channel, with the image that it found.
#![tactic(auto)]

mod found;
mod looking;

pub use found::Look;
pub use looking::{look, look_with};

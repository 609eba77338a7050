//! The images of tracks that the cache holds.
#![tactic(auto)]

mod frames;

pub use frames::{Frame, Frames, PutRefused};

//! The pool of frames and slots that all devices share.
#![tactic(auto)]

mod notes;
mod place;
mod pool;
mod recency;

pub use pool::{Pending, Pool};

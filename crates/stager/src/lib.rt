//! The tracks that a device will stage into the cache.
#![tactic(auto)]

mod queue;

pub use queue::Queue;

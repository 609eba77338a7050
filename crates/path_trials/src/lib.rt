//! Trials of paths that run beside each other: that two of them are inside two devices at once, that every program is run, what orders leave
//! meanwhile, and that the pool knows behind a run what the devices hold.
#![tactic(auto)]

mod maker;
#[cfg(test)]
mod meeting;
#[cfg(test)]
mod orders;
#[cfg(test)]
mod pools;
#[cfg(test)]
mod runs;

pub use maker::EmptyVolume;

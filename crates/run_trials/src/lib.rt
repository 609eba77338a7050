//! Trials of the tracks of a device and of all devices: of what no clause says, and that calls which may lack memory have it with ample
//! memory. They stand here, so that no large crate is proved once more for them.
#![tactic(auto)]

#[cfg(test)]
mod keepers;
#[cfg(test)]
mod stores;
#[cfg(test)]
mod subsystem;

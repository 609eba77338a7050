//! Trials of low crates, of what no clause says and no deck shows: that calls which may lack memory have it with
//! ample memory, a few worked rows, and the bytes of a volume file that was made by hand. They stand here, so that no
//! large crate is proved once more for them.
#![tactic(auto)]

#[cfg(test)]
mod files;
#[cfg(test)]
mod generated;
#[cfg(test)]
mod images;
#[cfg(test)]
mod lines;
#[cfg(test)]
mod outside;
#[cfg(test)]
mod plans;
#[cfg(test)]
mod tables;
#[cfg(test)]
mod tracks;
#[cfg(test)]
mod values;
#[cfg(test)]
mod volumes;

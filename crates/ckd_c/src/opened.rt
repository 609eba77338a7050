use crate::volume::HostVolume;
use std::fs::File;
use subsystem_core::Subsystem;

/// A subsystem that a caller opened, and a descriptor of each image that was handed in, to flush it by.
#[derive(Drop)]
pub struct Opened {
    pub(crate) subsystem: Subsystem<HostVolume>,
    pub(crate) files: Vec<File>,
}

use ckd_types::PathNo;

/// The program that runs on a device, as lines tell it: its path, and its ordinal there from 1 on.
#[derive(Clone, Copy, Debug, PartialEq, Eq)]
pub struct RunningProgram {
    pub path: PathNo,
    pub ordinal: u16,
}

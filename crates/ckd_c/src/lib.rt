//! A subsystem for C: a static library, with `c/ckd.h` as its manual. A caller keeps a `CkdSubsystem`, which is closed where it is all
//! zeros; each call takes the subsystem out of it and puts it back. In front of each call, `c/calls.c` refuses NULL.
#![tactic(auto)]

mod adding;
mod asking;
mod closing;
mod code;
mod ending;
mod events;
mod finding;
mod handle;
mod lent;
mod loose;
mod opened;
mod opening;
mod orders;
mod owned;
mod planning;
#[cfg(test)]
mod tests;
mod volume;
mod words;

pub use code::Code;
pub use ending::{CkdCounts, CkdEnd};
pub use handle::CkdSubsystem;
pub use lent::CkdFile;
pub use opened::Opened;
pub use owned::OwnedPlace;
pub use volume::HostVolume;
pub use words::{CkdCcw, CkdRefusal};

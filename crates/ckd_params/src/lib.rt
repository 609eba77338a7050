//! The parameter bytes of define extent and locate record: reading them, and writing them.
#![tactic(auto)]

mod bits;
mod decode;
mod encode;

pub use decode::{decode_domain, decode_extent, decode_seek, decode_seek_head};
pub use encode::{encode_domain, encode_extent};

//! A device's firm contents on a far volume, over a link.
#![tactic(auto)]

mod copying;
mod event;
mod law;
mod link;
mod mirror;
mod remote;
mod sender;
mod state;

pub use law::mirrors_begin_with_firsts;
pub use link::{Link, MemLink};
pub use mirror::Mirror;
pub use remote::Remote;
pub use sender::Sender;
pub use state::MirrorState;

//! The outside as traits: sources of bytes and sinks for bytes, which count their faults, and the
//! writer of a report's lines.
#![tactic(auto)]

mod digits;
mod faults;
mod line;
mod memory;
mod pieces;
mod sink;
mod source;
mod spelling;
mod streams;
mod sure;

pub use faults::{Failed, Faulty};
pub use line::{LineBuffer, flush, make_room, put_text};
pub use memory::{MemSink, MemSource};
pub use pieces::{Piece, PieceSpelling, put_hex, write_pieces};
pub use sink::{Sink, write_all};
pub use source::{ReadError, Source, read_up_to};
pub use spelling::{Spelling, put_all, write_out};
pub use streams::{StdSink, StdSource};
pub use sure::NeverFails;

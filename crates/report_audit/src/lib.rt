//! The audit of a report: a deck, a line REPORT and a report are read as a text that is never held whole.
#![tactic(auto)]

mod audit;
mod auditor;
mod devices;
mod line;
mod pieces;
mod reading;
mod texts;
mod told;
mod top;

pub use audit::Audit;
pub use auditor::{Auditor, outlines_are_same};
pub use pieces::PieceAudit;
pub use reading::read_audit;
pub use texts::{write_no, write_no_report, write_usage, write_yes};
pub use top::{audit_top, words_of};

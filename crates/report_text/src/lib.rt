//! The lines of a report, of a history and of a summary: what each of them is, how it is written, and what a run
//! records of them.
#![tactic(auto)]

mod answer_words;
mod answers;
mod event;
mod keyword;
mod line;
mod numbers;
mod order;
mod record;
mod report;
mod report_lines;
mod spelled;
mod summary;
mod words;

pub use answers::{
    BackAnswer, DeviceTotals, HowOver, LooseAnswer, OrderAnswer, OrderRefusal, StartAnswer, SumOf,
};
pub use event::{Happened, Loosed, ProgramOver};
pub use keyword::{Keyword, keyword_text};
pub use line::{EndLine, ReportLine};
pub use numbers::number_in;
pub use order::Order;
pub use record::{RunRecord, end_line};
pub use report::{DeviceEnd, FrameEnd, write_report};
pub use report_lines::{LineSpelling, put_data};
pub use spelled::Respelling;
pub use summary::{LineCounts, Summary, write_summary};
pub use words::Words;

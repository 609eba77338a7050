use crate::Ending;
use ckd_types::Edit;

/// What came of a command's look at one track: it ended, it goes on to the track that the stance is
/// on then, or it edits the track that it looked at and ends with that.
#[derive(Debug, Drop)]
pub enum Turned {
    Ended(Ending),
    Onward,
    Edits(Edit, Ending),
}

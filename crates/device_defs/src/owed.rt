/// What a loss in an event did to a track that the outside wasn't told yet: its frame was marked modified or
/// given up, a slot was given up, or the track became firm.
#[derive(Clone, Copy, Debug, PartialEq, Eq)]
pub struct Owed {
    pub modified: bool,
    pub dropped: bool,
    pub freed: Option<usize>,
    pub firm: bool,
}

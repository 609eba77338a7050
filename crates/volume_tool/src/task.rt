ghost use Rattle.std.specs.Prelude.{◌≡◌};
ghost use Rattle.volume_tool.specs.Answers.{save_of, task_by};

use report_text::number_in;

/// What the words ask for.
#[derive(Clone, Copy, Debug, PartialEq, Eq)]
pub enum Task {
    List,
    /// The file of the device of this number after the run of a deck.
    Save(u64),
}

/// The greatest number that a word may be.
const MOST_NUMBER: u64 = 4_294_967_295;

pub(crate) fn task_by(word: &str) -> Option<Task>
    ensures { result ≡ task_by word.now }
{
    if word.as_bytes() == b"list".as_slice() {
        Some(Task::List)
    } else {
        None
    }
}

pub(crate) fn save_of(word: &str, number: &str) -> Option<Task>
    ensures { result ≡ save_of word.now number.now }
{
    if word.as_bytes() != b"save".as_slice() {
        return None;
    }
    match number_in(0, MOST_NUMBER, number.as_bytes()) {
        Some(n) => Some(Task::Save(n)),
        None => None,
    }
}

ghost use Rattle.std.specs.Prelude.{◌≡◌, map};
ghost use Rattle.copy_tool.specs.Answers.{number_of, task_by, task_of, task_with};

use report_text::number_in;

/// What the words ask for.
#[derive(Clone, Copy, Debug, PartialEq, Eq)]
pub enum Task {
    /// The file of the device of this number as it was after the first so many event lines.
    Copy { device: u64, lines: u64 },
    /// The file of the far volume of the device of this number after the run, of whose puts the one of this number fails; 0 is none.
    Mirror { device: u64, put: u32 },
}

/// The greatest number that a word may be.
const MOST_NUMBER: u64 = 4_294_967_295;

fn number_of(word: &str) -> Option<u32>
    ensures { result ≡ number_of word.now }
{
    match number_in(0, MOST_NUMBER, word.as_bytes()) {
        None => None,
        Some(n) => Some(n as u32),
    }
}

fn task_with(word: &str, device: u32, number: u32) -> Option<Task>
    ensures { result ≡ task_with word.now device number }
{
    if word.as_bytes() == b"copy".as_slice() {
        return Some(Task::Copy {
            device: u64::from(device),
            lines: u64::from(number),
        });
    }
    if word.as_bytes() == b"mirror".as_slice() {
        return Some(Task::Mirror {
            device: u64::from(device),
            put: number,
        });
    }
    None
}

fn task_by(word: &str, device: Option<u32>, number: Option<u32>) -> Option<Task>
    ensures { result ≡ task_by word.now device number }
{
    match device {
        None => None,
        Some(device) => match number {
            None => None,
            Some(number) => task_with(word, device, number),
        },
    }
}

#[tactic(auto, unfolding(crate::specs::Answers::task_of))]
pub(crate) fn task_of(words: &[&str]) -> Option<Task>
    ensures { result ≡ task_of (map (λ w. w.now) words.now) }
{
    match words {
        [word, device, number] => task_by(word, number_of(device), number_of(number)),
        _ => None,
    }
}

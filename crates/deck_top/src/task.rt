//! The words of the program.

ghost use Rattle.std.specs.Prelude.{◌≡◌, ◌≤◌, IfSome, map};
ghost use Rattle.deck_top.specs.Answers.{IsServed, generate_by, generate_of, task_by, task_of};

use report_text::number_in;

/// What the words ask for.
#[derive(Clone, Copy, Debug, PartialEq, Eq)]
pub enum Task {
    Run,
    Check,
    /// The run of the deck of this seed and so many programs.
    Generate { seed: u64, count: u16 },
}

/// The most programs of a generated deck.
const MOST_PROGRAMS: u64 = 512;

fn task_by(word: &str) -> Option<Task>
    ensures value { result ≡ task_by word.now }
    ensures range { IfSome result IsServed }
{
    if word.as_bytes() == b"run".as_slice() {
        Some(Task::Run)
    } else if word.as_bytes() == b"check".as_slice() {
        Some(Task::Check)
    } else {
        None
    }
}

fn generate_by(seed: Option<u64>, count: Option<u64>) -> Option<Task>
    requires { IfSome count (λ n. n ≤ 512) }
    ensures value { result ≡ generate_by seed count }
    ensures range { IfSome result IsServed }
{
    match (seed, count) {
        (Some(seed), Some(count)) => Some(Task::Generate {
            seed,
            count: count as u16,
        }),
        _ => None,
    }
}

fn generate_of(word: &str, seed: &str, count: &str) -> Option<Task>
    ensures value { result ≡ generate_of word.now seed.now count.now }
    ensures range { IfSome result IsServed }
{
    if word.as_bytes() != b"generate".as_slice() {
        return None;
    }
    let seed = number_in(0, u64::MAX, seed.as_bytes());
    let count = number_in(1, MOST_PROGRAMS, count.as_bytes());
    generate_by(seed, count)
}

/// The task that some words name.
#[tactic(auto, unfolding(crate::specs::Answers::task_of))]
pub(crate) fn task_of(words: &[&str]) -> Option<Task>
    ensures value { result ≡ task_of (map (λ w. w.now) words.now) }
    ensures range { IfSome result IsServed }
{
    match words {
        [word] => task_by(word),
        [word, seed, count] => generate_of(word, seed, count),
        _ => None,
    }
}

ghost use Rattle.std.specs.Prelude.{◌≡◌, ◌≤◌, IfSome, map};
ghost use Rattle.image_tool.specs.Answers.{IsSmall, model_by, new_by, new_of, task_by, task_of};

use ckd_types::Geometry;
use report_text::number_in;

/// What the words ask for, of the file that the last word names.
#[derive(Clone, Copy, Debug, PartialEq, Eq)]
pub enum Task {
    /// An image of an empty volume.
    New { geometry: Geometry, cylinders: u16 },
    /// Its bad tracks.
    Check,
    /// The list of its tracks.
    List,
    /// The volume file of what it holds.
    ToVolume,
    /// It is to hold what a volume file has.
    FromVolume,
}

/// The most cylinders of an image.
const MOST_CYLINDERS: u64 = 4369;

#[tactic(auto, unfolding(crate::specs::Answers::task_by))]
fn task_by(word: &str) -> Option<Task>
    ensures task { result ≡ task_by word.now }
    ensures small { IfSome result (λ task. IsSmall task) }
{
    if word.as_bytes() == b"check".as_slice() {
        Some(Task::Check)
    } else if word.as_bytes() == b"list".as_slice() {
        Some(Task::List)
    } else if word.as_bytes() == b"to-volume".as_slice() {
        Some(Task::ToVolume)
    } else if word.as_bytes() == b"from-volume".as_slice() {
        Some(Task::FromVolume)
    } else {
        None
    }
}

fn model_by(word: &str) -> Option<Geometry>
    ensures { result ≡ model_by word.now }
{
    if word.as_bytes() == b"3390".as_slice() {
        Some(Geometry::D3390)
    } else if word.as_bytes() == b"3380".as_slice() {
        Some(Geometry::D3380)
    } else {
        None
    }
}

fn new_of(model: Option<Geometry>, cylinders: Option<u64>) -> Option<Task>
    requires { IfSome cylinders (λ n. n ≤ 4369) }
    ensures task { result ≡ new_of model cylinders }
    ensures small { IfSome result (λ task. IsSmall task) }
{
    match model {
        None => None,
        Some(geometry) => match cylinders {
            None => None,
            Some(n) => Some(Task::New {
                geometry,
                cylinders: n as u16,
            }),
        },
    }
}

#[tactic(auto, unfolding(crate::specs::Answers::new_by))]
fn new_by(word: &str, model: &str, cylinders: &str) -> Option<Task>
    ensures task { result ≡ new_by word.now model.now cylinders.now }
    ensures small { IfSome result (λ task. IsSmall task) }
{
    if word.as_bytes() != b"new".as_slice() {
        return None;
    }
    new_of(
        model_by(model),
        number_in(1, MOST_CYLINDERS, cylinders.as_bytes()),
    )
}

#[tactic(auto, unfolding(crate::specs::Answers::task_of))]
pub(crate) fn task_of(words: &[&str]) -> Option<Task>
    ensures task { result ≡ task_of (map (λ w. w.now) words.now) }
    ensures small { IfSome result (λ task. IsSmall task) }
{
    match words {
        [word, _] => task_by(word),
        [word, model, cylinders, _] => new_by(word, model, cylinders),
        _ => None,
    }
}

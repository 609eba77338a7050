ghost use Rattle.std.specs.Prelude.{◌≡◌, ◌<◌};
ghost use Rattle.deck_gen.specs.Draws.{next_number, choice_of};
ghost use Rattle.deck_gen.specs.Choices.{kind_of, choice_behind};

use ckd_types::{DeviceNo, TrackNo};

const MULTIPLIER: u64 = 6_364_136_223_846_793_005;

const INCREMENT: u64 = 1_442_695_040_888_963_407;

/// What a program does: it formats a track, updates a record, reads two records, or reads two tracks.
#[derive(Clone, Copy, Debug, PartialEq, Eq)]
pub enum Kind {
    Format,
    Update,
    Read,
    ReadTracks,
}

/// What is chosen for a program, and the number that was drawn last for it.
#[derive(Clone, Copy, Debug, PartialEq, Eq)]
pub struct Choice {
    pub device: DeviceNo,
    pub track: TrackNo,
    pub kind: Kind,
    pub last: u64,
}

/// The number that is drawn behind another: a linear congruential generator modulo 2 to the 64th, whose constants are our
/// own choice.
#[tactic(auto, unfolding(crate::specs::Draws::next_number))]
pub fn next_number(x: u64) -> u64
    ensures { result ≡ next_number x }
{
    x.wrapping_mul(MULTIPLIER).wrapping_add(INCREMENT)
}

/// One of so many choices, from 0 on: by the upper 31 bits of a drawn number, since the lower ones repeat soon.
#[tactic(auto, unfolding(crate::specs::Draws::choice_of))]
pub fn choice_of(choices: u64, x: u64) -> u64
    requires { 0 < choices }
    ensures value { result ≡ choice_of choices x }
    ensures range { result < choices }
{
    (x >> 33) % choices
}

fn kind_of(n: u64) -> Kind
    ensures { result ≡ kind_of n }
{
    match n {
        0 => Kind::Format,
        1 => Kind::Update,
        2 => Kind::Read,
        _ => Kind::ReadTracks,
    }
}

/// The choice of the first program behind a number.
pub fn choice_behind(x: u64) -> Choice
    ensures { result ≡ choice_behind x }
{
    let first = next_number(x);
    let second = next_number(first);
    let third = next_number(second);
    Choice {
        device: DeviceNo::new(2 * choice_of(2, first) as u8).unwrap(),
        track: TrackNo::new(choice_of(30, second) as u16).unwrap(),
        kind: kind_of(choice_of(4, third)),
        last: third,
    }
}

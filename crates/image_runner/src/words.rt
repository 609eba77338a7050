ghost use Rattle.std.specs.Prelude.{◌≡◌, ◌<◌, Some, None, MatchOption, length, map, true};
ghost use Rattle.std.specs.Option.{option_copied};
ghost use Rattle.std.specs.List.{after_first, before_first, position_or_len};
ghost use Rattle.image_runner.specs.Words.{are_mounts, device_in, is_for, is_new, is_sign, mounts_of, path_for, path_in};

use ckd_types::DeviceNo;
use report_text::number_in;

/// The greatest number of a device.
const MOST_DEVICE: u64 = 15;

/// What stands around the first sign of a word.
fn parts_of<'a>(word: &'a str) -> Option<(&'a str, &'a str)>
    ensures { MatchOption result (position_or_len is_sign word.now ≡ length word.now)
        (λ x. (x.0.now ≡ before_first is_sign word.now) × (x.1.now ≡ after_first is_sign word.now)
        × (position_or_len is_sign word.now < length word.now)) }
{
    word.split_once('=')
}

/// The device that a word names an image for, as `0=FILE`.
#[tactic(auto, unfolding(crate::specs::Words::device_in))]
pub(crate) fn device_in(word: &str) -> Option<DeviceNo>
    ensures { result ≡ device_in word.now }
{
    let Some((number, _)) = parts_of(word) else {
        return None;
    };
    match number_in(0, MOST_DEVICE, number.as_bytes()) {
        Some(n) => DeviceNo::new(n as u8),
        None => None,
    }
}

/// The path behind its sign.
#[tactic(auto, unfolding(crate::specs::Words::path_in))]
pub(crate) fn path_in<'a>(word: &'a str) -> Option<&'a str>
    ensures { option_copied result ≡ path_in word.now }
{
    match parts_of(word) {
        Some((_, path)) => Some(path),
        None => None,
    }
}

fn is_for(named: Option<DeviceNo>, d: DeviceNo) -> bool
    ensures { result ≡ is_for named d }
{
    match named {
        Some(n) => n == d,
        None => false,
    }
}

/// The path that the first of these words names for a device.
#[tactic(auto, using(crate::proofs::Names::named_nowhere))]
pub(crate) fn path_for<'a>(words: &[&'a str], d: DeviceNo) -> Option<&'a str>
    ensures { option_copied result ≡ path_for (map (λ w. w.now) words.now) d }
{
    for word in words {
        if is_for(device_in(word), d) {
            return path_in(word);
        }
    }
    None
}

/// Whether none of the words names an image for this device, which is one.
fn is_new(words: &[&str], named: Option<DeviceNo>) -> bool
    ensures { result ≡ is_new (map (λ w. w.now) words.now) named }
{
    match named {
        Some(d) => path_for(words, d).is_none(),
        None => false,
    }
}

/// Whether each word names an image, and no two for one device.
#[tactic(auto, unfolding(crate::specs::Words::are_mounts))]
fn are_mounts(words: &[&str]) -> bool
    ensures { result ≡ are_mounts (map (λ w. w.now) words.now) }
{
    match words {
        [word, behind @ ..] => is_new(behind, device_in(word)) && are_mounts(behind),
        [] => true,
    }
}

/// The words that name images, behind `ON`.
#[tactic(auto, unfolding(crate::specs::Words::mounts_of))]
pub(crate) fn mounts_in<'a>(words: &'a [&'a str]) -> Option<&'a [&'a str]>
    ensures { MatchOption result (mounts_of (map (λ w. w.now) words.now) ≡ None)
        (λ mounts. mounts_of (map (λ w. w.now) words.now) ≡ Some (map (λ w. w.now) mounts.now)) }
{
    match words {
        [first, mounts @ ..] => {
            if first.as_bytes() == b"ON".as_slice() && are_mounts(mounts) {
                Some(mounts)
            } else {
                None
            }
        }
        [] => None,
    }
}

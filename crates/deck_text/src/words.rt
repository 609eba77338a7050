ghost use Rattle.std.specs.Prelude.{◌≡◌, ◌≢◌, ◌≤◌, ◌+◌, Some, None, MatchOption, length, slice_index};
ghost use Rattle.deck_text.specs.Words.{words_of, word_and, one_word, two_words, three_words};

use crate::lines::place_of;

fn without_spaces(line: &[u8]) -> &[u8]
    ensures words { words_of result.now ≡ words_of line.now }
    ensures first { slice_index result.now 0 ≢ 32 }
    ensures shorter { length result.now ≤ length line.now }
{
    for (i, b) in line.iter().enumerate() {
        if *b != b' ' {
            return &line[i..];
        }
    }
    &[]
}

/// The bytes up to the first space, and what follows them.
fn cut_word(line: &[u8]) -> (&[u8], &[u8])
    requires { slice_index line.now 0 ≢ 32 }
    ensures split { words_of line.now ≡ word_and result.0.now (words_of result.1.now) }
    ensures shorter { length result.0.now + length result.1.now ≤ length line.now }
{
    line.split_at(place_of(b' ', line))
}

/// The first word of a line, and what follows it. It is empty where there is none.
pub fn next_word(line: &[u8]) -> (&[u8], &[u8])
    ensures split { words_of line.now ≡ word_and result.0.now (words_of result.1.now) }
    ensures shorter { length result.0.now + length result.1.now ≤ length line.now }
{
    cut_word(without_spaces(line))
}

/// The word of a line's rest, if it is one.
pub fn one_word(line: &[u8]) -> Option<&[u8]>
    ensures { MatchOption result (one_word (words_of line.now) ≡ None) (λ w. one_word (words_of line.now) ≡ Some w.now) }
{
    let (first, rest) = next_word(line);
    let (more, _) = next_word(rest);
    if first.is_empty() || !more.is_empty() {
        return None;
    }
    Some(first)
}

/// The two words of a line's rest, if these are all.
pub fn two_words(line: &[u8]) -> Option<(&[u8], &[u8])>
    ensures { MatchOption result (two_words (words_of line.now) ≡ None) (λ w. two_words (words_of line.now) ≡ Some (w.0.now, w.1.now)) }
{
    let (first, rest) = next_word(line);
    let second = one_word(rest)?;
    if first.is_empty() {
        return None;
    }
    Some((first, second))
}

/// The three words of a line's rest, if these are all.
pub fn three_words(line: &[u8]) -> Option<(&[u8], &[u8], &[u8])>
    ensures { MatchOption result (three_words (words_of line.now) ≡ None) (λ w. three_words (words_of line.now) ≡ Some (w.0.now, w.1.now, w.2.now)) }
{
    let (first, rest) = next_word(line);
    let (second, third) = two_words(rest)?;
    if first.is_empty() {
        return None;
    }
    Some((first, second, third))
}

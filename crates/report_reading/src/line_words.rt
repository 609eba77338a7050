ghost use Rattle.std.specs.Prelude.{◌≡◌, ◌∷◌, slice_get};
ghost use Rattle.std.specs.Option.{option_map};
ghost use Rattle.report_reading.specs.Places.{cut_words, words_left};

use memchr::memchr;
use std::marker::Model;

/// How many words are found at once: no line of a report has more.
const MOST_WORDS: usize = 8;

/// The first word of a text, and what stands behind the space that ends it.
fn first_word(text: &[u8]) -> (&[u8], Option<&[u8]>)
    ensures { cut_words text.now ≡ result.0.now ∷ words_left (option_map (λ left. left.now) result.1) }
{
    match memchr(b' ', text) {
        Some(end) => (&text[..end], Some(&text[end + 1..])),
        None => (text, None),
    }
}

fn nth_word(text: &[u8], i: usize) -> Option<&[u8]>
    ensures { option_map (λ w. w.now) result ≡ slice_get (cut_words text.now) i }
{
    text.split(|b| *b == b' ').nth(i)
}

/// The words of a text that is cut at each space. They are seen as their list.
#[derive(Drop)]
pub struct LineWords<'a> {
    first: [&'a [u8]; MOST_WORDS],
    count: usize,
    left: Option<&'a [u8]>,
}

impl<'a> Model for LineWords<'a> {
    ghost use Rattle.std.specs.Prelude.{◌≤◌, ◌++◌, List, ℕ, map, take};
    ghost use Rattle.std.specs.Option.{option_map};
    ghost use Rattle.report_reading.specs.Places.{words_left};

    ghost Value = { List (List ℕ) };

    ghost view = { λ w. map (λ x. x.now) (take w.count w.first) ++ words_left (option_map (λ left. left.now) w.left) };

    ghost invariant = { λ w. w.count ≤ 8 };
}

impl<'a> LineWords<'a> {
    /// The words of a text. It takes no memory: words behind the eighth are found again at each look.
    pub fn of(text: &'a [u8]) -> LineWords<'a>
        ensures { result ≡ cut_words text.now }
    {
        let mut first = [text; MOST_WORDS];
        let mut left = text;
        for count in 0..MOST_WORDS {
            let (word, more) = first_word(left);
            first[count] = word;
            match more {
                Some(more) => left = more,
                None => {
                    let count = count + 1;
                    return LineWords {
                        first,
                        count,
                        left: None,
                    };
                }
            }
        }
        LineWords {
            first,
            count: MOST_WORDS,
            left: Some(left),
        }
    }

    /// A word, from 0 on.
    pub fn get(&self, i: usize) -> Option<&'a [u8]>
        ensures { option_map (λ w. w.now) result ≡ slice_get self.now i }
    {
        if i < self.count {
            return Some(self.first[i]);
        }
        match self.left {
            Some(left) => nth_word(left, i - self.count),
            None => None,
        }
    }
}

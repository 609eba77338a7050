ghost use Rattle.std.specs.Prelude.{◌≡◌, ℕ, ◌≤◌, ◌<◌, ◌*◌, ◌+◌, ◌==◌, ◌&&◌, ◌||◌, not, Bool, false, nat_le};
ghost use Rattle.std.specs.Int.{bit_at};
ghost use Rattle.track_table.specs.Bits.{IsLeastFrom};
ghost use Rattle.track_table.specs.Tracks.{count_below, least};

use ckd_types::TrackNo;

/// The words of the largest device's tracks, of 64 tracks each.
pub(crate) const WORDS: usize = 1024;

/// The groups of these words, of 64 words each.
const GROUPS: usize = 16;

/// Marks of tracks that are asked by the word, of 64 tracks: so what is marked in both of two sets, or in one of them, is known
/// without a third one.
pub trait Marks {
    ghost marked: { Self → ℕ → Bool };

    /// The marks of word `k`.
    fn word(&self, k: usize) -> u64
        requires { k < 1024 }
        ensures marks { (i : ℕ) → i < 64 → (bit_at result i == 1) ≡ marked self.now (64 * k + i) }
        ensures last { (q : ℕ) → 65535 ≤ q → marked self.now q ≡ false };

    /// Which of the 64 words from word `64 * j` on may have a mark.
    fn group(&self, j: usize) -> u64
        requires { j < 16 }
        ensures words { (i p : ℕ) → i < 64 → p < 64 → bit_at result i ≡ 0 → marked self.now (64 * (64 * j + i) + p) ≡ false }
        ensures last { (q : ℕ) → 65535 ≤ q → marked self.now q ≡ false };

    /// Which of the 16 groups of 64 words may have a mark.
    fn groups(&self) -> u64
        ensures { (j q : ℕ) → j < 16 → q < 4096 → bit_at result j ≡ 0 → marked self.now (4096 * j + q) ≡ false };
}

/// The tracks that are marked here and there.
#[derive(Drop)]
pub struct And<A: Marks, B: Marks> {
    pub one: A,
    pub other: B,
}

impl<A: Marks, B: Marks> Marks for And<A, B> {
    ghost marked = { λ m t. A.marked m.one t && B.marked m.other t };

    fn word(&self, k: usize) -> u64 {
        self.one.word(k) & self.other.word(k)
    }

    fn group(&self, j: usize) -> u64 {
        self.one.group(j) & self.other.group(j)
    }

    fn groups(&self) -> u64 {
        self.one.groups() & self.other.groups()
    }
}

/// The tracks that are marked here or there.
#[derive(Drop)]
pub struct Or<A: Marks, B: Marks> {
    pub one: A,
    pub other: B,
}

impl<A: Marks, B: Marks> Marks for Or<A, B> {
    ghost marked = { λ m t. A.marked m.one t || B.marked m.other t };

    fn word(&self, k: usize) -> u64 {
        self.one.word(k) | self.other.word(k)
    }

    fn group(&self, j: usize) -> u64 {
        self.one.group(j) | self.other.group(j)
    }

    fn groups(&self) -> u64 {
        self.one.groups() | self.other.groups()
    }
}

/// The tracks that are marked here and not there.
#[derive(Drop)]
pub struct Without<A: Marks, B: Marks> {
    pub one: A,
    pub other: B,
}

impl<A: Marks, B: Marks> Marks for Without<A, B> {
    ghost marked = { λ m t. A.marked m.one t && not (B.marked m.other t) };

    fn word(&self, k: usize) -> u64 {
        self.one.word(k) & !self.other.word(k)
    }

    fn group(&self, j: usize) -> u64 {
        self.one.group(j)
    }

    fn groups(&self) -> u64 {
        self.one.groups()
    }
}

/// The bits of a word from a place on.
pub(crate) fn bits_from(word: u64, place: u32) -> u64
    requires { place < 64 }
    ensures { (i : ℕ) → i < 64 → (bit_at result i == 1) ≡ (nat_le place i && (bit_at word i == 1)) }
{
    word & (u64::MAX << place)
}

/// The track of a bit.
pub(crate) fn track(k: usize, place: u32) -> TrackNo
    requires { 64 * k + place < 65535 }
    ensures { result ≡ 64 * k + place }
{
    TrackNo::new((64 * k) as u16 + place as u16).unwrap()
}

/// The least group from one on that may have a mark, or that none has.
fn next_group<M: Marks>(marks: &M, from: usize) -> usize
    requires { from ≤ 16 }
    ensures least { from ≤ result }
    ensures most { result ≤ 16 }
    ensures none { (q : ℕ) → 4096 * from ≤ q → q < 4096 * result → M.marked marks.now q ≡ false }
{
    let groups = bits_from(marks.groups(), from as u32);
    if groups == 0 {
        return GROUPS;
    }
    (groups.trailing_zeros() as usize).min(GROUPS)
}

/// The least word from one on that may have a mark, or that none has.
pub(crate) fn next_word<M: Marks>(marks: &M, from: usize) -> usize
    requires { from ≤ 1024 }
    ensures least { from ≤ result }
    ensures most { result ≤ 1024 }
    ensures none { (q : ℕ) → 64 * from ≤ q → q < 64 * result → M.marked marks.now q ≡ false }
    ensures last { from < 1024 → (q : ℕ) → 65535 ≤ q → M.marked marks.now q ≡ false }
{
    let mut k = from;
    while k < WORDS {
        let group = bits_from(marks.group(k / 64), (k % 64) as u32);
        if group != 0 {
            return k / 64 * 64 + group.trailing_zeros() as usize;
        }
        k = 64 * next_group(marks, k / 64 + 1);
    }
    WORDS
}

/// The least marked track from one on.
pub fn least_from<M: Marks>(marks: &M, from: u16) -> Option<TrackNo>
    ensures { IsLeastFrom from (M.marked marks.now) result }
{
    let from = usize::from(from);
    let mut k = next_word(marks, from / 64);
    while k < WORDS {
        let word = bits_from(marks.word(k), from.saturating_sub(64 * k) as u32);
        if word != 0 {
            return Some(track(k, word.trailing_zeros()));
        }
        k = next_word(marks, k + 1);
    }
    None
}

/// The least marked track.
#[tactic(auto, using(crate::proofs::Rising::least_is))]
pub fn first<M: Marks>(marks: &M) -> Option<TrackNo>
    ensures { result ≡ least 65535 (M.marked marks.now) }
{
    least_from(marks, 0)
}

/// The number of marked tracks.
pub fn count<M: Marks>(marks: &M) -> u16
    ensures value { result ≡ count_below 65535 (M.marked marks.now) }
    ensures range { result ≤ 65535 }
{
    let mut count = 0;
    let mut k = next_word(marks, 0);
    while k < WORDS {
        count += marks.word(k).count_ones();
        k = next_word(marks, k + 1);
    }
    count as u16
}

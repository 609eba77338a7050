ghost use Rattle.std.specs.Prelude.{◌≡◌, ◌==◌, length, replicate};
ghost use Rattle.std.specs.Ordering.{nat_cmp};
ghost use Rattle.std.specs.List.{list_all};
ghost use Rattle.std.specs.Cmp.Lexicographic.{slice_cmp};
ghost use Rattle.ckd_types.specs.Track.{two_bytes, cchh_bytes};
ghost use Rattle.ckd_rules.specs.Area.{given_taken};
ghost use Rattle.ckd_rules.specs.Searches.{id_bytes, compared, comparison_of, satisfies};

use ckd_types::{Cchh, Ccw, Comparison, RecId, SearchArea};
use std::cmp::Ordering;

fn two_bytes(n: u16) -> [u8; 2]
    ensures { result ≡ two_bytes n }
{
    [(n / 256) as u8, (n % 256) as u8]
}

/// A cylinder and a head, the high byte of each first.
pub fn cchh_bytes(cchh: Cchh) -> [u8; 4]
    ensures { result ≡ cchh_bytes cchh }
{
    let cc = two_bytes(cchh.cc);
    let hh = two_bytes(cchh.hh);
    [cc[0], cc[1], hh[0], hh[1]]
}

/// The five bytes of an id.
pub fn id_bytes(id: RecId) -> [u8; 5]
    ensures { result ≡ id_bytes id }
{
    let cchh = cchh_bytes(id.cchh);
    [cchh[0], cchh[1], cchh[2], cchh[3], id.r]
}

fn are_zeros(bytes: &[u8]) -> bool
    ensures { result ≡ list_all (λ byte. byte == 0) bytes.now }
{
    bytes.iter().all(|byte| *byte == 0)
}

/// Bytes against as many zeros.
#[tactic(auto, using(crate::proofs::AreaOrder::all_zeros, crate::proofs::AreaOrder::some_other))]
fn against_zeros(bytes: &[u8]) -> Ordering
    ensures { result ≡ slice_cmp nat_cmp bytes.now (replicate (length bytes.now) 0) }
{
    if are_zeros(bytes) {
        Ordering::Equal
    } else {
        Ordering::Greater
    }
}

/// The bytes that a word gives and its count reaches.
fn given_taken(ccw: &Ccw) -> &[u8]
    ensures { result.now ≡ given_taken ccw.now }
{
    let given = ccw.given.as_slice();
    &given[..given.len().min(usize::from(ccw.count))]
}

/// As many bytes of an area as the count moves, against those that a word gives. Those that are
/// missing are zeros.
pub fn compared(ccw: &Ccw, area: &[u8]) -> Ordering
    ensures { result ≡ compared ccw.now area.now }
{
    let moved = &area[..usize::from(ccw.count).min(area.len())];
    let given = given_taken(ccw);
    let count = given.len().min(moved.len());
    moved[..count]
        .cmp(&given[..count])
        .then(against_zeros(&moved[count..]))
}

/// What a search looks for in its area. A search of the home address compares for equality.
pub fn comparison_of(area: SearchArea) -> Comparison
    ensures { result ≡ comparison_of area }
{
    match area {
        SearchArea::Id(comparison) | SearchArea::Key(comparison) => comparison,
        SearchArea::Home => Comparison::Equal,
    }
}

/// Whether a search is satisfied, by how the record's bytes compare with those given.
pub fn satisfies(comparison: Comparison, order: Ordering) -> bool
    ensures { result ≡ satisfies comparison order }
{
    match comparison {
        Comparison::Equal => order.is_eq(),
        Comparison::High => order.is_gt(),
        Comparison::EqualOrHigh => order.is_ge(),
    }
}

ghost use Rattle.std.specs.Prelude.{◌≡◌, ◌<◌, IfSome, length};
ghost use Rattle.ckd_rules.specs.Finding.{record_of};
ghost use Rattle.ckd_rules.specs.Searches.{key_from, search_candidate};

use ckd_rules::{Place, home_from, if_there, next_id, next_key};
use ckd_types::SearchArea;
use track_image::TrackImage;

/// The first record with a key, from record `i` on.
#[tactic(auto, using(crate::proofs::Keys::key_here, crate::proofs::Keys::key_more, crate::proofs::Keys::key_none))]
fn key_from(image: &TrackImage, i: usize) -> Option<usize>
    ensures found { result ≡ key_from image.now.track.records i }
    ensures range { IfSome result (λ k. k < length image.now.track.records) }
{
    for k in i..image.len() {
        if !image.record_at(k).key().is_empty() {
            return Some(k);
        }
    }
    None
}

/// The record that a place shows to a search: of ids each record is one, of keys each record that
/// has one, and the home address is shown by the index alone.
pub fn search_candidate(image: &TrackImage, area: SearchArea, place: Place) -> Option<usize>
    requires { record_of place < length image.now.track.records }
    ensures shown { result ≡ search_candidate image.now.track.records area place }
    ensures there { IfSome result (λ i. i < length image.now.track.records) }
{
    let count = image.len();
    match area {
        SearchArea::Id(_) => if_there(count, next_id(place)),
        SearchArea::Key(_) => key_from(image, next_key(place)),
        SearchArea::Home => home_from(place),
    }
}

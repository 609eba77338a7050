ghost use Rattle.std.specs.Prelude.{◌≡◌, ◌<◌, ◌≤◌, Ok, length};
ghost use Rattle.ckd_rules.specs.Finding.{track_after};
ghost use Rattle.ckd_rules.specs.Facts.{HasRoom, Stands, Stays, IsHere, IsOnward, PassedOnce, LooksOn};
ghost use Rattle.ckd_rules.specs.Searches.{search_area, search_place, equal_after, search_after, search_status};
ghost use Rattle.ckd_rules.specs.Searches.{search_ended, search_found, search_sought, search_on};

use crate::candidate::search_candidate;
use crate::comparing::{cchh_bytes, compared, comparison_of, id_bytes, satisfies};
use ckd_rules::{After, Ending, Place, Sought, Stance, Turned, end, find_from, place_on, refuse};
use ckd_types::{Bytes, Ccw, Comparison, Search, SearchArea, UnitStatus};
use track_image::TrackImage;

fn search_place(area: SearchArea, i: usize) -> Place
    ensures { result ≡ search_place area i }
{
    match area {
        SearchArea::Id(_) => Place::Count(i),
        SearchArea::Key(_) => Place::Key(i),
        SearchArea::Home => Place::Home,
    }
}

/// Only a search that is satisfied by equal bytes lets a write follow. Own.
fn equal_after(area: SearchArea) -> After
    ensures { result ≡ equal_after area }
{
    match area {
        SearchArea::Id(Comparison::Equal) => After::IdEqual,
        SearchArea::Key(Comparison::Equal) => After::KeyEqual,
        SearchArea::Home => After::HomeEqual,
        _ => After::Other,
    }
}

fn search_after(area: SearchArea, met: bool) -> After
    ensures { result ≡ search_after area met }
{
    if met { equal_after(area) } else { After::Other }
}

fn search_status(met: bool) -> UnitStatus
    ensures { result ≡ search_status met }
{
    if met {
        UnitStatus::satisfied()
    } else {
        UnitStatus::normal()
    }
}

/// The end of a search of record `i`, whose area has these bytes.
fn search_found(
    area: SearchArea,
    stance: &mut Stance,
    ccw: &Ccw,
    i: usize,
    passes: u8,
    bytes: &[u8],
) -> Ending
    requires room { HasRoom stance.old }
    requires stands { Stands 65535 stance.old }
    requires passed { passes ≤ 1 }
    ensures stance { stance.new ≡ (search_found area stance.old ccw.now i passes bytes.now).stance }
    ensures ending { result ≡ (search_found area stance.old ccw.now i passes bytes.now).ending }
    ensures stays { Stays stance.old stance.new }
{
    let met = satisfies(comparison_of(area), compared(ccw, bytes));
    stance.place = search_place(area, i);
    stance.passes = passes;
    stance.after = search_after(area, met);
    end(stance, ccw, bytes.len(), search_status(met), Bytes::new())
}

/// Searches record `i`, or the home address.
fn search_here(
    image: &TrackImage,
    area: SearchArea,
    stance: &mut Stance,
    ccw: &Ccw,
    i: usize,
    passes: u8,
) -> Ending
    requires there { i < length image.now.track.records }
    requires room { HasRoom stance.old }
    requires stands { Stands 65535 stance.old }
    requires passed { passes ≤ 1 }
    ensures stance { stance.new ≡ (search_found area stance.old ccw.now i passes (search_area image.now.track area i)).stance }
    ensures ending { result ≡ (search_found area stance.old ccw.now i passes (search_area image.now.track area i)).ending }
    ensures stays { Stays stance.old stance.new }
{
    let record = image.record_at(i);
    match area {
        SearchArea::Id(_) => search_found(area, stance, ccw, i, passes, &id_bytes(record.id())),
        SearchArea::Key(_) => search_found(area, stance, ccw, i, passes, record.key()),
        SearchArea::Home => {
            search_found(area, stance, ccw, i, passes, &cchh_bytes(image.home()))
        }
    }
}

fn search_sought(
    image: &TrackImage,
    area: SearchArea,
    stance: &mut Stance,
    ccw: &Ccw,
    sought: Sought,
) -> Turned
    requires there { IsHere sought (λ i. i < length image.now.track.records) }
    requires after { IsOnward sought (λ t. track_after stance.old.extent stance.old.track ≡ Ok t) }
    requires passed { PassedOnce sought }
    requires room { HasRoom stance.old }
    requires stands { Stands 65535 stance.old }
    ensures turned { result ≡ (search_sought image.now.track area stance.old ccw.now sought).turned }
    ensures stance { stance.new ≡ (search_sought image.now.track area stance.old ccw.now sought).stance }
    ensures looks { LooksOn stance.old stance.new result }
{
    match sought {
        Sought::Here { index, passes } => {
            Turned::Ended(search_here(image, area, stance, ccw, index, passes))
        }
        Sought::Onward(t) => {
            stance.track = t;
            stance.place = Place::Index;
            Turned::Onward
        }
        Sought::Nowhere(sense) => Turned::Ended(refuse(stance, ccw, sense)),
    }
}

/// Compares the id, the key or the home address that comes next on the track that the chain is on
/// with the bytes that the word gives. No check of its word and its stance refuses the command. The
/// stance is changed in place: behind the command, or on the next track before its index.
///
/// What is compared, how it is compared and what the status says is IBM's rule (GA32-0099); own are
/// the place behind a record that isn't there, zeros for bytes that are not given, and where the
/// tracks of an extent end.
pub fn search(image: &TrackImage, stance: &mut Stance, ccw: &Ccw, search: Search) -> Turned
    requires room { HasRoom stance.old }
    requires stands { Stands 65535 stance.old }
    ensures turned { result ≡ (search_on image.now.track stance.old ccw.now search).turned }
    ensures stance { stance.new ≡ (search_on image.now.track stance.old ccw.now search).stance }
    ensures looks { LooksOn stance.old stance.new result }
{
    let area = search.area;
    let records = image.len();
    let place = place_on(records, stance.place);
    let first = search_candidate(image, area, place);
    let again = search_candidate(image, area, Place::Index);
    let sought = find_from(search.multitrack, stance, records, first, again);
    search_sought(image, area, stance, ccw, sought)
}

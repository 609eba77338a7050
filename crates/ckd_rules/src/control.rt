ghost use Rattle.std.specs.Prelude.{◌≡◌, ◌<◌, ◌^◌};
ghost use Rattle.ckd_rules.specs.Control.{controlled, went_to, extended, masked, opened_domain, place_for, placed, unseen_place, record_place, located};

use crate::ending::{end, refuse};
use crate::{After, Ending, Place, Stance};
use ckd_sense::no_record;
use ckd_types::{Bytes, Ccw, Domain, Extent, Operation, Orientation, TrackNo, UnitStatus};

/// The stance behind a command that neither searches, reads nor writes.
pub fn control(stance: &mut Stance)
    ensures { stance.new ≡ controlled stance.old }
{
    stance.passes = 0;
    stance.after = After::Other;
}

/// The chain is before the index of a track.
pub fn go_to(stance: &mut Stance, track: TrackNo)
    ensures { stance.new ≡ went_to stance.old track }
{
    control(stance);
    stance.track = track;
    stance.place = Place::Index;
}

/// The chain has an extent, and its mask.
pub fn extend(stance: &mut Stance, extent: Extent)
    ensures { stance.new ≡ extended stance.old extent }
{
    control(stance);
    stance.mask = extent.mask;
    stance.mask_set = true;
    stance.extent = Some(extent);
}

/// The chain has a mask.
pub fn set_mask(stance: &mut Stance, mask: u8)
    ensures { stance.new ≡ masked stance.old mask }
{
    control(stance);
    stance.mask = mask;
    stance.mask_set = true;
}

fn opened_domain(domain: &Domain) -> Option<Domain>
    ensures { result ≡ opened_domain domain.now }
{
    match domain.operation {
        Operation::Orient => None,
        _ => Some(*domain),
    }
}

fn place_for(domain: &Domain, place: Place) -> Place
    ensures { result ≡ place_for domain.now place }
{
    match domain.operation {
        Operation::ReadTracks => Place::Index,
        _ => place,
    }
}

/// The end of a locate record: the chain is on the track that was sought.
pub fn stand(stance: &mut Stance, ccw: &Ccw, domain: &Domain, place: Place) -> Ending
    requires commands { stance.old.commands < 4096 }
    requires moved { stance.old.moved < 2 ^ 21 }
    ensures stance { stance.new ≡ (placed stance.old ccw.now domain.now place).stance }
    ensures ending { result ≡ (placed stance.old ccw.now domain.now place).ending }
{
    let seek = domain.seek;
    control(stance);
    stance.domain = opened_domain(domain);
    stance.left = domain.count;
    stance.track = seek;
    stance.place = place_for(domain, place);
    end(stance, ccw, 16, UnitStatus::normal(), Bytes::new())
}

/// The place of an orientation that needs no look at the track.
pub fn unseen_place(orientation: Orientation) -> Option<Place>
    ensures { result ≡ unseen_place orientation }
{
    match orientation {
        Orientation::Count | Orientation::Body => None,
        Orientation::Home => Some(Place::Home),
        Orientation::Index => Some(Place::Index),
    }
}

fn record_place(orientation: Orientation, i: usize) -> Place
    ensures { result ≡ record_place orientation i }
{
    match orientation {
        Orientation::Count => Place::Count(i),
        Orientation::Body => Place::Body(i),
        Orientation::Home => Place::Home,
        Orientation::Index => Place::Index,
    }
}

/// The end of a locate record that looked for its record: where it was found, if it was.
pub fn locate(stance: &mut Stance, ccw: &Ccw, domain: &Domain, found: Option<usize>) -> Ending
    requires commands { stance.old.commands < 4096 }
    requires moved { stance.old.moved < 2 ^ 21 }
    ensures stance { stance.new ≡ (located stance.old ccw.now domain.now found).stance }
    ensures ending { result ≡ (located stance.old ccw.now domain.now found).ending }
{
    match found {
        Some(i) => stand(stance, ccw, domain, record_place(domain.orientation, i)),
        None => refuse(stance, ccw, no_record()),
    }
}

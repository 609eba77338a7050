ghost use Rattle.std.specs.Prelude.{◌≡◌, ◌<◌, IfOk, Ok, OnErr, OnOk, length};
ghost use Rattle.ckd_rules.specs.Finding.{track_after, place_on, if_there, find_from};
ghost use Rattle.ckd_rules.specs.Reads.{record_at};
ghost use Rattle.ckd_rules.specs.Facts.{HasRoom, Stands, Stays, IsHere, IsOnward, Turns};
ghost use Rattle.ckd_rules.specs.Updates.{after_update, update_ended, update_data, update_key_data, update_record, update_sought, update_on};

use crate::area::given_at;
use ckd_rules::{
    After, Ending, Place, Sought, Stance, Turned, end, find_from, if_there, next_area, place_on,
    refuse, spend_one, status_of,
};
use ckd_types::{Bytes, Ccw, Edit, NoMemory};
use std::alloc::Global;
use track_image::TrackImage;

/// In a domain every update is an update write, which no format follows.
fn after_update(in_domain: bool) -> After
    ensures { result ≡ after_update in_domain }
{
    if in_domain {
        After::Other
    } else {
        After::Wrote
    }
}

/// The end of an update of record `i`.
fn update_ended(
    in_domain: bool,
    stance: &mut Stance,
    ccw: &Ccw,
    i: usize,
    body: &[u8],
    area: usize,
) -> Ending
    requires room { HasRoom stance.old }
    requires stands { Stands 65535 stance.old }
    ensures stance { stance.new ≡ (update_ended in_domain stance.old ccw.now i body.now area).stance }
    ensures ending { result ≡ (update_ended in_domain stance.old ccw.now i body.now area).ending }
    ensures stays { Stays stance.old stance.new }
{
    stance.place = Place::Body(i);
    stance.passes = 0;
    stance.after = after_update(in_domain);
    spend_one(stance);
    end(stance, ccw, area, status_of(body), Bytes::new())
}

/// Writes the data of record `i`. An end of file has none.
fn update_data(
    alloc: Global,
    image: &TrackImage,
    in_domain: bool,
    stance: &mut Stance,
    ccw: &Ccw,
    i: usize,
) -> Result<Turned, NoMemory>
    requires place { i < length image.now.track.records }
    requires room { HasRoom stance.old }
    requires stands { Stands 65535 stance.old }
    ensures turned { IfOk result (λ turned. turned ≡ (update_data in_domain stance.old ccw.now i (record_at image.now.track.records i)).turned) }
    ensures stance { OnOk result (stance.new ≡ (update_data in_domain stance.old ccw.now i (record_at image.now.track.records i)).stance) }
    ensures turns { IfOk result (Turns image.now.geometry image.now.track.records stance.old stance.new) }
    ensures same { OnErr result (stance.new ≡ stance.old) }
{
    let record = image.record_at(i);
    let body = record.body();
    if body.is_empty() {
        return Ok(Turned::Ended(update_ended(in_domain, stance, ccw, i, body, 0)));
    }
    let edit = Edit::Update {
        index: i,
        key: Bytes::from_slice(alloc, record.key())?,
        body: given_at(alloc, ccw, 0, body.len())?,
    };
    let ending = update_ended(in_domain, stance, ccw, i, body, body.len());
    Ok(Turned::Edits(edit, ending))
}

/// Writes key and data of record `i`, also the key of an end of file.
fn update_key_data(
    alloc: Global,
    image: &TrackImage,
    in_domain: bool,
    stance: &mut Stance,
    ccw: &Ccw,
    i: usize,
) -> Result<Turned, NoMemory>
    requires place { i < length image.now.track.records }
    requires room { HasRoom stance.old }
    requires stands { Stands 65535 stance.old }
    ensures turned { IfOk result (λ turned. turned ≡ (update_key_data in_domain stance.old ccw.now i (record_at image.now.track.records i)).turned) }
    ensures stance { OnOk result (stance.new ≡ (update_key_data in_domain stance.old ccw.now i (record_at image.now.track.records i)).stance) }
    ensures turns { IfOk result (Turns image.now.geometry image.now.track.records stance.old stance.new) }
    ensures same { OnErr result (stance.new ≡ stance.old) }
{
    let record = image.record_at(i);
    let key = record.key().len();
    let body = record.body();
    let edit = Edit::Update {
        index: i,
        key: given_at(alloc, ccw, 0, key)?,
        body: given_at(alloc, ccw, key, body.len())?,
    };
    let ending = update_ended(in_domain, stance, ccw, i, body, key + body.len());
    Ok(Turned::Edits(edit, ending))
}

fn update_record(
    alloc: Global,
    image: &TrackImage,
    with_key: bool,
    in_domain: bool,
    stance: &mut Stance,
    ccw: &Ccw,
    i: usize,
) -> Result<Turned, NoMemory>
    requires place { i < length image.now.track.records }
    requires room { HasRoom stance.old }
    requires stands { Stands 65535 stance.old }
    ensures turned { IfOk result (λ turned. turned ≡ (update_record with_key in_domain stance.old ccw.now i (record_at image.now.track.records i)).turned) }
    ensures stance { OnOk result (stance.new ≡ (update_record with_key in_domain stance.old ccw.now i (record_at image.now.track.records i)).stance) }
    ensures turns { IfOk result (Turns image.now.geometry image.now.track.records stance.old stance.new) }
    ensures same { OnErr result (stance.new ≡ stance.old) }
{
    if with_key {
        update_key_data(alloc, image, in_domain, stance, ccw, i)
    } else {
        update_data(alloc, image, in_domain, stance, ccw, i)
    }
}

fn update_sought(
    alloc: Global,
    image: &TrackImage,
    with_key: bool,
    in_domain: bool,
    stance: &mut Stance,
    ccw: &Ccw,
    sought: Sought,
) -> Result<Turned, NoMemory>
    requires there { IsHere sought (λ i. i < length image.now.track.records) }
    requires after { IsOnward sought (λ t. track_after stance.old.extent stance.old.track ≡ Ok t) }
    requires room { HasRoom stance.old }
    requires stands { Stands 65535 stance.old }
    ensures turned { IfOk result (λ turned. turned ≡ (update_sought with_key in_domain image.now.track.records stance.old ccw.now sought).turned) }
    ensures stance { OnOk result (stance.new ≡ (update_sought with_key in_domain image.now.track.records stance.old ccw.now sought).stance) }
    ensures turns { IfOk result (Turns image.now.geometry image.now.track.records stance.old stance.new) }
    ensures same { OnErr result (stance.new ≡ stance.old) }
{
    match sought {
        Sought::Here { index, .. } => {
            update_record(alloc, image, with_key, in_domain, stance, ccw, index)
        }
        Sought::Onward(t) => {
            stance.track = t;
            stance.place = Place::Index;
            Ok(Turned::Onward)
        }
        Sought::Nowhere(sense) => Ok(Turned::Ended(refuse(stance, ccw, sense))),
    }
}

/// Writes the data, or key and data, of the record that comes next.
pub fn update_on(
    alloc: Global,
    image: &TrackImage,
    with_key: bool,
    in_domain: bool,
    stance: &mut Stance,
    ccw: &Ccw,
) -> Result<Turned, NoMemory>
    requires room { HasRoom stance.old }
    requires stands { Stands 65535 stance.old }
    ensures turned { IfOk result (λ turned. turned ≡ (update_on with_key in_domain image.now.track stance.old ccw.now).turned) }
    ensures stance { OnOk result (stance.new ≡ (update_on with_key in_domain image.now.track stance.old ccw.now).stance) }
    ensures turns { IfOk result (Turns image.now.geometry image.now.track.records stance.old stance.new) }
    ensures same { OnErr result (stance.new ≡ stance.old) }
{
    let records = image.len();
    let place = place_on(records, stance.place);
    let first = if_there(records, next_area(with_key, place));
    let again = if_there(records, 1);
    let sought = find_from(in_domain, stance, records, first, again);
    update_sought(alloc, image, with_key, in_domain, stance, ccw, sought)
}

ghost use Rattle.std.specs.Prelude.{◌≡◌, ◌<◌, ◌≤◌, Ok, IfOk, IfSome, IsSome, OnErr, OnOk, length};
ghost use Rattle.ckd_rules.specs.Finding.{record_of, track_after, find_on};
ghost use Rattle.ckd_rules.specs.Facts.{HasRoom, Stands, Stays, IsHere, IsOnward, PassedOnce, LooksOn};
ghost use Rattle.ckd_rules.specs.Reads.{read_candidate, read_place, read_passes, found_after, read_after};
ghost use Rattle.ckd_rules.specs.Reads.{read_status, read_stance, read_ended, read_sought, read_on};

use crate::area::{area_len, sent_of};
use ckd_rules::{
    After, Ending, Place, Sought, Stance, Turned, end, find_from, home_from, if_there, next_count,
    next_data, next_key, place_on, refuse, spend_one, status_of, zero_from,
};
use ckd_types::{Ccw, NoMemory, Read, ReadArea, UnitStatus};
use std::alloc::Global;
use track_image::TrackImage;

/// The record that a place shows to a read, on a track of so many.
fn read_candidate(records: usize, area: ReadArea, place: Place) -> Option<usize>
    requires some { 0 < records }
    requires within { record_of place < records }
    ensures shown { result ≡ read_candidate records area place }
    ensures range { IfSome result (λ i. i < records) }
{
    match area {
        ReadArea::Home => home_from(place),
        ReadArea::Zero => zero_from(place),
        ReadArea::Count | ReadArea::CountKeyData | ReadArea::Multiple => {
            if_there(records, next_count(place))
        }
        ReadArea::Data => if_there(records, next_data(place)),
        ReadArea::KeyData => if_there(records, next_key(place)),
        ReadArea::Track => Some(0),
    }
}

/// Where a read finds its record on a track of so many.
fn find_read(records: usize, read: Read, stance: &Stance) -> Sought
    requires some { 0 < records }
    requires passes { stance.now.passes ≤ 1 }
    ensures sought { result ≡ find_on read.multitrack stance.now records (read_candidate records read.area) }
    ensures after { IsOnward result (λ t. track_after stance.now.extent stance.now.track ≡ Ok t) }
    ensures there { IsHere result (λ i. i < records) }
    ensures passed { PassedOnce result }
{
    let first = read_candidate(records, read.area, place_on(records, stance.place));
    let again = read_candidate(records, read.area, Place::Index);
    find_from(read.multitrack, stance, records, first, again)
}

fn read_place(records: usize, area: ReadArea, i: usize) -> Place
    requires { 0 < records }
    ensures { result ≡ read_place records area i }
{
    match area {
        ReadArea::Home => Place::Home,
        ReadArea::Count => Place::Count(i),
        ReadArea::Multiple | ReadArea::Track => Place::Body(records - 1),
        _ => Place::Body(i),
    }
}

/// Read count and read record 0 leave the passes of the index as they are. Own.
fn read_passes(area: ReadArea, passes: u8) -> u8
    requires { passes ≤ 1 }
    ensures passes { result ≡ read_passes area passes }
    ensures once { result ≤ 1 }
{
    match area {
        ReadArea::Zero | ReadArea::Count => passes,
        _ => 0,
    }
}

/// A read of data behind a record that was found or written.
fn found_after(after: After) -> After
    ensures { result ≡ found_after after }
{
    match after {
        After::IdEqual | After::KeyEqual | After::Found | After::Wrote => After::Found,
        After::Other | After::HomeEqual => After::Other,
    }
}

fn read_after(area: ReadArea, after: After) -> After
    ensures { result ≡ read_after area after }
{
    match area {
        ReadArea::Data | ReadArea::KeyData => found_after(after),
        _ => After::Other,
    }
}

/// Only the reads of data, and of key and data, tell an end of file. Own.
fn read_status(area: ReadArea, body: &[u8]) -> UnitStatus
    ensures { result ≡ read_status area body.now }
{
    match area {
        ReadArea::Data | ReadArea::KeyData => status_of(body),
        _ => UnitStatus::normal(),
    }
}

/// The stance behind a read of record `i`, or from it on, on a track of so many.
fn pass_record(stance: &mut Stance, records: usize, area: ReadArea, i: usize, passes: u8)
    requires some { 0 < records }
    requires passed { passes ≤ 1 }
    requires left { IsSome stance.old.domain → 0 < stance.old.left }
    ensures stance { stance.new ≡ read_stance records area stance.old i passes }
    ensures track { stance.new.track ≡ stance.old.track }
    ensures extent { stance.new.extent ≡ stance.old.extent }
    ensures left { IsSome stance.new.domain → 0 < stance.new.left }
    ensures once { stance.new.passes ≤ 1 }
    ensures commands { stance.new.commands ≡ stance.old.commands }
    ensures moved { stance.new.moved ≡ stance.old.moved }
{
    stance.place = read_place(records, area, i);
    stance.passes = read_passes(area, passes);
    stance.after = read_after(area, stance.after);
    spend_one(stance);
}

/// The end of a read of record `i`, or of the track from it on.
fn read_ended(
    alloc: Global,
    image: &TrackImage,
    area: ReadArea,
    stance: &mut Stance,
    ccw: &Ccw,
    i: usize,
    passes: u8,
) -> Result<Ending, NoMemory>
    requires place { i < length image.now.track.records }
    requires passed { passes ≤ 1 }
    requires room { HasRoom stance.old }
    requires stands { Stands 65535 stance.old }
    ensures stance { OnOk result (stance.new ≡ (read_ended image.now.track area stance.old ccw.now i passes).stance) }
    ensures ending { IfOk result (λ ending. ending ≡ (read_ended image.now.track area stance.old ccw.now i passes).ending) }
    ensures stays { OnOk result (Stays stance.old stance.new) }
    ensures same { OnErr result (stance.new ≡ stance.old) }
{
    let len = area_len(image, area, i);
    let sent = sent_of(alloc, image, area, ccw, i, len)?;
    let status = read_status(area, image.record_at(i).body());
    pass_record(stance, image.len(), area, i, passes);
    Ok(end(stance, ccw, len, status, sent))
}

fn read_sought(
    alloc: Global,
    image: &TrackImage,
    area: ReadArea,
    stance: &mut Stance,
    ccw: &Ccw,
    sought: Sought,
) -> Result<Turned, NoMemory>
    requires there { IsHere sought (λ i. i < length image.now.track.records) }
    requires after { IsOnward sought (λ t. track_after stance.old.extent stance.old.track ≡ Ok t) }
    requires passed { PassedOnce sought }
    requires room { HasRoom stance.old }
    requires stands { Stands 65535 stance.old }
    ensures turned { IfOk result (λ turned. turned ≡ (read_sought image.now.track area stance.old ccw.now sought).turned) }
    ensures stance { OnOk result (stance.new ≡ (read_sought image.now.track area stance.old ccw.now sought).stance) }
    ensures looks { IfOk result (LooksOn stance.old stance.new) }
    ensures same { OnErr result (stance.new ≡ stance.old) }
{
    match sought {
        Sought::Here { index, passes } => {
            let ending = read_ended(alloc, image, area, stance, ccw, index, passes)?;
            Ok(Turned::Ended(ending))
        }
        Sought::Onward(t) => {
            stance.track = t;
            stance.place = Place::Index;
            Ok(Turned::Onward)
        }
        Sought::Nowhere(sense) => Ok(Turned::Ended(refuse(stance, ccw, sense))),
    }
}

/// What a read does on the track that the chain is on (IBM, GA32-0099): it ends there with what it
/// sends, or goes on to the next track. No check of its word and its stance refuses the command. A
/// read track is not moved to the index of a next track: the stance is before an index already. The
/// stance is changed in place: behind the command, or on the next track before its index. After want
/// of memory it is as it was.
pub fn read(
    alloc: Global,
    image: &TrackImage,
    stance: &mut Stance,
    ccw: &Ccw,
    read: Read,
) -> Result<Turned, NoMemory>
    requires room { HasRoom stance.old }
    requires stands { Stands 65535 stance.old }
    ensures turned { IfOk result (λ turned. turned ≡ (read_on image.now.track stance.old ccw.now read).turned) }
    ensures stance { OnOk result (stance.new ≡ (read_on image.now.track stance.old ccw.now read).stance) }
    ensures looks { IfOk result (LooksOn stance.old stance.new) }
    ensures same { OnErr result (stance.new ≡ stance.old) }
{
    let sought = find_read(image.len(), read, stance);
    read_sought(alloc, image, read.area, stance, ccw, sought)
}

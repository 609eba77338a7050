ghost use Rattle.std.specs.Prelude.{◌≡◌, ◌<◌, ◌≤◌, ◌*◌, [], None, Some, IfOk, length, slice_index_or, slice_set};
ghost use Rattle.device_outside.specs.Disk.{empty_bytes, empty_contents};
ghost use Rattle.device_outside.specs.Last.{is_on};

use crate::TrackBuffer;
use crate::rooms::Rooms;
use ckd_types::{HEADS, NoMemory, TrackNo, cchh_of};
use std::alloc::Global;
use std::marker::Model;

/// The bytes of an empty track.
#[tactic(auto, unfolding(crate::specs::Disk::empty_bytes))]
fn empty_bytes(t: TrackNo) -> [u8; 29]
    ensures { result ≡ empty_bytes t }
{
    let place = cchh_of(t);
    let [c, d] = [(place.cc / 256 % 256) as u8, (place.cc % 256) as u8];
    let [h, i] = [(place.hh / 256 % 256) as u8, (place.hh % 256) as u8];
    [
        0, c, d, h, i, c, d, h, i, 0, 0, 0, 8, 0, 0, 0, 0, 0, 0, 0, 0, 0xff, 0xff, 0xff, 0xff,
        0xff, 0xff, 0xff, 0xff,
    ]
}

/// The empty tracks of this many cylinders.
fn empty_tracks(alloc: Global, cylinders: u16) -> Result<Rooms, NoMemory>
    requires { cylinders ≤ 4369 }
    ensures held { IfOk result (λ made. made ≡ empty_contents (cylinders * 15)) }
    ensures tracks { IfOk result (λ made. length made ≡ cylinders * 15) }
{
    let count = cylinders * HEADS;
    let mut tracks = Rooms::new(alloc, usize::from(count))?;
    for n in 0..count {
        tracks.set(usize::from(n), &empty_bytes(TrackNo::new(n).unwrap()));
    }
    Ok(tracks)
}

/// Where the bytes last delivered are: nowhere, on the track that they were read from, or apart.
#[derive(Clone, Copy, Debug)]
enum Last {
    Nothing,
    Of(usize),
    Kept,
}

/// Whether the bytes last delivered are on this track.
fn is_on(last: Last, at: usize) -> bool
    ensures { result ≡ is_on last at }
{
    match last {
        Last::Of(from) => from == at,
        _ => false,
    }
}

/// Tracks of bytes, and the bytes that were delivered last: a write over these puts them apart first.
#[derive(Drop)]
pub(crate) struct Tracks {
    tracks: Rooms,
    last: Last,
    kept: TrackBuffer,
}

impl Model for Tracks {
    ghost use Rattle.device_outside.specs.Last.{Held, delivered_by};

    ghost Value = { Held };

    ghost view = { λ v. record { tracks = v.tracks; delivered = delivered_by v.last v.tracks v.kept } };
}

impl Tracks {
    pub(crate) fn new(alloc: Global, cylinders: u16) -> Result<Tracks, NoMemory>
        requires { cylinders ≤ 4369 }
        ensures held { IfOk result (λ made. made ≡ record { tracks = empty_contents (cylinders * 15); delivered = None }) }
        ensures tracks { IfOk result (λ made. length made.tracks ≡ cylinders * 15) }
    {
        Ok(Tracks {
            tracks: empty_tracks(alloc, cylinders)?,
            last: Last::Nothing,
            kept: TrackBuffer::new(alloc)?,
        })
    }

    pub(crate) fn len(&self) -> usize
        ensures { result ≡ length self.now.tracks }
    {
        self.tracks.len()
    }

    pub(crate) fn track(&self, t: TrackNo) -> &[u8]
        requires { t < length self.now.tracks }
        ensures { result.now ≡ slice_index_or self.now.tracks t [] }
    {
        self.tracks.bytes(usize::from(t.get()))
    }

    pub(crate) fn deliver(&mut self, t: TrackNo, into: &mut TrackBuffer)
        requires { t < length self.old.tracks }
        ensures into { into.new ≡ slice_index_or self.old.tracks t [] }
        ensures held { self.new ≡ record self.old { delivered = Some (slice_index_or self.old.tracks t []) } }
    {
        let at = usize::from(t.get());
        into.set(self.tracks.bytes(at));
        self.last = Last::Of(at);
    }

    pub(crate) fn put(&mut self, t: TrackNo, bytes: &[u8])
        requires track { t < length self.old.tracks }
        requires most { length bytes.now ≤ 65536 }
        ensures { self.new ≡ record self.old { tracks = slice_set self.old.tracks t bytes.now } }
    {
        let at = usize::from(t.get());
        if is_on(self.last, at) {
            self.kept.set(self.tracks.bytes(at));
            self.tracks.set(at, bytes);
            self.last = Last::Kept;
            return;
        }
        self.tracks.set(at, bytes);
    }
}

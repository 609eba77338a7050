ghost use Rattle.std.specs.Prelude.{◌≡◌, ℕ, IfOk, is_some, true};
ghost use Rattle.device_outside.specs.Keeper.{Heard};
ghost use Rattle.device_outside.specs.Outside.{Ran, where_ok};
ghost use Rattle.device_defs.specs.Contents.{contents};
ghost use Rattle.device_defs.specs.Peek.{peek_usage, peek_track, peeked};
ghost use Rattle.device_store.specs.Leaves.{KeepsHalfWrite};
ghost use Rattle.device_store.specs.Looks.{StoreOf, imaged, in_half, peeked_by, IsHalfCopied, IsPeeked, IsThere};
ghost use Rattle.device_store.specs.State.{state_of, outside, had, HasTrack, TakesTracks};

use crate::{DeviceStore, Looked, Peeked};
use ckd_types::{Mode, NoMemory, Side, TrackNo};
use device_defs::Usage;
use device_outside::{Keep, Port, Volume};
use track_image::TrackImage;

fn peek_usage() -> Usage
    ensures { result ≡ peek_usage }
{
    Usage {
        mode: Mode::InhibitLoad,
        inhibit: true,
        last: None,
        provisional: false,
    }
}

fn peeked(looked: Looked) -> Peeked
    ensures is { (s : StoreOf) (t : ℕ) → peeked_by s t result ≡ peeked (imaged s t looked) }
    ensures there { (s : StoreOf) (t : ℕ) → IsThere s t looked → IsPeeked s t result }
{
    match looked {
        Looked::Frame => Peeked::Frame,
        Looked::Has(image) => Peeked::Track(image),
        Looked::NoBytes(Some(side)) => Peeked::Fault(side),
        Looked::NoBytes(None) => Peeked::Fault(Side::A),
        Looked::BadTrack(side) => Peeked::BadBytes(side),
    }
}

impl<V: Volume> DeviceStore<V> {
    /// Whether an open half write alone has a track.
    fn is_in_half(&self, t: TrackNo) -> bool
        ensures { result ≡ in_half (state_of self.now) t }
    {
        self.is_half_open(t) && !self.frames.has(t) && !self.has_level(t)
    }

    /// A copy of the image of the open half write.
    fn half_copied(&self) -> Result<Peeked, NoMemory>
        requires { is_some self.now.half ≡ true }
        ensures { IfOk result (IsHalfCopied self.now.half) }
    {
        match &self.half {
            None => unreachable!(),
            Some(half) => Ok(Peeked::Track(half.image.copy(self.alloc)?)),
        }
    }

    /// A look at one track past the channel. It is read as a command does in a mode that loads nothing.
    pub fn peek<P: Port, K: Keep<TrackImage>>(
        &mut self,
        t: TrackNo,
        port: &mut P,
        keep: &mut K,
    ) -> Result<Peeked, NoMemory>
        requires track { HasTrack self.old t }
        requires takes { TakesTracks K.takes keep.old self.old }
        ensures leaves { KeepsHalfWrite self.old self.new }
        ensures takes { TakesTracks K.takes keep.new self.new }
        ensures there { IfOk result (IsPeeked (state_of self.new) t) }
        ensures run { Ran (where_ok result) (Heard K.hears K.takes) (peek_track contents (state_of self.old) t) (outside (P.view port.old) self.old keep.old)
            (state_of self.new) (had (peeked_by (state_of self.new) t) result) (outside (P.view port.new) self.new keep.new) }
    {
        if self.lost.has(t) {
            return Ok(Peeked::Lost);
        }
        if self.is_in_half(t) {
            return self.half_copied();
        }
        match self.image(&peek_usage(), t, port, keep) {
            Err(NoMemory) => Err(NoMemory),
            Ok(looked) => Ok(peeked(looked)),
        }
    }
}

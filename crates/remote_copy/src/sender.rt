ghost use Rattle.std.specs.Prelude.{◌≡◌};
ghost use Rattle.remote_copy.specs.Linking.{IsFarImage};
ghost use Rattle.remote_copy.specs.declared.state.MirrorState.TheVariants.{Level};
ghost use Rattle.remote_copy.specs.Sending.{IsSent, counted_at, hears_sent, is_put, takes_sent};

use crate::{Link, MirrorState};
use ckd_outside::Failed;
use ckd_types::{DeviceNo, NoMemory, TrackNo};
use device_outside::{Keep, counted};
use std::marker::Model;
use track_image::TrackImage;

/// What hears of the firm tracks of a device, and puts them on a link.
#[derive(Drop)]
pub struct Sender<L: Link> {
    link: L,
    device: DeviceNo,
    sent: u64,
    state: MirrorState,
}

impl<L: Link> Model for Sender<L> {
    ghost use Rattle.remote_copy.specs.Sending.{SenderView};

    ghost Value = { SenderView };

    ghost view = { λ s. record { device = s.device; sent = s.sent; state = s.state; link = L.view s.link } };
}

impl<L: Link> Sender<L> {
    /// Nothing was put yet.
    pub(crate) fn new(device: DeviceNo, link: L) -> Sender<L>
        ensures { result ≡ record { device = device; sent = 0; state = Level; link = L.view link } }
    {
        Sender {
            link,
            device,
            sent: 0,
            state: MirrorState::Level,
        }
    }

    pub(crate) fn device(&self) -> DeviceNo
        ensures { result ≡ self.now.device }
    {
        self.device
    }

    pub(crate) fn state(&self) -> MirrorState
        ensures { result ≡ self.now.state }
    {
        self.state
    }

    pub(crate) fn link(&self) -> &L
        ensures { L.view result.now ≡ self.now.link }
    {
        &self.link
    }

    pub(crate) fn set_state(&mut self, state: MirrorState)
        ensures { self.new ≡ record self.old { state = state } }
    {
        self.state = state;
    }

    /// Puts a track, whatever the state. A put that fails suspends.
    pub(crate) fn put(&mut self, t: TrackNo, now: &TrackImage) -> Result<(), Failed>
        requires { IsFarImage self.old.link t now.now }
        ensures { IsSent self.old t now.now.track result self.new }
    {
        match self.link.put(t, now) {
            Ok(()) => {
                self.count();
                Ok(())
            }
            Err(Failed) => {
                self.state = MirrorState::Suspended { sent: self.sent };
                Err(Failed)
            }
        }
    }

    fn count(&mut self)
        ensures { self.new ≡ record self.old { sent = counted_at self.old.state self.old.sent } }
    {
        match self.state {
            MirrorState::Level => self.sent = counted(self.sent),
            _ => {}
        }
    }

    fn puts(&self, t: TrackNo) -> bool
        ensures { result ≡ is_put self.now.state t }
    {
        match self.state {
            MirrorState::Level => true,
            MirrorState::Suspended { .. } => false,
            MirrorState::Copying { below } => t.get() < below,
        }
    }
}

impl<L: Link> Keep<TrackImage> for Sender<L> {
    ghost hears = { hears_sent };

    ghost takes = { takes_sent };

    fn before_edit(
        &mut self,
        _d: DeviceNo,
        _t: TrackNo,
        _old: &TrackImage,
    ) -> Result<(), NoMemory> {
        Ok(())
    }

    fn firm(&mut self, d: DeviceNo, t: TrackNo, now: &TrackImage) {
        if d == self.device && self.puts(t) {
            let _put = self.put(t, now);
        }
    }
}

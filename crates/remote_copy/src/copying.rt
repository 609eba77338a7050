ghost use Rattle.std.specs.Prelude.{◌≡◌, ◌<◌, ◌*◌, IfOk, IfSome, Ok, OnOk, true};
ghost use Rattle.ckd_outside.specs.Causes.{Rose};
ghost use Rattle.device_core.specs.State.{device_of};
ghost use Rattle.device_store.specs.Looks.{IsPeeked, peeked_by};
ghost use Rattle.device_defs.specs.Store.{tracks_of};
ghost use Rattle.subsystem_laws.specs.Looking.{is_written_at};
ghost use Rattle.subsystem_core.specs.Devices.{device_at};
ghost use Rattle.subsystem_core.specs.Frames.{HasSameDevices};
ghost use Rattle.remote_copy.specs.declared.remote.Remote.TheVariants.{LinkFault};
ghost use Rattle.remote_copy.specs.Copies.{AnswersAs, AnswersBy, CopiedBy, IsImageFound, LooksAt, LooksToCopy, MayPut, PutsCopy, gets_suspended};
ghost use Rattle.remote_copy.specs.Following.{Follows, IsFarFor};
ghost use Rattle.remote_copy.specs.Linking.{IsFarImage};
ghost use Rattle.remote_copy.specs.Mirroring.{IsMirror, MirrorRun, copied_to, is_waiting, mirror_copied, next_track};
ghost use Rattle.remote_copy.specs.Sending.{is_suspended};

use crate::{Link, Mirror, MirrorState, Remote, Sender};
use ckd_outside::Failed;
use ckd_types::{HEADS, NoMemory, TrackNo};
use device_core::{Device, HalfOrigin};
use device_outside::Volume;
use subsystem_core::Peeked;
use track_image::TrackImage;

fn is_suspended(state: MirrorState) -> bool
    ensures { result ≡ is_suspended state }
{
    match state {
        MirrorState::Suspended { .. } => true,
        _ => false,
    }
}

/// Whether a put failed between these.
fn gets_suspended(before: MirrorState, now: MirrorState) -> bool
    ensures { result ≡ gets_suspended before now }
{
    is_suspended(now) && !is_suspended(before)
}

/// The next track to be copied.
fn next_track(state: MirrorState) -> Option<u16>
    ensures { result ≡ next_track state }
{
    match state {
        MirrorState::Level => None,
        MirrorState::Suspended { .. } => Some(0),
        MirrorState::Copying { below } => Some(below),
    }
}

/// The state behind a copy of track `t` of so many.
fn copied_to(tracks: u16, t: TrackNo) -> MirrorState
    ensures { result ≡ copied_to tracks t }
{
    let below = t.get() + 1;
    if below == tracks {
        MirrorState::Level
    } else {
        MirrorState::Copying { below }
    }
}

/// Whether a half write is open on a track that isn't of the background.
fn is_written_at<V: Volume>(device: &Device<V>, t: TrackNo) -> bool
    ensures { result ≡ is_written_at (device_of device.now).store.half t }
{
    match device.half_of() {
        Some((_, HalfOrigin::Background)) => false,
        Some((track, _)) => track == t,
        None => false,
    }
}

fn is_waiting<V: Volume>(device: &Device<V>, t: TrackNo) -> bool
    ensures { result ≡ is_waiting (device_of device.now).store t }
{
    is_written_at(device, t) || device.loose(t)
}

/// Puts the image of a track that is copied.
fn put_copy<L: Link>(sender: &mut Sender<L>, tracks: u16, t: TrackNo, image: &TrackImage) -> Remote
    requires { IsFarImage sender.old.link t image.now }
    ensures { PutsCopy tracks t image.now.track sender.old result sender.new }
{
    match sender.put(t, image) {
        Ok(()) => {
            sender.set_state(copied_to(tracks, t));
            Remote::Copied(t)
        }
        Err(Failed) => Remote::LinkFault,
    }
}

/// Puts what a look at a track of the device found, or tells why there is nothing to put.
fn put_found<V: Volume, L: Link>(
    device: &Device<V>,
    sender: &mut Sender<L>,
    t: TrackNo,
    peeked: Peeked,
) -> Remote
    requires fits { IsFarFor sender.old.link device.now }
    requires track { t < tracks_of (device_of device.now).store }
    requires there { IsPeeked (device_of device.now).store t peeked }
    requires image { IsImageFound (device_of device.now).store.geometry t (peeked_by (device_of device.now).store t peeked) }
    ensures { AnswersBy (tracks_of (device_of device.now).store) t (peeked_by (device_of device.now).store t peeked) sender.old result sender.new }
{
    let tracks = device.cylinders() * HEADS;
    match peeked {
        Peeked::Frame => put_copy(sender, tracks, t, device.frame_image(t)),
        Peeked::Track(image) => put_copy(sender, tracks, t, &image),
        Peeked::Lost => Remote::Lost(t),
        Peeked::Fault(side) => Remote::Fault(side),
        Peeked::BadBytes(side) => Remote::BadBytes(side),
    }
}

impl<V: Volume, L: Link> Mirror<V, L> {
    /// A look at a track of the device, with the sender as keeper.
    fn look(&mut self, t: TrackNo) -> Result<Peeked, NoMemory>
        requires track { IfSome (device_at self.old.sub.devices.items self.old.sender.device) (λ x. t < tracks_of (device_of x).store) }
        ensures numbers { HasSameDevices self.old.sub self.new.sub }
        ensures follows { Follows self.old.sender self.new.sender }
        ensures found { IfSome (device_at self.old.sub.devices.items self.old.sender.device) (λ x. IfSome (device_at self.new.sub.devices.items
            self.new.sender.device) (LooksAt t self.old.sub self.old.sender x result self.new.sub self.new.sender)) }
    {
        let d = self.sender.device();
        self.sub.peek_track_with(d, t, &mut self.sender)
    }

    /// Puts what was found of a track.
    fn put_next(&mut self, t: TrackNo, peeked: Peeked) -> Remote
        requires found { IfSome (device_at self.old.sub.devices.items self.old.sender.device) (λ y. MayPut t y peeked) }
        ensures sub { self.new.sub ≡ self.old.sub }
        ensures follows { Follows self.old.sender self.new.sender }
        ensures answers { IfSome (device_at self.old.sub.devices.items self.old.sender.device) (λ y. AnswersBy (tracks_of (device_of y).store) t
            (peeked_by (device_of y).store t peeked) self.old.sender result self.new.sender) }
    {
        let d = self.sender.device();
        put_found(self.sub.device(d), &mut self.sender, t, peeked)
    }

    fn waits(&self, t: TrackNo) -> bool
        ensures { IfSome (device_at self.now.sub.devices.items self.now.sender.device) (λ x. result ≡ is_waiting (device_of x).store t) }
    {
        is_waiting(self.sub.device(self.sender.device()), t)
    }

    /// A track that doesn't wait.
    fn copy_track(&mut self, t: TrackNo) -> Result<Remote, NoMemory>
        requires track { IfSome (device_at self.old.sub.devices.items self.old.sender.device) (λ x. t < tracks_of (device_of x).store) }
        ensures numbers { HasSameDevices self.old.sub self.new.sub }
        ensures looks { IfSome (device_at self.old.sub.devices.items self.old.sender.device) (λ x. LooksToCopy (tracks_of (device_of x).store) t
            self.old.sub self.old.sender result self.new.sub self.new.sender) }
    {
        let before = self.state();
        match self.look(t) {
            Err(NoMemory) => Err(NoMemory),
            Ok(peeked) => {
                if gets_suspended(before, self.state()) {
                    return Ok(Remote::LinkFault);
                }
                Ok(self.put_next(t, peeked))
            }
        }
    }

    /// The next track, where there is one and it doesn't wait.
    fn copy_next(&mut self) -> Result<Remote, NoMemory>
        ensures numbers { HasSameDevices self.old.sub self.new.sub }
        ensures copied { IfSome (device_at self.old.sub.devices.items self.old.sender.device) (λ x. CopiedBy (tracks_of (device_of x).store)
            (next_track self.old.sender.state) (is_waiting (device_of x).store) self.old.sub self.old.sender result self.new.sub self.new.sender) }
    {
        let Some(next) = next_track(self.state()) else {
            return Ok(Remote::Idle);
        };
        let t = TrackNo::new(next).unwrap();
        if self.waits(t) {
            return Ok(Remote::Waits);
        }
        self.copy_track(t)
    }

    /// Copies the next track, where the far volume isn't level: the first one while it is suspended, else the one after those that are
    /// copied. The look makes the reads of a command; a track below that it makes firm is put first. After the last track the far
    /// volume is level. At want of memory the puts stay done, and the state that they led to.
    pub fn copy_one(&mut self) -> Result<Remote, NoMemory>
        ensures numbers { HasSameDevices self.old.sub self.new.sub }
        ensures copied { IfSome (device_at self.old.sub.devices.items self.old.sender.device) (λ x. CopiedBy (tracks_of (device_of x).store)
            (next_track self.old.sender.state) (is_waiting (device_of x).store) self.old.sub self.old.sender result self.new.sub self.new.sender) }
        ensures follows { Follows self.old.sender self.new.sender }
        ensures fault { result ≡ Ok LinkFault → Rose self.old.sender.link.faults self.new.sender.link.faults
            × (is_suspended self.new.sender.state ≡ true) }
        ensures mirrors { (c : MirrorRun) → IsMirror self.old c
            → OnOk result (IsMirror self.new (mirror_copied c (next_track self.old.sender.state))) }
        ensures answer { (c : MirrorRun) → IsMirror self.old c → IfOk result (AnswersAs c (next_track self.old.sender.state)) }
    {
        self.copy_next()
    }
}

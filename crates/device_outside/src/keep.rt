ghost use Rattle.std.specs.Prelude.{◌≡◌, ℕ, is_ok};
ghost use Rattle.device_outside.specs.Keeper.{Message, BeforeEdit, Firm, ReplyTo, Heard, reply};

use ckd_types::{DeviceNo, NoMemory, TrackNo};

/// What is told each track before a command's edit of it, and each track that an effect made firm. `I`
/// is a track's image. `hears` says how a call moves the keeper; `takes` says with which devices,
/// tracks and images it may be called.
pub trait Keep<I> {
    ghost hears: { Self → (m : Message I) → ReplyTo m → Self → Type 0 };

    ghost takes: { Self → ℕ → ℕ → I → Type 0 };

    /// The track as it is before the edit. Want of memory is the command's.
    fn before_edit(&mut self, d: DeviceNo, t: TrackNo, old: &I) -> Result<(), NoMemory>
        requires { takes self.old d t old.now }
        ensures { Heard hears takes self.old (BeforeEdit d t old.now) (is_ok result) self.new };

    /// The track as it is from now on, whatever is lost.
    fn firm(&mut self, d: DeviceNo, t: TrackNo, now: &I)
        requires { takes self.old d t now.now }
        ensures { Heard hears takes self.old (Firm d t now.now) tt self.new };
}

/// A keeper that keeps nothing, and never lacks memory.
#[derive(Clone, Copy, Debug)]
pub struct NoKeep;

impl<I> Keep<I> for NoKeep {
    ghost hears = { λ _ m r _. r ≡ reply m };

    ghost takes = { λ _ _ _ _. Unit {0} };

    fn before_edit(&mut self, _d: DeviceNo, _t: TrackNo, _old: &I) -> Result<(), NoMemory> {
        Ok(())
    }

    fn firm(&mut self, _d: DeviceNo, _t: TrackNo, _now: &I) {}
}

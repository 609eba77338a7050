ghost use Rattle.std.specs.Prelude.{◌≡◌, ◌≤◌, ◌<◌, ◌++◌, ◌∷◌, [], None, false, map};
ghost use Rattle.plain_defs.specs.declared.journal.Item.TheVariants.{Power};
ghost use Rattle.plain_defs.specs.History.{lost_power};
ghost use Rattle.device_defs.specs.Contents.{contents};
ghost use Rattle.device_defs.specs.Cutting.{power};
ghost use Rattle.device_outside.specs.declared.keep.NoKeep.{NoKeep};
ghost use Rattle.device_outside.specs.Keeper.{Heard, reply};
ghost use Rattle.device_outside.specs.Outside.{Ran};
ghost use Rattle.device_store.specs.State.{surely, Takes};
ghost use Rattle.device_core.specs.Kept.{history_of, Keeps};
ghost use Rattle.device_core.specs.Powered.{off_path};
ghost use Rattle.device_core.specs.State.{around, device_of, IsSameDevice, TakesItsTracks};
ghost use Rattle.device_laws.specs.Moved.{MovesNothing};
ghost use Rattle.device_core.specs.Promises.{StaysExcused, StaysLent, StaysPlain, StaysSound};

use crate::Device;
use crate::half::half_count;
use crate::history::{KeptPath, Past};
use device_outside::{Keep, NoKeep, Port, Volume};
use plain_defs::Item;
use plain_device::Paths;
use track_image::TrackImage;

/// No path used anything since, and no reset waits.
fn put_off(kept: &mut [KeptPath; 4])
    ensures { kept.new ≡ map off_path kept.old }
{
    for path in kept.iter_mut() {
        *path = KeptPath {
            started: path.started,
            used: false,
            waits: false,
        };
    }
}

impl Past {
    /// The loss of power stands in the journal, in room that was made. No program runs.
    fn note_power(&mut self)
        requires room { 0 < self.old.items.spare }
        ensures items { self.new.items.items ≡ self.old.items.items ++ Power ∷ [] }
        ensures running { self.new.running ≡ self.old.running }
        ensures kept { self.new.kept ≡ map off_path self.old.kept }
        ensures powered { self.new.powered ≡ false }
        ensures aside { self.new.items.aside ≡ self.old.items.aside }
    {
        self.items.push(Item::Power);
        put_off(&mut self.kept);
        self.powered = false;
    }

    /// The loss of power cuts the program that runs, of which so many commands more than ended took effect, and drops the resets that
    /// wait. It is none where no program was started since the power came.
    fn lose_power(&mut self, more: u16)
        requires keeps { Keeps self.old }
        requires most { more ≤ 1 }
        ensures history { history_of self.new ≡ lost_power (history_of self.old) more }
        ensures over { self.new.running ≡ None }
        ensures keeps { Keeps self.new }
        ensures aside { self.new.items.aside ≡ self.old.items.aside }
    {
        if self.is_running() {
            self.note_cut(more);
            self.note_power();
            return;
        }
        if self.powered {
            self.note_power();
            return;
        }
    }
}

impl<V: Volume> Device<V> {
    /// The loss of power. Takes no memory. The device takes no notes. An open half write ends; that of a command counts as done, and
    /// the keeper is told of its edit.
    pub fn power_with<P: Port, K: Keep<TrackImage>>(&mut self, port: &mut P, keep: &mut K)
        requires takes { TakesItsTracks K.takes keep.old self.old }
        ensures fixed { IsSameDevice self.old self.new }
        ensures takes { TakesItsTracks K.takes keep.new self.new }
        ensures run { Ran surely (Heard K.hears K.takes) (power contents (device_of self.old)) (around (P.view port.old) self.old keep.old)
            (device_of self.new) tt (around (P.view port.new) self.new keep.new) }
        ensures transfers { MovesNothing (device_of self.old) (device_of self.new) }
        ensures sound { StaysSound self.old self.new }
        ensures plain { StaysPlain self.old self.new }
        ensures excused { StaysExcused self.old self.new }
        ensures lent { StaysLent self.old self.new }
    {
        let before = self.store.waiting_count();
        self.store.begin_event();
        let more = half_count(&self.store.half);
        self.store.cut_half(keep);
        self.store.lose_power();
        self.past.lose_power(more);
        self.paths = Paths::new();
        self.store.end_event::<P, K>(before, port);
    }

    /// The same, with a keeper that keeps nothing.
    pub fn power<P: Port>(&mut self, port: &mut P)
        ensures fixed { IsSameDevice self.old self.new }
        ensures run { (k : NoKeep) → Ran surely (λ _ m r _. r ≡ reply m) (power contents (device_of self.old))
            (around (P.view port.old) self.old k) (device_of self.new) tt (around (P.view port.new) self.new k) }
        ensures transfers { MovesNothing (device_of self.old) (device_of self.new) }
        ensures sound { StaysSound self.old self.new }
        ensures plain { StaysPlain self.old self.new }
        ensures excused { StaysExcused self.old self.new }
        ensures lent { StaysLent self.old self.new }
    {
        let mut keep = NoKeep;
        self.power_with(port, &mut keep)
    }
}

ghost use Rattle.std.specs.Prelude.{◌≡◌, ◌≤◌, ◌+◌, ◌++◌, ◌∷◌, [], None, Some, IsSome, length, option_map, false, true};
ghost use Rattle.plain_defs.specs.declared.journal.How.TheVariants.{Cut};
ghost use Rattle.plain_defs.specs.declared.journal.Item.TheVariants.{Reset};
ghost use Rattle.plain_defs.specs.History.{OpenEntry, cut_by, entry_of, has_used, is_path_of, put};
ghost use Rattle.plain_defs.specs.PlainState.{reset_path};
ghost use Rattle.device_defs.specs.Contents.{contents};
ghost use Rattle.device_defs.specs.Cutting.{reset};
ghost use Rattle.device_defs.specs.Device.{all_reset};
ghost use Rattle.device_outside.specs.declared.keep.NoKeep.{NoKeep};
ghost use Rattle.device_outside.specs.Interaction.{Done};
ghost use Rattle.device_outside.specs.Keeper.{Heard, reply};
ghost use Rattle.device_outside.specs.Outside.{PortView, Ran};
ghost use Rattle.device_store.specs.State.{surely, Takes};
ghost use Rattle.device_core.specs.Kept.{open_of, history_of, waiting_in, Keeps};
ghost use Rattle.device_core.specs.State.{around, device_of, own_volumes, IsSameDevice, TakesItsTracks};
ghost use Rattle.device_laws.specs.Moved.{MovesNothing};
ghost use Rattle.device_core.specs.Promises.{StaysExcused, StaysLent, StaysPlain, StaysSound};

use crate::Device;
use crate::half::half_count;
use crate::history::Past;
use crate::kept::{set_unused, set_waiting};
use ckd_types::PathNo;
use device_outside::{Keep, NoKeep, Volume};
use plain_defs::{How, Item};
use plain_device::Paths;
use track_image::TrackImage;

impl Past {
    /// How many commands of the running program took effect: those that ended, and so many more.
    fn effect_count(&self, more: u16) -> u16
        requires keeps { Keeps self.now }
        requires running { IsSome self.now.running }
        requires most { more ≤ 1 }
        ensures { (o : OpenEntry) → option_map open_of self.now.running ≡ Some o → result ≡ length o.ends + more }
    {
        match &self.running {
            Some(running) => running.ends.len() as u16 + more,
            None => unreachable!(),
        }
    }

    /// The running program is cut: its entry stands in the journal, in room that was made. So many commands more than ended took
    /// effect.
    pub(crate) fn note_cut(&mut self, more: u16)
        requires keeps { Keeps self.old }
        requires running { IsSome self.old.running }
        requires most { more ≤ 1 }
        ensures over { self.new.running ≡ None }
        ensures items { (o : OpenEntry) → option_map open_of self.old.running ≡ Some o → self.new.items.items
            ≡ self.old.items.items ++ entry_of o (Cut (length o.ends + more)) ∷ [] }
        ensures spare { self.new.items.spare + 1 ≡ self.old.items.spare }
        ensures aside { self.new.items.aside ≡ self.old.items.aside }
        ensures rest { (self.new.kept ≡ self.old.kept) × (self.new.powered ≡ self.old.powered) }
    {
        let effect = self.effect_count(more);
        self.note_program(How::Cut { effect });
    }

    /// The reset of its path cuts the running program, and the resets that waited follow.
    fn cut(&mut self, path: PathNo, more: u16, paths: &mut Paths)
        requires keeps { Keeps self.old }
        requires most { more ≤ 1 }
        requires runs { is_path_of (history_of self.old).running path ≡ true }
        ensures history { (o : OpenEntry) → option_map open_of self.old.running ≡ Some o → history_of self.new ≡ cut_by (history_of self.old) o more }
        ensures over { self.new.running ≡ None }
        ensures paths { paths.new ≡ all_reset (reset_path paths.old path) (waiting_in self.old.kept) }
        ensures keeps { Keeps self.new }
        ensures aside { self.new.items.aside ≡ self.old.items.aside }
    {
        self.note_cut(more);
        self.items.push(Item::Reset(path));
        paths.reset(path);
        set_unused(&mut self.kept, path);
        self.follow_resets(paths);
    }

    /// The reset of a path that used something stands in the journal, in room that was made. No program runs.
    fn note_reset(&mut self, path: PathNo)
        requires keeps { Keeps self.old }
        requires idle { self.old.running ≡ None }
        requires used { has_used (history_of self.old) path ≡ true }
        ensures history { history_of self.new ≡ record (history_of self.old) { items = self.old.items.items ++ Reset path ∷ [] } }
        ensures running { self.new.running ≡ None }
        ensures keeps { Keeps self.new }
        ensures aside { self.new.items.aside ≡ self.old.items.aside }
    {
        set_unused(&mut self.kept, path);
        self.items.push(Item::Reset(path));
    }

    /// The reset of another path waits for the end of the running program.
    fn note_waiting(&mut self, path: PathNo)
        requires keeps { Keeps self.old }
        requires running { IsSome self.old.running }
        ensures history { history_of self.new ≡ record (history_of self.old) { waiting = put path (history_of self.old).waiting } }
        ensures running { self.new.running ≡ self.old.running }
        ensures keeps { Keeps self.new }
        ensures aside { self.new.items.aside ≡ self.old.items.aside }
    {
        set_waiting(&mut self.kept, path);
    }
}

impl<V: Volume> Device<V> {
    /// The reset of a path that used something and runs no program. It waits while another path's runs.
    fn reset_other(&mut self, path: PathNo)
        requires other { is_path_of (history_of self.old.past).running path ≡ false }
        requires used { has_used (history_of self.old.past) path ≡ true }
        ensures done { reset contents (device_of self.old) path ≡ Done (device_of self.new) tt }
        ensures store { self.new.store ≡ self.old.store }
    {
        if self.past.is_running() {
            self.past.note_waiting(path);
            return;
        }
        self.past.note_reset(path);
        self.paths.reset(path);
    }

    /// Its path's reset cuts the program that runs. An open half write of its command counts as done.
    fn cut_program<K: Keep<TrackImage>>(&mut self, path: PathNo, keep: &mut K)
        requires runs { is_path_of (history_of self.old.past).running path ≡ true }
        requires takes { TakesItsTracks K.takes keep.old self.old }
        ensures fixed { IsSameDevice self.old self.new }
        ensures volume { own_volumes self.new ≡ own_volumes self.old }
        ensures takes { TakesItsTracks K.takes keep.new self.new }
        ensures run { (p : PortView) → Ran surely (Heard K.hears K.takes) (reset contents (device_of self.old) path) (around p self.old keep.old)
            (device_of self.new) tt (around p self.new keep.new) }
    {
        let more = half_count(&self.store.half);
        self.store.cut_half(keep);
        self.past.cut(path, more, &mut self.paths);
    }

    /// A path is reset: a program that it runs is cut, and where another path's runs, the reset waits for its end. Of a path that used
    /// nothing since its last reset it is none. Takes no memory. The keeper is told of an edit that takes effect.
    pub fn reset_with<K: Keep<TrackImage>>(&mut self, path: PathNo, keep: &mut K)
        requires takes { TakesItsTracks K.takes keep.old self.old }
        ensures fixed { IsSameDevice self.old self.new }
        ensures volume { own_volumes self.new ≡ own_volumes self.old }
        ensures run { (p : PortView) → Ran surely (Heard K.hears K.takes) (reset contents (device_of self.old) path) (around p self.old keep.old)
            (device_of self.new) tt (around p self.new keep.new) }
        ensures transfers { MovesNothing (device_of self.old) (device_of self.new) }
        ensures takes { TakesItsTracks K.takes keep.new self.new }
        ensures sound { StaysSound self.old self.new }
        ensures plain { StaysPlain self.old self.new }
        ensures excused { StaysExcused self.old self.new }
        ensures lent { StaysLent self.old self.new }
    {
        if self.past.runs_on(path) {
            self.cut_program(path, keep);
            return;
        }
        if self.past.has_used(path) {
            self.reset_other(path);
            return;
        }
    }

    /// The same, with a keeper that keeps nothing.
    pub fn reset(&mut self, path: PathNo)
        ensures fixed { IsSameDevice self.old self.new }
        ensures volume { own_volumes self.new ≡ own_volumes self.old }
        ensures run { (p : PortView) (k : NoKeep) → Ran surely (λ _ m r _. r ≡ reply m) (reset contents (device_of self.old) path)
            (around p self.old k) (device_of self.new) tt (around p self.new k) }
        ensures sound { StaysSound self.old self.new }
        ensures plain { StaysPlain self.old self.new }
        ensures excused { StaysExcused self.old self.new }
        ensures lent { StaysLent self.old self.new }
    {
        let mut keep = NoKeep;
        self.reset_with(path, &mut keep)
    }
}

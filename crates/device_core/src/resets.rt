ghost use Rattle.std.specs.Prelude.{◌≡◌, ◌<◌, ◌≤◌, ◌+◌, ◌++◌, length, map};
ghost use Rattle.plain_defs.specs.History.{resets_of};
ghost use Rattle.device_defs.specs.Device.{all_reset};
ghost use Rattle.device_core.specs.Kept.{over_path, waiting_in, waiting_one};

use crate::Log;
use crate::history::{KeptPath, Past};
use ckd_types::PathNo;
use plain_defs::Item;
use plain_device::Paths;

/// The path at a place among all four.
pub(crate) fn path_at(at: usize) -> PathNo
    requires { at < 4 }
    ensures { result ≡ at + 1 }
{
    PathNo::of(at as u8 + 1)
}

/// A reset is done, where it waited.
fn reset_where(paths: &mut Paths, path: PathNo, waits: bool)
    ensures { paths.new ≡ all_reset paths.old (waiting_one waits path) }
{
    if waits {
        paths.reset(path);
    }
}

/// The resets that waited are done.
fn reset_all(paths: &mut Paths, kept: &[KeptPath; 4])
    ensures { paths.new ≡ all_reset paths.old (waiting_in kept.now) }
{
    for (at, path) in kept.iter().enumerate() {
        reset_where(paths, path_at(at), path.waits);
    }
}

/// A reset follows in the journal, where it waited, in room that was made.
fn note_where(items: &mut Log, path: PathNo, waits: bool)
    requires { 0 < items.old.spare }
    ensures items { items.new.items ≡ items.old.items ++ resets_of (waiting_one waits path) }
    ensures spare { items.new.spare + length (waiting_one waits path) ≡ items.old.spare }
    ensures aside { items.new.aside ≡ items.old.aside }
{
    if waits {
        items.push(Item::Reset(path));
    }
}

/// The resets that waited follow in the journal.
fn note_resets(items: &mut Log, kept: &[KeptPath; 4])
    requires { 4 ≤ items.old.spare }
    ensures items { items.new.items ≡ items.old.items ++ resets_of (waiting_in kept.now) }
    ensures spare { items.new.spare + length (waiting_in kept.now) ≡ items.old.spare }
    ensures aside { items.new.aside ≡ items.old.aside }
{
    for (at, path) in kept.iter().enumerate() {
        note_where(items, path_at(at), path.waits);
    }
}

/// No reset waits any more.
fn put_over(kept: &mut [KeptPath; 4])
    ensures { kept.new ≡ map over_path kept.old }
{
    for path in kept.iter_mut() {
        *path = KeptPath {
            started: path.started,
            used: path.used && !path.waits,
            waits: false,
        };
    }
}

impl Past {
    /// The resets that waited follow in the journal, in room that was made, and are done.
    pub(crate) fn follow_resets(&mut self, paths: &mut Paths)
        requires { 4 ≤ self.old.items.spare }
        ensures items { self.new.items.items ≡ self.old.items.items ++ resets_of (waiting_in self.old.kept) }
        ensures spare { self.new.items.spare + length (waiting_in self.old.kept) ≡ self.old.items.spare }
        ensures aside { self.new.items.aside ≡ self.old.items.aside }
        ensures kept { self.new.kept ≡ map over_path self.old.kept }
        ensures paths { paths.new ≡ all_reset paths.old (waiting_in self.old.kept) }
        ensures running { self.new.running ≡ self.old.running }
        ensures rest { (self.new.powered ≡ self.old.powered) × (self.new.last ≡ self.old.last) }
    {
        note_resets(&mut self.items, &self.kept);
        reset_all(paths, &self.kept);
        put_over(&mut self.kept);
    }
}

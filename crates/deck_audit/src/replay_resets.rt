ghost use Rattle.std.specs.Prelude.{◌≡◌};
ghost use Rattle.deck_audit.specs.Replay.{checked, closed, cut, reset, reset_on, reset_used, reset_waiting, wait_used, without_power};

use crate::HalfWrite;
use crate::replayed::ReplayedDevice;
use ckd_types::{PathNo, Sense};
use std::alloc::Global;

impl ReplayedDevice {
    fn reset_on(&mut self, path: PathNo)
        ensures { self.new ≡ reset_on self.old path }
    {
        self.device.reset(path);
        self.used[usize::from(path.get() - 1)] = false;
    }

    fn reset_waiting(&mut self, path: PathNo)
        ensures { self.new ≡ reset_waiting self.old path }
    {
        let at = usize::from(path.get() - 1);
        if self.waits[at] {
            self.reset_on(path);
            self.waits[at] = false;
        }
    }

    /// The running program is over, and the resets that waited follow it.
    #[tactic(auto, unfolding(crate::specs::Replay::closed))]
    pub fn close(&mut self)
        ensures { self.new ≡ closed self.old }
    {
        self.running = None;
        self.reset_waiting(PathNo::of(1));
        self.reset_waiting(PathNo::of(2));
        self.reset_waiting(PathNo::of(3));
        self.reset_waiting(PathNo::of(4));
    }

    /// A command ended with equipment check or data check: it did nothing, and its path keeps the sense.
    pub fn check(&mut self, sense: Sense)
        ensures { self.new ≡ checked self.old sense }
    {
        if let Some(o) = &self.running {
            let path = o.path;
            self.pending = None;
            self.device.keep_sense(path, Some(sense));
            self.close();
        }
    }

    fn reset_used(&mut self, path: PathNo)
        ensures { self.new ≡ reset_used self.old path }
    {
        if self.used[usize::from(path.get() - 1)] {
            self.reset_on(path);
        }
    }

    fn wait_used(&mut self, path: PathNo)
        ensures { self.new ≡ wait_used self.old path }
    {
        let at = usize::from(path.get() - 1);
        if self.used[at] {
            self.waits[at] = true;
        }
    }

    /// A path is reset: what it ran is cut; where another path's program runs, the reset waits for its end; and where
    /// the path used nothing, it is none.
    pub fn reset(&mut self, path: PathNo)
        ensures { self.new ≡ reset self.old path }
    {
        let running = match &self.running {
            Some(o) => Some(o.path),
            None => None,
        };
        match running {
            Some(own) => {
                if own.get() == path.get() {
                    self.reset_on(path);
                    self.close();
                } else {
                    self.wait_used(path);
                }
            }
            None => self.reset_used(path),
        }
    }

    /// A loss of power cuts the running program.
    pub fn cut(&mut self)
        ensures { self.new ≡ cut self.old }
    {
        self.running = None;
        self.pending = None;
        self.waits = [false; 4];
    }

    /// A loss of power takes the data of cache fast write, and all that is kept of the paths.
    pub fn lose_power(&mut self, alloc: Global)
        ensures { self.new ≡ without_power self.old }
    {
        if self.powered {
            self.pending = None;
            self.device.power_off(alloc);
            self.used = [false; 4];
            self.waits = [false; 4];
            self.powered = false;
        }
        self.half = HalfWrite::Closed;
    }
}

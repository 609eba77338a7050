ghost use Rattle.std.specs.Prelude.{◌≡◌, ◌≤◌, is_some};
ghost use Rattle.device_defs.specs.Start.{left, started_count};
ghost use Rattle.plain_defs.specs.History.{has_used, is_path_of};
ghost use Rattle.device_core.specs.Kept.{history_of, of_path, Keeps};
ghost use Rattle.device_core.specs.State.{device_of, count_of};

use crate::Device;
use crate::history::{KeptPath, Past};
use ckd_types::PathNo;
use device_outside::Volume;

impl Past {
    /// A program runs.
    pub(crate) fn is_running(&self) -> bool
        ensures { result ≡ is_some self.now.running }
    {
        self.running.is_some()
    }

    /// The path's program runs.
    pub(crate) fn runs_on(&self, path: PathNo) -> bool
        ensures { result ≡ is_path_of (history_of self.now).running path }
    {
        match &self.running {
            Some(running) => running.path == path,
            None => false,
        }
    }

    /// What is kept of a path.
    pub(crate) fn of_path(&self, path: PathNo) -> &KeptPath
        ensures value { result.now ≡ of_path self.now.kept path }
        ensures path { (1 ≤ path) × (path ≤ 4) }
    {
        &self.kept[usize::from(path.get() - 1)]
    }

    /// How many programs of a path were started.
    pub(crate) fn started_count(&self, path: PathNo) -> u16
        requires { Keeps self.now }
        ensures { result ≡ started_count (history_of self.now) path }
    {
        self.of_path(path).started
    }

    /// The path used something since its last reset.
    pub(crate) fn has_used(&self, path: PathNo) -> bool
        requires { Keeps self.now }
        ensures { result ≡ has_used (history_of self.now) path }
    {
        self.of_path(path).used
    }
}

impl<V: Volume> Device<V> {
    /// How many planned programs of a path weren't started.
    pub fn left(&self, path: PathNo) -> u16
        ensures { result ≡ left (device_of self.now) path }
    {
        let started = usize::from(self.past.started_count(path));
        self.plans.len(path).saturating_sub(started) as u16
    }

    /// How many programs of a path were started.
    pub fn started(&self, path: PathNo) -> u16
        ensures { result ≡ started_count (device_of self.now).history path }
    {
        self.past.started_count(path)
    }

    /// Twice the programs of a path that ended, and one more while one runs. It stops at the greatest number.
    pub fn count(&self, path: PathNo) -> u64
        ensures { result ≡ count_of (device_of self.now).history path }
    {
        let running = if self.past.runs_on(path) { 1 } else { 0 };
        let started = u64::from(self.past.started_count(path));
        2 * started.saturating_sub(running) + running
    }
}

ghost use Rattle.std.specs.Prelude.{◌≡◌, ◌≤◌, None};
ghost use Rattle.ckd_outside.specs.Causes.{Rose};

use crate::task::Task;
use ckd_outside::Failed;
use disk_image::DiskFile;
use std::fs::{File, OpenOptions};

/// Stands for a file that couldn't be opened: each call of it fails.
#[derive(Drop)]
pub struct NoFile {
    faults: u64,
}

impl NoFile {
    /// It has counted no fault.
    pub fn new() -> NoFile
        ensures { ⟦<NoFile as DiskFile>⟧.faults result ≡ 0 }
    {
        NoFile { faults: 0 }
    }

    fn fail(&mut self) -> Failed
        ensures rose { Rose self.old.faults self.new.faults }
        ensures later { self.old.faults ≤ self.new.faults }
    {
        self.faults = self.faults.saturating_add(1);
        Failed
    }
}

impl DiskFile for NoFile {
    ghost held = { λ _. None };

    ghost faults = { λ f. f.faults };

    fn len(&mut self) -> Result<u64, Failed> {
        Err(self.fail())
    }

    fn read_at(&mut self, _at: u64, _into: &mut [u8]) -> Result<usize, Failed> {
        Err(self.fail())
    }

    fn write_at(&mut self, _at: u64, _bytes: &[u8]) -> Result<usize, Failed> {
        Err(self.fail())
    }

    fn sync(&mut self) -> Result<(), Failed> {
        Err(self.fail())
    }
}

/// Whether a task writes its file.
fn is_written(task: Task) -> bool {
    match task {
        Task::New { .. } | Task::FromVolume => true,
        Task::Check | Task::List | Task::ToVolume => false,
    }
}

/// Whether its file may be one that isn't there.
fn is_made(task: Task) -> bool {
    match task {
        Task::New { .. } => true,
        _ => false,
    }
}

/// Holds a file against other processes: alone where it is written, and against those that write where it is read.
fn is_held(task: Task, file: &File) -> bool {
    if is_written(task) {
        file.try_lock().is_ok()
    } else {
        file.try_lock_shared().is_ok()
    }
}

/// The file of a task, where it can be opened, and no other process holds it.
pub fn open_for(rt: &HostRuntime, task: Task, path: &str) -> Option<File> {
    let mut options = OpenOptions::new();
    options
        .read(true)
        .write(is_written(task))
        .create(is_made(task));
    let Ok(file) = options.open(rt, path) else {
        return None;
    };
    if is_held(task, &file) {
        Some(file)
    } else {
        None
    }
}

ghost use Rattle.std.specs.Prelude.{None};

use crate::mounting::{MountFault, mount, new_volume};
use crate::rack::Rack;
use crate::volume::RunVolume;
use crate::words::path_in;
use deck_text::DeviceLine;
use disk_image::{DiskFile, StdFile};
use std::alloc::{AllocError, Global};
use std::fs::{File, OpenOptions};

/// The file at a path, where it could be opened, and no other process holds it.
#[derive(Drop)]
struct NamedFile<F: DiskFile> {
    path: String,
    file: Option<F>,
}

/// Volumes in image files, and in memory where no file is named.
#[derive(Drop)]
pub struct FileRack<F: DiskFile> {
    files: Vec<NamedFile<F>>,
}

/// A file of the system to read and write, held alone.
fn open_alone(rt: &HostRuntime, path: &str) -> Option<File> {
    let mut options = OpenOptions::new();
    options.read(true).write(true);
    let Ok(file) = options.open(rt, path) else {
        return None;
    };
    if file.try_lock().is_ok() {
        Some(file)
    } else {
        None
    }
}

fn open_image_file(rt: &HostRuntime, path: &str) -> Option<StdFile> {
    match open_alone(rt, path) {
        Some(file) => Some(StdFile::new(file)),
        None => None,
    }
}

/// Opens the files of the system that words name.
pub fn open_files(rt: &HostRuntime, words: &[&str]) -> Result<FileRack<StdFile>, AllocError> {
    let mut files = Vec::new(rt.alloc());
    for word in words {
        if let Some(path) = path_in(word) {
            let file = open_image_file(rt, path);
            let path = String::from_str(rt.alloc(), path)?;
            files.push(NamedFile { path, file })?;
        }
    }
    Ok(FileRack { files })
}

impl<F: DiskFile> FileRack<F> {
    /// The file at a path, if nobody took it before.
    fn take(&mut self, path: &str) -> Option<F> {
        for named in self.files.iter_mut() {
            if named.path.as_str() == path {
                return named.file.take();
            }
        }
        None
    }
}

impl<F: DiskFile> Rack<RunVolume<F>> for FileRack<F> {
    ghost holds = { λ _. None };

    fn open(
        &mut self,
        alloc: Global,
        line: DeviceLine,
        path: Option<&str>,
        fail_reads: &[u32],
        fail_writes: &[u32],
    ) -> Result<RunVolume<F>, MountFault> {
        let Some(path) = path else {
            return new_volume(alloc, line, fail_reads, fail_writes);
        };
        match self.take(path) {
            Some(file) => mount(alloc, file, line, fail_reads, fail_writes),
            None => Err(MountFault::File),
        }
    }
}

ghost use Rattle.std.specs.Prelude.{◌≡◌, None};
ghost use Rattle.std.specs.Io.{ReadsAtMost, WritesAtMost};

use crate::DiskFile;
use ckd_outside::Failed;
use std::fs::File;
use std::io::ErrorKind;
use std::os::unix::fs::FileExt;

// A call that a signal interrupts is made again. So many interrupts in a row count as a fault.
const MOST_TRIES: u32 = 1_000_000_000;

/// One read at an offset, made again where a signal interrupts it.
fn read_again(file: &File, at: u64, into: &mut [u8]) -> Result<usize, Failed>
    ensures { ReadsAtMost result into.new }
{
    for _ in 0..MOST_TRIES {
        match file.read_at(into, at) {
            Ok(count) => return Ok(count),
            Err(error) => {
                if error.kind() != ErrorKind::Interrupted {
                    return Err(Failed);
                }
            }
        }
    }
    Err(Failed)
}

/// One write at an offset, made again where a signal interrupts it.
fn write_again(file: &File, at: u64, bytes: &[u8]) -> Result<usize, Failed>
    ensures { WritesAtMost result bytes.now }
{
    for _ in 0..MOST_TRIES {
        match file.write_at(bytes, at) {
            Ok(count) => return Ok(count),
            Err(error) => {
                if error.kind() != ErrorKind::Interrupted {
                    return Err(Failed);
                }
            }
        }
    }
    Err(Failed)
}

/// An open file of the system. It tells no contents.
#[derive(Drop)]
pub struct StdFile {
    file: File,
    faults: u64,
}

impl StdFile {
    /// A file that has counted no fault.
    pub fn new(file: File) -> StdFile
        ensures held { ⟦<StdFile as DiskFile>⟧.held result ≡ None }
        ensures faults { ⟦<StdFile as DiskFile>⟧.faults result ≡ 0 }
    {
        StdFile { file, faults: 0 }
    }
}

impl DiskFile for StdFile {
    ghost held = { λ _. None };

    ghost faults = { λ f. f.faults };

    fn len(&mut self) -> Result<u64, Failed> {
        match self.file.metadata() {
            Ok(metadata) => Ok(metadata.len()),
            Err(_) => {
                self.faults = self.faults.saturating_add(1);
                Err(Failed)
            }
        }
    }

    fn read_at(&mut self, at: u64, into: &mut [u8]) -> Result<usize, Failed> {
        match read_again(&self.file, at, into) {
            Ok(count) if count == into.len() => Ok(count),
            answer => {
                self.faults = self.faults.saturating_add(1);
                answer
            }
        }
    }

    fn write_at(&mut self, at: u64, bytes: &[u8]) -> Result<usize, Failed> {
        match write_again(&self.file, at, bytes) {
            Ok(count) if count == bytes.len() => Ok(count),
            answer => {
                self.faults = self.faults.saturating_add(1);
                answer
            }
        }
    }

    fn sync(&mut self) -> Result<(), Failed> {
        match self.file.sync_data() {
            Ok(()) => Ok(()),
            Err(_) => {
                self.faults = self.faults.saturating_add(1);
                Err(Failed)
            }
        }
    }
}

ghost use Rattle.std.specs.Prelude.{◌≡◌, IfErr};
ghost use Rattle.std.specs.declared.fs.File.{File};
ghost use Rattle.ckd_c.specs.Codes.{IsRefusal};

use crate::code::Code;
use std::fs::File;
use std::marker::Model;
use std::os::fd::IntoRawFd;

/// The place where a caller has the descriptor of an open file, which it lends for one call.
#[repr(C)]
#[derive(Drop)]
pub struct CkdFile {
    at: *const File,
    ghost file: { File },
}

impl Model for CkdFile {
    ghost use Rattle.ckd_c.specs.Held.{lent};

    ghost also_owns = { λ f. lent f.at f.file };
}

impl CkdFile {
    fn read(self) -> File
        ensures { result ≡ self.file }
    {
        let CkdFile { at } = self;
        unsafe { at.read() }
    }

    /// Two descriptors of the same open file, which are closed where they are dropped. The lent one stays open.
    pub(crate) fn duplicates(self) -> Result<(File, File), Code>
        ensures { IfErr result IsRefusal }
    {
        let lent = self.read();
        let first = lent.try_clone();
        let second = lent.try_clone();
        let _number = lent.into_raw_fd();
        match (first, second) {
            (Ok(first), Ok(second)) => Ok((first, second)),
            _ => Err(Code::FileFault),
        }
    }
}

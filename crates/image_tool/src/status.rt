ghost use Rattle.std.specs.Prelude.{◌≡◌, ◌≢◌};
ghost use Rattle.image_tool.specs.Answers.{code_of};
ghost use Rattle.image_tool.specs.Reading.{refused_by};

use disk_image::{ImageFault, Layout};
use volume_file::LoadFault;

/// How the program ends.
#[derive(Clone, Copy, Debug, PartialEq, Eq)]
pub enum ImageStatus {
    /// What was asked for was done.
    Done,
    /// A read of the source failed, and nothing was written.
    ReadFault,
    /// A write failed: a front of what was to be written was taken.
    WriteFault,
    /// Memory is wanting. Nothing was written, but of a new image maybe a front.
    NoMemory,
    /// The words name no task, and the usage was written.
    Usage,
    /// The file of a new image has bytes, which was written.
    HasBytes,
    /// The image has this layout and the volume another, which was written.
    Other { image: Layout, volume: Layout },
    /// The file is no image that is taken, or one of its tracks is none, which was written.
    BadImage(ImageFault),
    /// Each bad track was written.
    BadTracks,
    /// The source gave no volume file, which was written.
    BadVolume(LoadFault),
    /// The file couldn't be opened, or a call of it failed or moved too few bytes, and nothing was told.
    FileFault,
}

/// The exit status of the program.
pub fn code_of(status: ImageStatus) -> u8
    ensures { result ≡ code_of status }
{
    match status {
        ImageStatus::Done => 0,
        ImageStatus::ReadFault => 2,
        ImageStatus::WriteFault => 3,
        ImageStatus::NoMemory => 5,
        ImageStatus::Usage => 6,
        ImageStatus::HasBytes | ImageStatus::Other { .. } => 7,
        ImageStatus::BadImage(_) | ImageStatus::BadTracks | ImageStatus::BadVolume(_) => 8,
        ImageStatus::FileFault => 9,
    }
}

/// The answer to a file that is refused.
pub(crate) fn refused_by(fault: ImageFault) -> ImageStatus
    ensures value { result ≡ refused_by fault }
    ensures write { result ≢ ImageStatus.WriteFault }
    ensures read { result ≢ ImageStatus.ReadFault }
    ensures file { result ≡ ImageStatus.FileFault → fault ≡ ImageFault.FileFault }
{
    match fault {
        ImageFault::FileFault => ImageStatus::FileFault,
        ImageFault::NoMemory => ImageStatus::NoMemory,
        _ => ImageStatus::BadImage(fault),
    }
}

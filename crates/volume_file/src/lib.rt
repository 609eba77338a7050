//! Volume files: the tracks of a volume as plain bytes that other tools can read.
#![tactic(auto)]

mod fault;
mod field;
mod file;
mod head;
mod laws;
mod loading;
mod reader;
mod track;
mod volume;
mod writing;

pub use fault::LoadFault;
pub use file::FileVolume;
pub use laws::loads_back;
pub use loading::load;
pub use reader::FileReader;
pub use volume::DeviceVolume;
pub use writing::save;

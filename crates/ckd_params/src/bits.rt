/// Bytes of the parameters of either command.
pub const PARAMETERS: usize = 16;

/// The bits of the attributes that are set.
pub const ARCHITECTURE: u8 = 0xc0;

/// The bits of the attributes that are the mode.
pub const MODE: u8 = 0x1c;

/// The place of the lowest bit of the mode, as a factor.
pub const MODE_UNIT: u8 = 4;

/// The bit of the attributes that asks for cache fast write.
pub const CACHE_FAST_WRITE: u8 = 0x02;

/// The bit of the attributes that forbids fast writes to the device.
pub const INHIBIT_FAST_WRITE: u8 = 0x01;

/// The bits of the first byte of locate record that are the operation.
pub const OPERATION: u8 = 0x3f;

/// The place of the lowest bit of the orientation, as a factor.
pub const ORIENTATION_UNIT: u8 = 64;

/// The bits of the auxiliary byte that are clear.
pub const RESERVED_AUXILIARY: u8 = 0x7f;

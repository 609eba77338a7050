ghost use Rattle.std.specs.Prelude.{◌≡◌};

/// Thirty-two sense bytes, byte 0 first (IBM's, of which this profile fills bytes 0, 1 and 7).
#[derive(Clone, Copy, Debug, PartialEq, Eq)]
pub struct Sense {
    pub bytes: [u8; 32],
}

impl Sense {
    /// The sense of these bytes.
    pub fn new(bytes: [u8; 32]) -> Sense
        ensures { result.bytes ≡ bytes }
    {
        Sense { bytes }
    }

    /// Its bytes.
    pub fn bytes(&self) -> &[u8; 32]
        ensures { result.now ≡ self.now.bytes }
    {
        &self.bytes
    }
}

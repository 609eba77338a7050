/// How far a far volume is. `Level`: it is the near device's firm volume. `Suspended`: a put failed, and nothing is put until a track
/// is copied again; `sent` is the number of puts before it while the far volume was level. `Copying`: the tracks below are copied.
#[derive(Clone, Copy, Debug, PartialEq, Eq)]
pub enum MirrorState {
    Level,
    Suspended { sent: u64 },
    Copying { below: u16 },
}

ghost use Rattle.std.specs.Prelude.{◌≡◌, ◌<◌, IsSome};
ghost use Rattle.ckd_rules.specs.Stance.{first_stance, one_less};

use ckd_types::{Domain, Extent, TrackNo};

/// What was last passed on the track: its index, its home address, or an area of record `i`.
/// `Body` is the data area.
#[derive(Clone, Copy, Debug, PartialEq, Eq)]
pub enum Place {
    Index,
    Home,
    Count(usize),
    Key(usize),
    Body(usize),
}

/// What the command before the one at hand did, as far as a write asks for it.
#[derive(Clone, Copy, Debug, PartialEq, Eq)]
pub enum After {
    Other,
    IdEqual,
    KeyEqual,
    HomeEqual,
    Found,
    Wrote,
}

/// Where a chain stands between two commands: the extent and the file mask, the domain of a locate
/// record with the commands that are left in it, the track and the place on it, how often its index
/// was passed, and how many commands have ended and bytes were moved.
#[derive(Clone, Copy, Debug, PartialEq, Eq)]
pub struct Stance {
    pub extent: Option<Extent>,
    pub mask: u8,
    pub mask_set: bool,
    pub domain: Option<Domain>,
    pub left: u8,
    pub track: TrackNo,
    pub place: Place,
    pub passes: u8,
    pub after: After,
    pub commands: u16,
    pub moved: u32,
}

/// A chain begins before the index of track 0, with mask 00, without extent and domain. Own.
pub fn first_stance() -> Stance
    ensures { result ≡ first_stance }
{
    Stance {
        extent: None,
        mask: 0,
        mask_set: false,
        domain: None,
        left: 0,
        track: TrackNo::new(0).unwrap(),
        place: Place::Index,
        passes: 0,
        after: After::Other,
        commands: 0,
        moved: 0,
    }
}

/// One command of the domain, where there is one, ended well; with its last the domain ends.
pub fn spend_one(stance: &mut Stance)
    requires { IsSome stance.old.domain → 0 < stance.old.left }
    ensures { stance.new ≡ one_less stance.old }
{
    if stance.domain.is_some() {
        stance.left -= 1;
        if stance.left == 0 {
            stance.domain = None;
        }
    }
}

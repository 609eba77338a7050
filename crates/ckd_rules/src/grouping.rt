ghost use Rattle.std.specs.Prelude.{◌≡◌, ◌≤◌, map};
ghost use Rattle.std.specs.List.{list_any};
ghost use Rattle.ckd_rules.specs.Grouping.{is_same_group, is_in_group, owner_by, is_same_owner, is_free_for, owner_after, establishes, resigns};
ghost use Rattle.ckd_rules.specs.Grouping.{asks_multipath, is_bad_function, is_elsewhere, is_bad_id, group_fault, disbanded, paths_set, owner_joined};
ghost use Rattle.ckd_rules.specs.Grouping.{owner_left, owner_set, member_bits, reserved_bits, mode_bit, state_byte, group_id_bytes, group_bytes};

use ckd_types::{GroupId, Owner, PathNo, PathState};

/// Why a set path group ID is refused.
#[derive(Clone, Copy, Debug, PartialEq, Eq)]
pub enum GroupFault {
    /// The function byte is none of the functions.
    BadFunction,
    /// Who establishes is grouped with another ID; who resigns or disbands isn't grouped with this
    /// one.
    BadId,
}

fn establishes(function: u8) -> bool
    ensures { result ≡ establishes function }
{
    function & 0x60 == 0
}

fn resigns(function: u8) -> bool
    ensures { result ≡ resigns function }
{
    function & 0x60 == 0x40
}

fn asks_multipath(function: u8) -> bool
    ensures { result ≡ asks_multipath function }
{
    function & 0x80 != 0
}

fn is_bad_function(function: u8) -> bool
    ensures { result ≡ is_bad_function function }
{
    function & 0x1f != 0 || function & 0x60 == 0x60
}

fn is_same_group(a: GroupId, b: GroupId) -> bool
    ensures { result ≡ is_same_group a b }
{
    a.bytes == b.bytes
}

/// A path of this state is in the group.
pub fn is_in_group(group: GroupId, state: PathState) -> bool
    ensures { result ≡ is_in_group group state }
{
    match state {
        PathState::Grouped { id, .. } => is_same_group(group, id),
        PathState::Reset | PathState::Ungrouped => false,
    }
}

fn is_elsewhere(id: GroupId, state: PathState) -> bool
    ensures { result ≡ is_elsewhere id state }
{
    match state {
        PathState::Grouped { id: other, .. } => !is_same_group(id, other),
        PathState::Reset | PathState::Ungrouped => false,
    }
}

fn is_bad_id(function: u8, id: GroupId, state: PathState) -> bool
    ensures { result ≡ is_bad_id function id state }
{
    if establishes(function) {
        is_elsewhere(id, state)
    } else {
        !is_in_group(id, state)
    }
}

/// Why a path of this state can't set this group, if so.
pub fn group_fault(function: u8, id: GroupId, state: PathState) -> Option<GroupFault>
    ensures { result ≡ group_fault function id state }
{
    if is_bad_function(function) {
        Some(GroupFault::BadFunction)
    } else if is_bad_id(function, id, state) {
        Some(GroupFault::BadId)
    } else {
        None
    }
}

fn disbanded(id: GroupId, state: PathState) -> PathState
    ensures { result ≡ disbanded id state }
{
    if is_in_group(id, state) {
        PathState::Ungrouped
    } else {
        state
    }
}

fn disband(paths: &mut [PathState; 4], id: GroupId)
    ensures { paths.new ≡ map (disbanded id) paths.old }
{
    for state in paths.iter_mut() {
        *state = disbanded(id, *state);
    }
}

/// Does what set path group ID asks, where it has no fault.
pub fn set_paths(paths: &mut [PathState; 4], path: PathNo, function: u8, id: GroupId)
    ensures { paths.new ≡ paths_set paths.old path function id }
{
    let at = usize::from(path.get() - 1);
    if establishes(function) {
        paths[at] = PathState::Grouped {
            id,
            multipath: asks_multipath(function),
        };
    } else if resigns(function) {
        paths[at] = PathState::Ungrouped;
    } else {
        disband(paths, id);
    }
}

/// Whom a path of this state stands for.
pub fn owner_by(state: PathState, path: PathNo) -> Owner
    ensures { result ≡ owner_by state path }
{
    match state {
        PathState::Grouped { id, .. } => Owner::Group(id),
        PathState::Reset | PathState::Ungrouped => Owner::Path(path),
    }
}

/// Two owners are one where they are the same path or have the same eleven bytes as group ID. A path is
/// never the same as a group, also where it is one of its paths. Own.
pub fn is_same_owner(a: &Owner, b: &Owner) -> bool
    ensures { result ≡ is_same_owner a.now b.now }
{
    match (a, b) {
        (Owner::Group(a), Owner::Group(b)) => is_same_group(*a, *b),
        (Owner::Path(p), Owner::Path(q)) => p.get() == q.get(),
        (Owner::Group(_), Owner::Path(_)) | (Owner::Path(_), Owner::Group(_)) => false,
    }
}

fn has_path(paths: &[PathState], group: GroupId) -> bool
    ensures { result ≡ list_any (is_in_group group) paths.now }
{
    for state in paths {
        if is_in_group(group, *state) {
            return true;
        }
    }
    false
}

/// Who holds the device behind the reset of a path, with the paths as they are behind it.
pub fn owner_after(paths: &[PathState], path: PathNo, owner: Option<Owner>) -> Option<Owner>
    ensures { result ≡ owner_after paths.now path owner }
{
    match owner? {
        Owner::Path(q) => {
            if q.get() == path.get() {
                None
            } else {
                Some(Owner::Path(q))
            }
        }
        Owner::Group(g) => {
            if has_path(paths, g) {
                Some(Owner::Group(g))
            } else {
                None
            }
        }
    }
}

fn owner_joined(id: GroupId, path: PathNo, owner: Owner) -> Owner
    ensures { result ≡ owner_joined id path owner }
{
    match owner {
        Owner::Path(q) => {
            if q.get() == path.get() {
                Owner::Group(id)
            } else {
                Owner::Path(q)
            }
        }
        Owner::Group(g) => Owner::Group(g),
    }
}

fn owner_left(paths: &[PathState], path: PathNo, owner: Owner) -> Owner
    ensures { result ≡ owner_left paths.now path owner }
{
    match owner {
        Owner::Group(g) => {
            if has_path(paths, g) {
                Owner::Group(g)
            } else {
                Owner::Path(path)
            }
        }
        Owner::Path(q) => Owner::Path(q),
    }
}

/// Who holds the device behind a set path group ID, with the paths as they are behind it.
pub fn owner_set(
    paths: &[PathState],
    path: PathNo,
    function: u8,
    id: GroupId,
    owner: Option<Owner>,
) -> Option<Owner>
    ensures { result ≡ owner_set paths.now path function id owner }
{
    let owner = owner?;
    if establishes(function) {
        Some(owner_joined(id, path, owner))
    } else {
        Some(owner_left(paths, path, owner))
    }
}

fn member_bits(state: PathState) -> u8
    ensures bits { result ≡ member_bits state }
    ensures most { result ≤ 0xc0 }
{
    match state {
        PathState::Reset => 0x00,
        PathState::Ungrouped => 0x80,
        PathState::Grouped { .. } => 0xc0,
    }
}

fn reserved_bits(owner: Option<Owner>, here: &Owner) -> u8
    ensures bits { result ≡ reserved_bits owner here.now }
    ensures most { result ≤ 0x30 }
{
    match owner {
        None => 0x00,
        Some(holder) => {
            if is_same_owner(&holder, here) {
                0x30
            } else {
                0x20
            }
        }
    }
}

fn mode_bit(state: PathState) -> u8
    ensures bit { result ≡ mode_bit state }
    ensures most { result ≤ 0x08 }
{
    match state {
        PathState::Grouped {
            multipath: true,
            ..
        } => 0x08,
        _ => 0x00,
    }
}

/// The first byte of sense path group ID: the path's state, the reservation as the path sees it, and
/// the mode.
pub fn state_byte(state: PathState, path: PathNo, owner: Option<Owner>) -> u8
    ensures { result ≡ state_byte state path owner }
{
    member_bits(state) + reserved_bits(owner, &owner_by(state, path)) + mode_bit(state)
}

fn group_id_bytes(state: PathState) -> [u8; 11]
    ensures { result ≡ group_id_bytes state }
{
    match state {
        PathState::Grouped { id, .. } => id.bytes,
        PathState::Reset | PathState::Ungrouped => [0; 11],
    }
}

/// The bytes of sense path group ID: the state byte, and the ID.
pub fn group_bytes(state: PathState, path: PathNo, owner: Option<Owner>) -> [u8; 12]
    ensures { result ≡ group_bytes state path owner }
{
    let mut bytes = [0; 12];
    bytes[0] = state_byte(state, path, owner);
    bytes[1..].copy_from_slice(&group_id_bytes(state));
    bytes
}

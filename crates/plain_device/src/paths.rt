ghost use Rattle.std.specs.Prelude.{◌≡◌, ◌==◌, IfOk, OnOk, OnErr};
ghost use Rattle.std.specs.List.{list_all};
ghost use Rattle.ckd_types.specs.Ccw.{ccw_at};
ghost use Rattle.ckd_rules.specs.Grouping.{is_free_for};
ghost use Rattle.ckd_types.specs.declared.geometry.Geometry.{Geometry};
ghost use Rattle.ckd_chain.specs.declared.progress.Settled.TheVariants.{Sent};
ghost use Rattle.ckd_rules.specs.declared.order.LocalAct.TheVariants.{SetGroup};
ghost use Rattle.plain_defs.specs.Acts.{sensed};
ghost use Rattle.plain_defs.specs.PlainState.{fresh_paths, sense_for, with_sense, reset_path, asks_for_group, is_admitted};
ghost use Rattle.plain_defs.specs.Program.{sense_begun, starts_with_sense};
ghost use Rattle.plain_device.specs.Acted.{settled_act, paths_behind};

use ckd_chain::{LocalAct, Settled};
use ckd_rules::{group_bytes, is_same_owner, sense_id_bytes};
use ckd_sense::zero;
use ckd_types::{Bytes, Ccw, Geometry, GroupId, NoMemory, Owner, PathNo, Sense};
use path_group::Groups;
use reserve_state::Reserve;
use std::alloc::Global;
use std::marker::Model;

/// What is kept of a device's four paths: their groups, who holds the device, and a sense for each path.
#[derive(Clone, Copy, Debug)]
pub struct Paths {
    groups: Groups,
    reserve: Reserve,
    senses: [Sense; 4],
}

impl Model for Paths {
    ghost use Rattle.plain_defs.specs.PlainState.{PathsState};

    ghost Value = { PathsState };

    ghost view = { λ p. record { states = p.groups; owner = p.reserve; senses = p.senses } };

    ghost inverse = { λ p. record { groups = p.states; reserve = p.owner; senses = p.senses } };
}

/// Sense, reserve, release and unconditional reserve send the sense that their path has.
fn starts_with_sense(ccws: &[Ccw]) -> bool
    ensures { result ≡ starts_with_sense ccws.now }
{
    match ccws.first() {
        Some(ccw) => matches!(ccw.command, 0x04 | 0xb4 | 0x94 | 0x14),
        None => false,
    }
}

/// It only asks for the state of its path's group, or moves in the channel.
fn asks_for_group(ccw: &Ccw) -> bool
    ensures { result ≡ asks_for_group ccw.now }
{
    ccw.is_transfer() || ccw.command == 0x34
}

/// Each of its words does.
fn all_ask_for_group(ccws: &[Ccw]) -> bool
    ensures { result ≡ list_all asks_for_group ccws.now }
{
    ccws.iter().all(|ccw| asks_for_group(ccw))
}

/// The first command of a program is an unconditional reserve.
fn starts_with_steal(ccws: &[Ccw]) -> bool
    ensures { result ≡ ((ccw_at ccws.now 0).command == 0x14) }
{
    match ccws.first() {
        Some(ccw) => ccw.command == 0x14,
        None => false,
    }
}

impl Paths {
    /// No path has used anything.
    pub fn new() -> Paths
        ensures { result ≡ fresh_paths }
    {
        Paths {
            groups: Groups::new(),
            reserve: Reserve::new(),
            senses: [zero(); 4],
        }
    }

    /// Who holds the device.
    pub fn owner(&self) -> Option<Owner>
        ensures { result ≡ self.now.owner }
    {
        self.reserve.owner()
    }

    /// Keeps the sense of a path, where a command's end has one.
    pub fn keep_sense(&mut self, path: PathNo, sense: Option<Sense>)
        ensures { self.new ≡ with_sense self.old path sense }
    {
        if let Some(sense) = sense {
            self.senses[usize::from(path.get() - 1)] = sense;
        }
    }

    /// A program begins: unless it begins with a command that sends the sense of its path, that is zero.
    pub fn begin(&mut self, path: PathNo, ccws: &[Ccw])
        ensures { self.new ≡ sense_begun self.old path ccws.now }
    {
        if !starts_with_sense(ccws) {
            self.keep_sense(path, Some(zero()));
        }
    }

    /// Resets a path: its state and its sense, and what it held.
    pub fn reset(&mut self, path: PathNo)
        ensures { self.new ≡ reset_path self.old path }
    {
        self.groups.reset(path);
        self.reserve.path_reset(self.groups.paths(), path);
        self.senses[usize::from(path.get() - 1)] = zero();
    }

    /// Sends the sense of a path, which is then zero.
    fn sensed(&mut self, alloc: Global, path: PathNo) -> Result<Settled, NoMemory>
        ensures how { IfOk result (λ how. how ≡ Sent (sense_for self.old path).bytes) }
        ensures after { OnOk result (self.new ≡ sensed self.old path) }
        ensures same { OnErr result (self.new ≡ self.old) }
    {
        let at = usize::from(path.get() - 1);
        let bytes = Bytes::from_slice(alloc, &self.senses[at].bytes)?;
        self.keep_sense(path, Some(zero()));
        Ok(Settled::Sent(bytes))
    }

    fn set_group(&mut self, path: PathNo, function: u8, id: GroupId) -> Settled
        ensures how { (g : Geometry) → result ≡ settled_act g self.old path (SetGroup function id) }
        ensures after { self.new ≡ paths_behind self.old path (SetGroup function id) }
    {
        match self.groups.set(path, function, id) {
            Ok(()) => {
                self.reserve
                    .group_set(self.groups.paths(), path, function, id);
                Settled::Written
            }
            Err(_) => Settled::BadParameter,
        }
    }

    /// Does what a command of a path asks of a device of this model, and says how the command is to be settled.
    pub fn act(
        &mut self,
        alloc: Global,
        geometry: Geometry,
        path: PathNo,
        act: LocalAct,
    ) -> Result<Settled, NoMemory>
        ensures how { IfOk result (λ how. how ≡ settled_act geometry self.old path act) }
        ensures after { OnOk result (self.new ≡ paths_behind self.old path act) }
        ensures same { OnErr result (self.new ≡ self.old) }
    {
        match act {
            LocalAct::Sense => self.sensed(alloc, path),
            LocalAct::Reserve | LocalAct::Steal => {
                let how = self.sensed(alloc, path)?;
                self.reserve.hold(self.groups.owner_of(path));
                Ok(how)
            }
            LocalAct::Release => {
                let how = self.sensed(alloc, path)?;
                self.reserve.free();
                Ok(how)
            }
            LocalAct::SenseId => {
                let bytes = Bytes::from_slice(alloc, &sense_id_bytes(geometry))?;
                Ok(Settled::Sent(bytes))
            }
            LocalAct::SetGroup { function, id } => Ok(self.set_group(path, function, id)),
            LocalAct::SenseGroup => {
                let state = self.groups.paths()[usize::from(path.get() - 1)];
                let bytes = group_bytes(state, path, self.reserve.owner());
                Ok(Settled::Sent(Bytes::from_slice(alloc, &bytes)?))
            }
        }
    }

    /// Nobody but this owner holds the device.
    fn is_free_for(&self, owner: &Owner) -> bool
        ensures { result ≡ is_free_for self.now.owner owner.now }
    {
        match self.reserve.owner() {
            Some(holder) => is_same_owner(&holder, owner),
            None => true,
        }
    }

    /// Whether a program may start on a path: nobody else holds the device, or the program takes it from
    /// any holder, or it only asks for its path group (GA32-0099).
    pub fn is_admitted(&self, path: PathNo, ccws: &[Ccw]) -> bool
        ensures { result ≡ is_admitted self.now path ccws.now }
    {
        self.is_free_for(&self.groups.owner_of(path))
            || starts_with_steal(ccws)
            || all_ask_for_group(ccws)
    }
}

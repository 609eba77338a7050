ghost use Rattle.std.specs.Prelude.{◌≡◌, All, ◌<◌, ◌≤◌, ◌*◌, ◌+◌, [], ℕ, IfOk, IfSome, IsSome, None, OnOk, OnErr, length, take};
ghost use Rattle.ckd_types.specs.Volume.{empty_volume};
ghost use Rattle.ckd_chain.specs.Steps.{need_of};
ghost use Rattle.plain_defs.specs.declared.journal.Act.TheVariants.{Harden, Loosen};
ghost use Rattle.plain_defs.specs.Effect.{kept_by};
ghost use Rattle.plain_defs.specs.Loose.{act_done, cfw_lost, is_loose_there, power_off};
ghost use Rattle.plain_defs.specs.PlainState.{fixed_of, empty_state, reset_path, is_admitted, with_sense};
ghost use Rattle.plain_defs.specs.Program.{sense_begun, acts_at, acts_done};
ghost use Rattle.plain_device.specs.Between.{IsBetween, ComesTo, IsEditOn, Ends, behind_edit, edit_of, effect_of, fixed_with};
ghost use Rattle.plain_device.specs.Looking.{FitsWent, IsLooking, IsAtAnswer, IsWent, stage_effect, walk_of};
ghost use Rattle.plain_device.specs.Volume.{IsActOn};

use crate::loose::{LooseImage, copies, is_among, put_back, take_out};
use crate::volume::Images;
use crate::{Done, Paths, Written};
use ckd_chain::{Chain, Progress, Settled};
use ckd_types::{Ccw, CommandEnd, FixedData, Geometry, HEADS, NoMemory, PathNo, Sense, TrackNo};
use plain_defs::{Act, Acted};
use std::alloc::Global;
use std::marker::Model;
use std::mem::replace;

/// A plain, uncached device: its volume, what is kept of its paths, and its loose tracks.
#[derive(Debug, Drop)]
pub struct PlainDevice {
    fixed: FixedData,
    volume: Images,
    paths: Paths,
    loose: Vec<LooseImage>,
}

impl Model for PlainDevice {
    ghost use Rattle.std.specs.Prelude.{◌≡◌, All, ◌*◌, All, length};
    ghost use Rattle.plain_defs.specs.PlainState.{PlainState};
    ghost use Rattle.plain_device.specs.Volume.{loose_of, IsLooseOf};

    ghost Value = { PlainState };

    ghost view = { λ d. record {
      geometry = d.fixed.geometry;
      cylinders = d.fixed.cylinders;
      volume = d.volume.tracks;
      paths = d.paths;
      loose = loose_of d.loose.items;
      number = d.fixed.number;
    } };

    ghost invariant = { λ d. (d.volume.geometry ≡ d.fixed.geometry) × (length d.volume.tracks ≡ d.fixed.cylinders * 15) ×
        All (IsLooseOf d.fixed.geometry (d.fixed.cylinders * 15)) d.loose.items };
}

/// A look at one track: the command is over, or goes on to another one.
#[derive(Debug, Drop)]
pub enum Went {
    Over(Done),
    On(TrackNo),
}

impl PlainDevice {
    /// A device of empty tracks, of which no path has used anything.
    pub fn new(alloc: Global, geometry: Geometry, cylinders: u16) -> Result<PlainDevice, NoMemory>
        requires some { 1 ≤ cylinders }
        requires most { cylinders ≤ 4369 }
        ensures { IfOk result (λ device. device ≡ empty_state geometry cylinders) }
    {
        Ok(PlainDevice {
            fixed: FixedData::new(geometry, cylinders, 0),
            volume: Images::empty(alloc, geometry, cylinders)?,
            paths: Paths::new(),
            loose: Vec::new(alloc),
        })
    }

    /// Copies the whole volume, and the loose tracks.
    pub fn copy(&self, alloc: Global) -> Result<PlainDevice, NoMemory>
        ensures { IfOk result (λ made. made ≡ self.now) }
    {
        Ok(PlainDevice {
            fixed: self.fixed,
            volume: self.volume.copy(alloc)?,
            paths: self.paths,
            loose: copies(alloc, &self.loose)?,
        })
    }

    /// What of it stays while a program runs.
    pub fn fixed(&self) -> FixedData
        ensures { result ≡ fixed_of self.now }
    {
        self.fixed
    }

    /// What is kept of its paths.
    pub fn paths(&self) -> &Paths
        ensures { result.now ≡ self.now.paths }
    {
        &self.paths
    }

    /// Keeps the sense of a path, where a command's end has one.
    pub fn keep_sense(&mut self, path: PathNo, sense: Option<Sense>)
        ensures { self.new ≡ record self.old { paths = with_sense self.old.paths path sense } }
    {
        self.paths.keep_sense(path, sense);
    }

    /// Whether a program may start on a path.
    pub fn is_admitted(&self, path: PathNo, ccws: &[Ccw]) -> bool
        ensures { result ≡ is_admitted self.now.paths path ccws.now }
    {
        self.paths.is_admitted(path, ccws)
    }

    /// A program begins: unless it begins with a command that sends the sense of its path, that is zero.
    pub fn begin(&mut self, path: PathNo, ccws: &[Ccw])
        ensures { self.new ≡ record self.old { paths = sense_begun self.old.paths path ccws.now } }
    {
        self.paths.begin(path, ccws);
    }

    /// Resets a path: its state and its sense, and what it held.
    pub fn reset(&mut self, path: PathNo)
        ensures { self.new ≡ record self.old { paths = reset_path self.old.paths path } }
    {
        self.paths.reset(path);
    }

    /// Whether a track is loose.
    pub fn is_loose(&self, t: TrackNo) -> bool
        ensures { result ≡ is_loose_there self.now t }
    {
        is_among(&self.loose, t)
    }

    /// How many tracks are loose.
    pub fn loose_count(&self) -> usize
        ensures { result ≡ length self.now.loose }
    {
        self.loose.len()
    }

    /// A track becomes loose: the device keeps what it is now.
    pub fn loosen(&mut self, alloc: Global, t: TrackNo) -> Result<(), NoMemory>
        requires { t < self.old.cylinders * 15 }
        ensures done { OnOk result (self.new ≡ act_done self.old (Loosen t)) }
        ensures same { OnErr result (self.new ≡ self.old) }
    {
        self.loose.reserve(1)?;
        let image = self.volume.image(t).copy(alloc)?;
        self.loose.push_reserved(LooseImage { track: t, image });
        Ok(())
    }

    /// A loose track is firm again, as it is now.
    pub fn harden(&mut self, t: TrackNo)
        ensures { self.new ≡ act_done self.old (Harden t) }
    {
        take_out(&mut self.loose, t);
    }

    /// All loose tracks go back to what they were, and the number is raised.
    pub fn lose_loose(&mut self, alloc: Global)
        ensures { self.new ≡ cfw_lost self.old }
    {
        let loose = replace(&mut self.loose, Vec::new(alloc));
        put_back(&mut self.volume, loose);
        let number = self.fixed.number().checked_add(1).unwrap_or(0);
        self.fixed = FixedData::new(self.fixed.geometry(), self.fixed.cylinders(), number);
    }

    /// Does an act of cache fast write. Only one that loosens takes memory.
    pub fn act(&mut self, alloc: Global, act: Act) -> Result<(), NoMemory>
        requires { IsActOn (self.old.cylinders * 15) act }
        ensures done { OnOk result (self.new ≡ act_done self.old act) }
        ensures same { OnErr result (self.new ≡ self.old) }
    {
        match act {
            Act::Loosen(t) => self.loosen(alloc, t),
            Act::Harden(t) => {
                self.harden(t);
                Ok(())
            }
            Act::CfwLost => {
                self.lose_loose(alloc);
                Ok(())
            }
        }
    }

    /// Does those acts of a program that stand behind so many of its ends. At want of memory a front of them is done.
    pub fn act_behind(&mut self, alloc: Global, acts: &[Acted], ends: usize) -> Result<(), NoMemory>
        requires { All (λ a. IsActOn (self.old.cylinders * 15) a.act) acts.now }
        ensures done { OnOk result (self.new ≡ acts_done self.old (acts_at acts.now ends)) }
        ensures front { OnErr result ((k : ℕ) × (self.new ≡ acts_done self.old (acts_at (take k acts.now) ends))) }
        ensures same { (self.new.geometry ≡ self.old.geometry) × (self.new.cylinders ≡ self.old.cylinders) }
    {
        for acted in acts {
            if usize::from(acted.after) == ends {
                self.act(alloc, acted.act)?;
            }
        }
        Ok(())
    }

    /// A power loss takes the data of cache fast write, and all that is kept of the paths.
    pub fn power_off(&mut self, alloc: Global)
        ensures { self.new ≡ power_off self.old }
    {
        if !self.loose.is_empty() {
            self.lose_loose(alloc);
        }
        self.paths = Paths::new();
    }

    /// Another volume takes the place of the old one: its tracks are empty.
    pub fn empty(&mut self, alloc: Global) -> Result<(), NoMemory>
        ensures done { OnOk result (self.new ≡ record self.old { volume = empty_volume self.old.cylinders; loose = [] }) }
        ensures same { OnErr result (self.new ≡ self.old) }
    {
        self.volume = Images::empty(alloc, self.fixed.geometry(), self.fixed.cylinders())?;
        self.loose.clear();
        Ok(())
    }

    /// A command that ended so, and edits nothing.
    fn unwritten(&self, path: PathNo, end: CommandEnd) -> Done
        ensures { result ≡ record { end = end; edit = None; paths = with_sense self.now.paths path end.sense } }
    {
        let mut paths = self.paths;
        paths.keep_sense(path, end.sense);
        Done {
            end,
            edit: None,
            paths,
        }
    }

    /// A look at the track that the command at hand is on.
    fn look(
        &self,
        alloc: Global,
        path: PathNo,
        chain: &mut Chain,
        track: TrackNo,
    ) -> Result<Went, NoMemory>
        requires looking { IsLooking self.now chain.old }
        requires track { track ≡ chain.old.at.stance.track }
        requires on_device { track < self.now.cylinders * 15 }
        ensures went { IfOk result (IsWent self.now path chain.old chain.new) }
        ensures fits { IfOk result (FitsWent self.now) }
    {
        match chain.step(alloc, Some(self.volume.image(track)))? {
            Progress::Ended(end) => Ok(Went::Over(self.unwritten(path, end))),
            Progress::Need(next) => Ok(Went::On(next)),
            Progress::Write { track, edit } => {
                let end = chain.settle(Settled::Written);
                let mut done = self.unwritten(path, end);
                done.edit = Some(Written { track, edit });
                Ok(Went::Over(done))
            }
            Progress::Local(_) => unreachable!(),
        }
    }

    /// A command that looks at tracks, from this one on. It looks at no more tracks than there are.
    fn follow(
        &self,
        alloc: Global,
        path: PathNo,
        chain: &mut Chain,
        first: TrackNo,
    ) -> Result<Done, NoMemory>
        requires looking { IsLooking self.now chain.old }
        requires track { first ≡ chain.old.at.stance.track }
        requires on_device { first < self.now.cylinders * 15 }
        ensures ends { IfOk result (λ done. ComesTo chain.old chain.new done
            (kept_by self.now.paths path (walk_of self.now chain.old (self.now.cylinders * 15)))) }
        ensures fits { IfOk result (λ done. IsEditOn self.now done.edit) }
    {
        let mut track = first;
        let tracks = self.fixed.cylinders() * HEADS;
        for _turn in 0..tracks {
            match self.look(alloc, path, chain, track)? {
                Went::Over(done) => return Ok(done),
                Went::On(next) => track = next,
            }
        }
        let end = chain.settle(Settled::Equipment);
        Ok(self.unwritten(path, end))
    }

    /// A command that looks at no track.
    fn answer(&self, alloc: Global, path: PathNo, chain: &mut Chain) -> Result<Done, NoMemory>
        requires running { IsSome chain.old.at.next }
        requires answers { IsAtAnswer chain.old.stage }
        ensures ends { IfOk result (λ done. ComesTo chain.old chain.new done (stage_effect self.now path chain.old chain.old.stage)) }
        ensures fits { IfOk result (λ done. done.edit ≡ None) }
    {
        match chain.step(alloc, None)? {
            Progress::Ended(end) => Ok(self.unwritten(path, end)),
            Progress::Local(act) => {
                let mut paths = self.paths;
                let how = paths.act(alloc, self.fixed.geometry(), path, act)?;
                let end = chain.settle(how);
                paths.keep_sense(path, end.sense);
                Ok(Done {
                    end,
                    edit: None,
                    paths,
                })
            }
            Progress::Need(_) | Progress::Write { .. } => unreachable!(),
        }
    }

    /// The command at hand, which has begun.
    fn go_on(
        &self,
        alloc: Global,
        path: PathNo,
        chain: &mut Chain,
        need: Option<TrackNo>,
    ) -> Result<Done, NoMemory>
        requires fixed { chain.old.fixed ≡ fixed_with self.now chain.old.fixed.number }
        requires running { IsSome chain.old.at.next }
        requires begun { IsSome chain.old.stage }
        requires need { need ≡ need_of chain.old }
        requires on_device { IfSome need (λ t. t < self.now.cylinders * 15) }
        ensures ends { IfOk result (λ done. ComesTo chain.old chain.new done (stage_effect self.now path chain.old chain.old.stage)) }
        ensures fits { IfOk result (λ done. IsEditOn self.now done.edit) }
    {
        match need {
            Some(track) => self.follow(alloc, path, chain, track),
            None => self.answer(alloc, path, chain),
        }
    }

    /// The command at hand of a chain, to its end. The device stays as it is, until the command is settled. After want
    /// of memory the chain is of no use.
    pub fn attempt(&self, alloc: Global, path: PathNo, chain: &mut Chain) -> Result<Done, NoMemory>
        requires between { IsBetween self.now chain.old }
        ensures done { IfOk result (λ done. ComesTo chain.old chain.new done (effect_of self.now path chain.old)) }
        ensures fits { IfOk result (λ done. IsEditOn self.now done.edit) }
    {
        let need = chain.need();
        let done = self.go_on(alloc, path, chain, need)?;
        Ok(done)
    }

    /// Makes of the device what a command came to. Takes memory only for a record behind the last one of a track.
    pub fn settle(&mut self, edit: Option<Written>, paths: Paths) -> Result<(), NoMemory>
        requires fits { IsEditOn self.old edit }
        ensures device { OnOk result (self.new ≡ behind_edit self.old (edit_of edit) paths) }
        ensures same { OnErr result (self.new ≡ self.old) }
    {
        if let Some(written) = edit {
            self.volume.edit(written.track, written.edit)?;
        }
        self.paths = paths;
        Ok(())
    }

    /// The command at hand of a chain, to its end. After want of memory device and chain are of no use.
    pub fn command(
        &mut self,
        alloc: Global,
        path: PathNo,
        chain: &mut Chain,
    ) -> Result<CommandEnd, NoMemory>
        requires between { IsBetween self.old chain.old }
        ensures ends { IfOk result (Ends self.old path self.new chain.old chain.new) }
    {
        let Done { end, edit, paths } = self.attempt(alloc, path, chain)?;
        self.settle(edit, paths)?;
        Ok(end)
    }
}

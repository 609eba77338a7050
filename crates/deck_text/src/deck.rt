ghost use Rattle.std.specs.Prelude.{◌≡◌, ◌<◌, ◌≤◌, ◌++◌, ◌∷◌, [], IfOk, OnOk, OnErr, length, slice_index_or};
ghost use Rattle.deck_text.specs.DeckLines.{no_lines};
ghost use Rattle.deck_text.specs.Places.{planned_as};
ghost use Rattle.deck_text.specs.Plans.{plans_of};

use crate::planned::Planned;
use crate::{DeviceLine, FaultLine, PlannedProgram};
use ckd_ccw::Program;
use ckd_types::{DeviceNo, NoMemory, PathNo};
use deck_plan::{EventLine, PathPlans, Schedule};
use std::alloc::Global;
use std::marker::Model;

/// A deck. It is seen as its lines.
#[derive(Debug, Drop)]
pub struct Deck {
    frames: u16,
    slots: u16,
    devices: Vec<DeviceLine>,
    faults: Vec<FaultLine>,
    programs: Planned,
    schedule: Schedule,
}

impl Model for Deck {
    ghost use Rattle.deck_text.specs.DeckLines.{DeckLines};

    ghost Value = { DeckLines };

    ghost view = { λ d. record {
      frames = d.frames;
      slots = d.slots;
      devices = d.devices.items;
      faults = d.faults.items;
      programs = d.programs;
      events = d.schedule.items;
    } };

    ghost use Rattle.std.specs.Prelude.{◌≤◌, length};

    ghost invariant = { λ d. (length d.programs ≤ 512) × (length d.schedule.items ≤ 65536) };
}

impl Deck {
    /// A deck without lines yet.
    pub fn new(alloc: Global) -> Result<Deck, NoMemory>
        ensures { IfOk result (λ deck. deck ≡ no_lines) }
    {
        Ok(Deck {
            frames: 0,
            slots: 0,
            devices: Vec::new(alloc),
            faults: Vec::new(alloc),
            programs: Planned::new(alloc)?,
            schedule: Schedule::new(alloc),
        })
    }

    /// How many frames the cache has. No range is looked at: a deck that is read has at most 4,096.
    pub fn set_frames(&mut self, frames: u16)
        ensures { self.new ≡ record self.old { frames = frames } }
    {
        self.frames = frames;
    }

    /// How many slots the nonvolatile store has. No range is looked at: a deck that is read has at most 1,024.
    pub fn set_slots(&mut self, slots: u16)
        ensures { self.new ≡ record self.old { slots = slots } }
    {
        self.slots = slots;
    }

    /// Puts a device behind those that there are. Whether its number is another one's isn't looked at.
    pub fn push_device(&mut self, line: DeviceLine) -> Result<(), NoMemory>
        ensures ok { OnOk result (self.new ≡ record self.old { devices = self.old.devices ++ line ∷ [] }) }
        ensures err { OnErr result (self.new ≡ self.old) }
    {
        self.devices.push(line)?;
        Ok(())
    }

    pub(crate) fn push_fault(&mut self, line: FaultLine) -> Result<(), NoMemory>
        ensures ok { OnOk result (self.new ≡ record self.old { faults = self.old.faults ++ line ∷ [] }) }
        ensures err { OnErr result (self.new ≡ self.old) }
    {
        self.faults.push(line)?;
        Ok(())
    }

    /// Puts a program behind those that there are: a deck has 512 at most.
    pub fn push_program(&mut self, planned: PlannedProgram) -> Result<(), NoMemory>
        requires { length self.old.programs < 512 }
        ensures ok { OnOk result (self.new ≡ record self.old { programs = self.old.programs ++ planned ∷ [] }) }
        ensures err { OnErr result (self.new ≡ self.old) }
    {
        self.programs.push(planned)
    }

    /// Puts an event line behind those that there are: a deck has 65,536 at most.
    pub fn push_event(&mut self, line: EventLine) -> Result<(), NoMemory>
        requires { length self.old.events < 65536 }
        ensures ok { OnOk result (self.new ≡ record self.old { events = self.old.events ++ line ∷ [] }) }
        ensures err { OnErr result (self.new ≡ self.old) }
    {
        self.schedule.reserve(1)?;
        self.schedule.push(line);
        Ok(())
    }

    pub(crate) fn devices(&self) -> &[DeviceLine]
        ensures { result.now ≡ self.now.devices }
    {
        &self.devices
    }

    pub(crate) fn faults(&self) -> &[FaultLine]
        ensures { result.now ≡ self.now.faults }
    {
        &self.faults
    }

    pub(crate) fn program_at(&self, i: usize) -> (PathNo, DeviceNo, &Program)
        requires { i < length self.now.programs }
        ensures { planned_as result.0 result.1 result.2.now ≡ slice_index_or self.now.programs i (planned_as result.0 result.1 result.2.now) }
    {
        self.programs.at(i)
    }

    /// The frames of the cache.
    pub fn frames(&self) -> u16
        ensures { result ≡ self.now.frames }
    {
        self.frames
    }

    /// The slots of the store.
    pub fn slots(&self) -> u16
        ensures { result ≡ self.now.slots }
    {
        self.slots
    }

    /// How many DEVICE lines there are, at most 16.
    pub fn device_count(&self) -> usize
        ensures { result ≡ length self.now.devices }
    {
        self.devices.len()
    }

    /// DEVICE line `i`, from 0 on.
    pub fn device_at(&self, i: usize) -> DeviceLine
        requires { i < length self.now.devices }
        ensures { result ≡ slice_index_or self.now.devices i result }
    {
        self.devices[i]
    }

    /// How many FAULT lines there are, at most 1,024.
    pub fn fault_count(&self) -> usize
        ensures { result ≡ length self.now.faults }
    {
        self.faults.len()
    }

    /// FAULT line `i`, from 0 on.
    pub fn fault_at(&self, i: usize) -> FaultLine
        requires { i < length self.now.faults }
        ensures { result ≡ slice_index_or self.now.faults i result }
    {
        self.faults[i]
    }

    /// How many programs there are, at most 512.
    pub fn program_count(&self) -> usize
        ensures value { result ≡ length self.now.programs }
        ensures most { result ≤ 512 }
    {
        self.programs.len()
    }

    /// The programs of a device by path, in the order in which they are started.
    pub fn plans(&self, d: DeviceNo) -> &PathPlans
        ensures { result.now ≡ plans_of self.now.programs d }
    {
        self.programs.plans(d)
    }

    /// How many event lines there are, at most 65,536.
    pub fn event_count(&self) -> usize
        ensures value { result ≡ length self.now.events }
        ensures most { result ≤ 65536 }
    {
        self.schedule.len()
    }

    /// The events, in their order.
    pub fn schedule(&self) -> &Schedule
        ensures { result.now.items ≡ self.now.events }
    {
        &self.schedule
    }
}

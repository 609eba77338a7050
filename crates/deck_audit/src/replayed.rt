use crate::HalfWrite;
use ckd_chain::Chain;
use ckd_types::{DeviceNo, PathNo};
use plain_device::{Paths, PlainDevice, Written};
use std::marker::Model;

/// The program that runs: its path, its ordinal there, and its chain.
#[derive(Debug, Drop)]
pub struct Running {
    pub path: PathNo,
    pub ordinal: u16,
    pub chain: Chain,
}

/// What the command that ended last does to the device, once the lines behind its end are read.
#[derive(Debug, Drop)]
pub struct Pending {
    pub edit: Option<Written>,
    pub paths: Paths,
    /// It edits data of cache fast write.
    pub provisional: bool,
}

/// A device of the deck, as the lines that were read so far make it.
#[derive(Debug, Drop)]
pub struct ReplayedDevice {
    pub number: DeviceNo,
    pub device: PlainDevice,
    /// Of each path, how many programs were started.
    pub started: [u16; 4],
    /// It ran a program since its last reset.
    pub used: [bool; 4],
    /// Its reset waits for the end of the program that runs.
    pub waits: [bool; 4],
    /// A program was started since the power came.
    pub powered: bool,
    pub running: Option<Running>,
    pub pending: Option<Pending>,
    pub half: HalfWrite,
    /// The device that has its volume.
    pub lent: Option<DeviceNo>,
}

impl Model for ReplayedDevice {
    ghost use Rattle.std.specs.Prelude.{IfSome, option_map};
    ghost use Rattle.deck_audit.specs.Replay.{IsOn, IsPendingOn};
    ghost use Rattle.deck_audit.specs.Replayed.{ReplayedState, pending_of};

    ghost Value = { ReplayedState };

    ghost view = { λ d. record {
      number = d.number;
      device = d.device;
      started = d.started;
      used = d.used;
      waits = d.waits;
      powered = d.powered;
      running = d.running;
      pending = option_map pending_of d.pending;
      half = d.half;
      lent = d.lent;
    } };

    ghost invariant = { λ d. IfSome d.running (λ r. IsOn d.device r) × IfSome d.pending (λ p. IsPendingOn d.device p) };
}

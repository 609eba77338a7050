ghost use Rattle.std.specs.Prelude.{◌≡◌, ◌≤◌, IfOk, None, OnErr, OnOk, Some, false, is_some, true};
ghost use Rattle.plain_defs.specs.History.{is_path_of};
ghost use Rattle.device_outside.specs.Outside.{PortView, where_ok};
ghost use Rattle.device_outside.specs.Volume.{counted};
ghost use Rattle.device_defs.specs.Command.{command};
ghost use Rattle.device_defs.specs.Contents.{contents};
ghost use Rattle.device_defs.specs.Events.{second};
ghost use Rattle.device_defs.specs.Start.{start, start_fault};
ghost use Rattle.device_core.specs.State.{device_of, HasSameTracks};
ghost use Rattle.path_workers.specs.Comes.{Comes};
ghost use Rattle.path_workers.specs.Keeping.{Moves};
ghost use Rattle.path_workers.specs.Visits.{half_came, half_event, has_own_half, is_commands, path_came, path_event, start_came, started_by, whatever};
ghost use Rattle.path_workers.specs.declared.events.Came.TheVariants.{Went};

use ckd_types::{NoMemory, PathNo};
use device_core::{Device, HalfOrigin, NotStarted};
use device_defs::StartFault;
use device_outside::{Gate, Port, Volume, counted};

/// What came of a look at a device.
#[derive(Clone, Copy, Debug, PartialEq, Eq)]
pub enum Came {
    /// An event was done.
    Went,
    /// Others have the device, or hold it, or it waits for what others do: this one tries again.
    Again,
    /// Nothing is left to do here.
    Over,
}

/// The events of a path's worker: through which gate they go, and how many there were.
#[derive(Drop)]
pub struct Visitor<'a, G: Gate> {
    pub path: PathNo,
    pub gate: &'a G,
    pub calls: u64,
    ghost least: { 1 ≤ path },
    ghost most: { path ≤ 4 },
}

impl<'a, G: Gate> Visitor<'a, G> {
    /// Of this path's worker, before its first event.
    pub fn new(path: PathNo, gate: &'a G) -> Visitor<'a, G>
        ensures { result.path ≡ path }
    {
        let _number = path.get();
        Visitor {
            path,
            gate,
            calls: 0,
        }
    }

    /// The next event comes.
    fn before<V: Volume>(&mut self, device: &Device<V>)
        ensures same { (self.new.path ≡ self.old.path) × (self.new.gate ≡ self.old.gate) }
        ensures calls { self.new.calls ≡ counted self.old.calls }
    {
        self.calls = counted(self.calls);
        self.gate
            .before_transfer(self.path, device.number(), self.calls);
    }

    /// It was done. The gate is told the number that it was told before it.
    fn after<V: Volume>(&self, device: &Device<V>) -> u64
        ensures { result ≡ self.now.calls }
    {
        let calls = self.calls;
        self.gate.after_transfer(self.path, device.number(), calls);
        calls
    }
}

fn fault_came(fault: StartFault) -> Came
    ensures { result ≡ start_came (Some fault) }
{
    match fault {
        StartFault::Busy { .. } => Came::Again,
        StartFault::Reserved { .. } => Came::Again,
        StartFault::Secondary { .. } => Came::Over,
        StartFault::PlanDone => Came::Over,
        StartFault::Shut { .. } => Came::Over,
    }
}

/// The next program of a path starts, which nothing keeps out.
pub(crate) fn begin<V: Volume>(device: &mut Device<V>, path: PathNo) -> Result<(), NoMemory>
    requires free { start_fault (device_of device.old) path ≡ None }
    ensures started { OnOk result (device_of device.new ≡ start (device_of device.old) path) }
    ensures same { OnErr result (device_of device.new ≡ device_of device.old) }
    ensures store { HasSameTracks device.old device.new }
{
    match device.start(path) {
        Ok(_) => Ok(()),
        Err(NotStarted::NoMemory) => Err(NoMemory),
        Err(NotStarted::Refused(_)) => unreachable!(),
    }
}

/// The path's program runs.
pub(crate) fn runs_on<V: Volume>(device: &Device<V>, path: PathNo) -> bool
    ensures { result ≡ is_path_of (device_of device.now).history.running path }
{
    match device.active() {
        Some(active) => active == path,
        None => false,
    }
}

/// The device's volume is lent.
pub(crate) fn is_lent<V: Volume>(device: &Device<V>) -> bool
    ensures { result ≡ is_some (device_of device.now).store.lent }
{
    device.lent_to().is_some()
}

/// The next program of the path starts, where nothing keeps it out.
fn start_next<V: Volume, G: Gate>(
    device: &mut Device<V>,
    visitor: &mut Visitor<G>,
) -> Result<Came, NoMemory>
    ensures path { visitor.new.path ≡ visitor.old.path }
    ensures came { IfOk result (λ came. came ≡ start_came (start_fault (device_of device.old) visitor.old.path)) }
    ensures run { (view : PortView) → Comes (where_ok result)
        (started_by (device_of device.old) visitor.old.path (start_fault (device_of device.old) visitor.old.path)) view device.old view device.new }
    ensures moves { OnOk result (Moves visitor.old.path device.old device.new) }
{
    let path = visitor.path;
    if let Some(fault) = device.start_fault(path) {
        return Ok(fault_came(fault));
    }
    visitor.before(device);
    let began = begin(device, path);
    visitor.after(device);
    match began {
        Err(NoMemory) => Err(NoMemory),
        Ok(()) => Ok(Came::Went),
    }
}

/// A command of the path's program that runs.
fn command<V: Volume, P: Port, G: Gate>(
    device: &mut Device<V>,
    visitor: &mut Visitor<G>,
    port: &mut P,
) -> Result<Came, NoMemory>
    requires home { (device_of device.old).store.lent ≡ None }
    requires runs { is_path_of (device_of device.old).history.running visitor.old.path ≡ true }
    requires whole { is_some (device_of device.old).store.half ≡ false }
    ensures path { visitor.new.path ≡ visitor.old.path }
    ensures came { IfOk result (λ came. came ≡ Went) }
    ensures run { Comes (where_ok result) (whatever (command contents (device_of device.old)))
        (P.view port.old) device.old (P.view port.new) device.new }
    ensures moves { OnOk result (Moves visitor.old.path device.old device.new) }
{
    device.recall_chain();
    visitor.before(device);
    let outcome = device.command(port);
    visitor.after(device);
    match outcome {
        Err(NoMemory) => Err(NoMemory),
        Ok(_) => Ok(Came::Went),
    }
}

/// The other part of the write of the path's command.
fn second<V: Volume, P: Port, G: Gate>(
    device: &mut Device<V>,
    visitor: &mut Visitor<G>,
    port: &mut P,
) -> Result<Came, NoMemory>
    requires home { (device_of device.old).store.lent ≡ None }
    requires runs { is_path_of (device_of device.old).history.running visitor.old.path ≡ true }
    requires half { is_some (device_of device.old).store.half ≡ true }
    ensures path { visitor.new.path ≡ visitor.old.path }
    ensures came { IfOk result (λ came. came ≡ Went) }
    ensures run { Comes (where_ok result) (whatever (second contents (device_of device.old)))
        (P.view port.old) device.old (P.view port.new) device.new }
    ensures moves { OnOk result (Moves visitor.old.path device.old device.new) }
{
    visitor.before(device);
    device.second(port);
    visitor.after(device);
    Ok(Came::Went)
}

/// Whether the open half write is of a command.
fn is_of_command<V: Volume>(device: &Device<V>) -> bool
    ensures { result ≡ is_commands (device_of device.now).store.half }
{
    match device.half_of() {
        Some((_, origin)) => origin == HalfOrigin::Command,
        None => false,
    }
}

/// It is of the command of the path's program.
fn has_own_half<V: Volume>(device: &Device<V>, path: PathNo) -> bool
    ensures { result ≡ has_own_half (device_of device.now) path }
{
    runs_on(device, path) && is_of_command(device)
}

/// The other part of the path's own write; another worker's is waited for.
fn half_event<V: Volume, P: Port, G: Gate>(
    device: &mut Device<V>,
    visitor: &mut Visitor<G>,
    port: &mut P,
) -> Result<Came, NoMemory>
    requires home { (device_of device.old).store.lent ≡ None }
    ensures path { visitor.new.path ≡ visitor.old.path }
    ensures came { IfOk result (λ came. came ≡ half_came (has_own_half (device_of device.old) visitor.old.path)) }
    ensures run { Comes (where_ok result) (half_event contents (device_of device.old) (has_own_half (device_of device.old) visitor.old.path))
        (P.view port.old) device.old (P.view port.new) device.new }
    ensures moves { OnOk result (Moves visitor.old.path device.old device.new) }
{
    if has_own_half(device, visitor.path) {
        return second(device, visitor, port);
    }
    Ok(Came::Again)
}

/// One event of a path at a device, where one is due: its half write comes first, then its program that runs, then its next
/// one. Half writes of others are waited for, and so is a path that holds the device.
pub fn path_event<V: Volume, P: Port, G: Gate>(
    device: &mut Device<V>,
    visitor: &mut Visitor<G>,
    port: &mut P,
) -> Result<Came, NoMemory>
    ensures path { visitor.new.path ≡ visitor.old.path }
    ensures came { IfOk result (λ came. came ≡ path_came (device_of device.old) visitor.old.path) }
    ensures run { Comes (where_ok result) (path_event contents (device_of device.old) visitor.old.path)
        (P.view port.old) device.old (P.view port.new) device.new }
    ensures moves { OnOk result (Moves visitor.old.path device.old device.new) }
{
    if is_lent(device) {
        return Ok(Came::Over);
    }
    if device.half_open() {
        return half_event(device, visitor, port);
    }
    if runs_on(device, visitor.path) {
        return command(device, visitor, port);
    }
    start_next(device, visitor)
}

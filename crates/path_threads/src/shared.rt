ghost use Rattle.std.specs.Prelude.{◌≡◌, IsErr};
ghost use Rattle.path_threads.specs.Asked.{obeyed, obeys};
ghost use Rattle.path_threads.specs.Looks.{has_frame, is_quiet, noted_notice, noted_touch};
ghost use Rattle.path_threads.specs.Places.{loss_by};
ghost use Rattle.path_threads.specs.declared.shared.PoolOrder.TheVariants as PoolOrder;
ghost use Rattle.device_outside.specs.Outside.{no_pool};

use ckd_types::{DeviceNo, NoMemory, TrackNo};
use device_outside::{Grant, Port, SlotGrant};
use frame_pool::Pool;
use loss_model::Loss;
use std::sync::atomic::{AtomicBool, AtomicU64, Ordering};
use std::sync::{Mutex, Wait};

/// What the workers share beside the turns: the pool, and whether one of them lacked memory, or a thread.
#[derive(Drop)]
pub(crate) struct Shared {
    pub pool: Mutex<Pool>,
    pub lacks: AtomicBool,
    /// A worker got no thread of its own.
    pub few: AtomicBool,
    /// How many frames the pool gave. A device has a notice only where one was given since it had none.
    pub given: AtomicU64,
}

/// An order of cache or store, which is one of all devices.
#[derive(Clone, Copy, Debug, PartialEq, Eq)]
pub(crate) enum PoolOrder {
    FailCache,
    FailStore,
    RepairCache,
    RepairStore,
}

impl PoolOrder {
    /// What each device loses by it.
    pub fn loss(self) -> Option<Loss>
        ensures { result ≡ loss_by self }
    {
        match self {
            PoolOrder::FailCache => Some(Loss::Cache),
            PoolOrder::FailStore => Some(Loss::Store),
            PoolOrder::RepairCache => None,
            PoolOrder::RepairStore => None,
        }
    }
}

fn fail_cache(pool: &mut Pool) -> bool
    ensures did { result ≡ obeys PoolOrder.FailCache pool.old.pool }
    ensures pool { pool.new ≡ record pool.old { pool = obeyed PoolOrder.FailCache pool.old.pool } }
{
    if !pool.cache_up() {
        return false;
    }
    pool.fail_cache();
    true
}

fn fail_store(pool: &mut Pool) -> bool
    ensures did { result ≡ obeys PoolOrder.FailStore pool.old.pool }
    ensures pool { pool.new ≡ record pool.old { pool = obeyed PoolOrder.FailStore pool.old.pool } }
{
    if !pool.store_up() {
        return false;
    }
    pool.fail_store();
    true
}

/// Where tracks wait the cache stays down, and so does the store.
fn repair_cache(pool: &mut Pool) -> bool
    ensures did { result ≡ obeys PoolOrder.RepairCache pool.old.pool }
    ensures pool { pool.new ≡ record pool.old { pool = obeyed PoolOrder.RepairCache pool.old.pool } }
{
    if pool.cache_up() {
        return false;
    }
    match pool.repair_cache() {
        Ok(()) => true,
        Err(_) => false,
    }
}

fn repair_store(pool: &mut Pool) -> bool
    ensures did { result ≡ obeys PoolOrder.RepairStore pool.old.pool }
    ensures pool { pool.new ≡ record pool.old { pool = obeyed PoolOrder.RepairStore pool.old.pool } }
{
    if pool.store_up() {
        return false;
    }
    match pool.repair_store() {
        Ok(()) => true,
        Err(_) => false,
    }
}

/// What an order does to the pool, and whether it did.
fn obey(pool: &mut Pool, order: PoolOrder) -> bool
    ensures did { result ≡ obeys order pool.old.pool }
    ensures pool { pool.new ≡ record pool.old { pool = obeyed order pool.old.pool } }
{
    match order {
        PoolOrder::FailCache => fail_cache(pool),
        PoolOrder::FailStore => fail_store(pool),
        PoolOrder::RepairCache => repair_cache(pool),
        PoolOrder::RepairStore => repair_store(pool),
    }
}

impl Shared {
    pub fn new(pool: Pool) -> Shared {
        Shared {
            pool: Mutex::new(pool),
            lacks: AtomicBool::new(false),
            few: AtomicBool::new(false),
            given: AtomicU64::new(0),
        }
    }

    pub fn into_pool(self) -> Pool {
        let Shared {
            pool,
            lacks: _,
            few: _,
            given: _,
        } = self;
        pool.into_inner()
    }

    /// A worker lacks memory: it stops, and so will all others.
    pub fn stop<T>(&self) -> Result<T, NoMemory>
        ensures { IsErr result }
    {
        self.lacks.store(true, Ordering::SeqCst);
        Err(NoMemory)
    }

    /// What an order does to the pool, and whether it did.
    pub fn order<R: Wait>(&self, rt: &R, order: PoolOrder) -> bool {
        obey(&mut self.pool.lock(rt), order)
    }

    pub fn is_stopped(&self) -> bool {
        self.lacks.load(Ordering::SeqCst)
    }

    /// A worker got no thread of its own: what others would wait for may never be done meanwhile.
    pub fn lack_threads(&self) {
        self.few.store(true, Ordering::SeqCst);
    }

    /// Whether a worker may wait for what another does.
    pub fn may_wait(&self) -> bool {
        !self.few.load(Ordering::SeqCst)
    }
}

/// A track that had a frame when the pool had given so many.
#[derive(Clone, Copy, Debug, PartialEq, Eq)]
struct Recent {
    track: TrackNo,
    given: u64,
}

/// Of each device, the track that was touched last, and how many frames were given when it had no notice.
#[derive(Drop)]
struct Looks {
    touched: [Option<Recent>; 16],
    quiet: [Option<u64>; 16],
}

impl Looks {
    fn none() -> Looks {
        Looks {
            touched: [None; 16],
            quiet: [None; 16],
        }
    }

    /// Whether the track has a frame for sure, where so many were given.
    fn has_frame(&self, d: DeviceNo, track: TrackNo, given: u64) -> bool
        ensures { result ≡ has_frame self.now d track given }
    {
        match self.touched[usize::from(d.get() % 16)] {
            Some(recent) => recent.track == track && recent.given == given,
            None => false,
        }
    }

    /// Behind a look at the pool: whether the track has a frame.
    fn note_touch(&mut self, d: DeviceNo, track: TrackNo, given: u64, is_there: bool)
        ensures { self.new ≡ noted_touch self.old d track given is_there }
    {
        if is_there {
            self.touched[usize::from(d.get() % 16)] = Some(Recent { track, given });
        }
    }

    /// Whether the device has no notice for sure, where so many frames were given.
    fn is_quiet(&self, d: DeviceNo, given: u64) -> bool
        ensures { result ≡ is_quiet self.now d given }
    {
        match self.quiet[usize::from(d.get() % 16)] {
            Some(then) => then == given,
            None => false,
        }
    }

    /// Behind a look at the pool: whether it had no notice for the device.
    fn note_notice(&mut self, d: DeviceNo, given: u64, none: bool)
        ensures { self.new ≡ noted_notice self.old d given none }
    {
        if none {
            self.quiet[usize::from(d.get() % 16)] = Some(given);
        }
    }
}

/// The pool as the workers see it: locked for each call, and so never while a volume is called. It tells no pool.
#[derive(Drop)]
pub(crate) struct SharedPool<'a, R: Wait> {
    rt: &'a R,
    pool: &'a Mutex<Pool>,
    given: &'a AtomicU64,
    looks: Looks,
    denials: u64,
}

impl<'a, R: Wait> SharedPool<'a, R> {
    pub fn new(rt: &'a R, shared: &'a Shared) -> SharedPool<'a, R> {
        SharedPool {
            rt,
            pool: &shared.pool,
            given: &shared.given,
            looks: Looks::none(),
            denials: 0,
        }
    }
}

impl<'a, R: Wait> Port for SharedPool<'a, R> {
    ghost view = { λ p. no_pool p.denials };

    /// Takes the lock only where a frame was given since the device had no notice.
    fn next_notice(&mut self, d: DeviceNo) -> Option<TrackNo> {
        let given = self.given.load(Ordering::SeqCst);
        if self.looks.is_quiet(d, given) {
            return None;
        }
        let notice = self.pool.lock(self.rt).next_notice(d);
        let none = notice.is_none();
        self.looks.note_notice(d, given, none);
        notice
    }

    /// Takes the lock only where another track was touched before, or a frame was given since.
    fn touch(&mut self, d: DeviceNo, t: TrackNo) -> bool {
        let given = self.given.load(Ordering::SeqCst);
        if self.looks.has_frame(d, t, given) {
            return true;
        }
        let is_there = self.pool.lock(self.rt).touch(d, t);
        self.looks.note_touch(d, t, given, is_there);
        is_there
    }

    #[tactic(auto, unfolding(device_outside::specs::Volume::counted))]
    fn want_frame(&mut self, d: DeviceNo, t: TrackNo) -> Result<Grant, NoMemory> {
        let grant = match self.pool.lock(self.rt).want_frame(d, t) {
            Err(NoMemory) => return Err(NoMemory),
            Ok(grant) => grant,
        };
        match grant {
            Grant::Given => {
                self.given.fetch_add(1, Ordering::SeqCst);
                Ok(Grant::Given)
            }
            Grant::Denied => {
                self.denials = self.denials.saturating_add(1);
                Ok(Grant::Denied)
            }
        }
    }

    fn set_modified(&mut self, d: DeviceNo, t: TrackNo) -> bool {
        self.pool.lock(self.rt).set_modified(d, t)
    }

    fn set_clean(&mut self, d: DeviceNo, t: TrackNo) {
        self.pool.lock(self.rt).set_clean(d, t);
    }

    fn drop_frame(&mut self, d: DeviceNo, t: TrackNo) {
        self.pool.lock(self.rt).drop_frame(d, t);
    }

    fn want_slot(&mut self) -> SlotGrant {
        self.pool.lock(self.rt).want_slot()
    }

    fn free_slot(&mut self, slot: usize) {
        self.pool.lock(self.rt).free_slot(slot);
    }

    fn tell_waiting(&mut self, d: DeviceNo, n: u16) {
        self.pool.lock(self.rt).tell_waiting(d, n);
    }
}

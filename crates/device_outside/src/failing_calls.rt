ghost use Rattle.std.specs.Prelude.{◌≡◌, ◌<◌, ◌≤◌, ◌^◌, [], IfOk, IsTrue};
ghost use Rattle.ckd_outside.specs.Memory.{to_come};
ghost use Rattle.device_outside.specs.FailingCalls.{IsQuiet};
ghost use Rattle.device_outside.specs.Lists.{is_in};
ghost use Rattle.device_outside.specs.Volume.{counted};

use ckd_types::NoMemory;
use std::alloc::Global;
use std::marker::Model;

/// One more, or the greatest number.
#[tactic(auto, unfolding(crate::specs::Volume::counted))]
pub fn counted(n: u64) -> u64
    ensures value { result ≡ counted n }
    ensures later { n ≤ result }
    ensures more { result < 2 ^ 32 → n < result }
{
    n.saturating_add(1)
}

/// Whether a call's number is listed.
#[tactic(auto, unfolding(crate::specs::Lists::is_in))]
fn is_listed(call: u64, numbers: &[u32]) -> bool
    ensures listed { result ≡ is_in call numbers.now }
    ensures small { IsTrue result → call < 2 ^ 32 }
{
    for n in numbers {
        if call == u64::from(*n) {
            return true;
        }
    }
    false
}

/// The lesser of two numbers, of which the first counts only where it is beyond the calls so far.
fn sooner(made: u64, number: u32, next: u64) -> u64
    ensures least { result ≤ next }
    ensures beyond { made < number → result ≤ number }
{
    let number = u64::from(number);
    if made < number && number < next {
        number
    } else {
        next
    }
}

/// The least listed number beyond the calls so far, or the greatest number.
fn next_listed(made: u64, numbers: &[u32]) -> u64
    ensures { IsQuiet made result numbers.now }
{
    let mut next = u64::MAX;
    for n in numbers {
        next = sooner(made, *n, next);
    }
    next
}

/// The calls of one kind, which are numbered from 1, and the numbers of those that fail. The list is
/// looked at only where the next of them may have come.
#[derive(Drop)]
pub(crate) struct Calls {
    made: u64,
    next: u64,
    failing: Vec<u32>,
}

impl Model for Calls {
    ghost use Rattle.device_outside.specs.FailingCalls.{CallCount, IsQuiet};

    ghost Value = { CallCount };

    ghost view = { λ c. record { made = c.made; failing = c.failing.items } };

    ghost invariant = { λ c. IsQuiet c.made c.next c.failing.items };
}

impl Calls {
    /// No call yet. These will fail.
    pub(crate) fn new(alloc: Global, failing: &[u32]) -> Result<Calls, NoMemory>
        ensures { IfOk result (λ calls. calls ≡ record { made = 0; failing = failing.now }) }
    {
        Ok(Calls {
            made: 0,
            next: 0,
            failing: failing.to_vec(alloc)?,
        })
    }

    /// How many there were, the failed ones too.
    pub(crate) fn made(&self) -> u64
        ensures { result ≡ self.now.made }
    {
        self.made
    }

    /// Counts a call, and answers whether it fails.
    pub(crate) fn count(&mut self) -> bool
        ensures count { self.new ≡ record self.old { made = counted self.old.made } }
        ensures listed { result ≡ is_in self.new.made self.new.failing }
        ensures kept { to_come self.new.made self.new.failing ≤ to_come self.old.made self.old.failing }
        ensures lowered { IsTrue result → to_come self.new.made self.new.failing < to_come self.old.made self.old.failing }
    {
        let made = counted(self.made);
        if self.made < made && made < self.next {
            self.made = made;
            return false;
        }
        self.next = next_listed(made, &self.failing);
        self.made = made;
        is_listed(made, &self.failing)
    }
}

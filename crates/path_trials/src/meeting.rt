use crate::runs::{devices_of, one_read, run};
use ckd_types::{DeviceNo, PathNo};
use device_outside::Gate;
use std::sync::atomic::{AtomicBool, Ordering};
use std::test::Fail;
use std::thread::yield_now;

/// How often a path looks for the other one before it gives up.
const LOOKS: u64 = 1_000_000_000;

/// Keeps path 1 before its first event on device 0 until path 2 is behind one of device 1.
#[derive(Drop)]
struct Meeting {
    came: AtomicBool,
    missed: AtomicBool,
}

impl Meeting {
    fn wait(&self) {
        for _ in 0..LOOKS {
            if self.came.load(Ordering::SeqCst) {
                return;
            }
            yield_now();
        }
        self.missed.store(true, Ordering::SeqCst);
    }
}

impl Gate for Meeting {
    fn before_transfer(&self, path: PathNo, d: DeviceNo, call: u64) {
        if path.get() == 1 && d.get() == 0 && call == 1 {
            self.wait();
        }
    }

    fn after_transfer(&self, path: PathNo, d: DeviceNo, _call: u64) {
        if path.get() == 2 && d.get() == 1 {
            self.came.store(true, Ordering::SeqCst);
        }
    }
}

#[test]
fn two_paths_are_inside_two_devices_at_once(rt: HostRuntime) -> Result<(), Fail> {
    let alloc = rt.alloc();
    let mut plans = Vec::new(alloc);
    plans.push(one_read(alloc, 1)?)?;
    plans.push(one_read(alloc, 2)?)?;
    let devices = devices_of(alloc, plans)?;
    let gate = Meeting {
        came: AtomicBool::new(false),
        missed: AtomicBool::new(false),
    };
    let ran = run(&rt, alloc, devices, Vec::new(alloc), &gate)?;
    assert!(rt; gate.came.load(Ordering::SeqCst));
    assert!(rt; !gate.missed.load(Ordering::SeqCst));
    assert_eq!(rt; ran.devices.len(), 2);
    Ok(())
}

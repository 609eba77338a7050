ghost use Rattle.device_core.specs.Promises.{KeepsPlain};

use ckd_types::NoMemory;
use device_core::Device;
use device_outside::{Port, Volume};

/// Goes on with the program that runs, for at most so many commands and parts of writes. Whether it is over.
pub fn run_program<V: Volume, P: Port>(
    device: &mut Device<V>,
    port: &mut P,
    most: u16,
) -> Result<bool, NoMemory>
    ensures { KeepsPlain device.old device.new }
{
    for _event in 0..most {
        if device.half_open() {
            device.second(port);
            continue;
        }
        if device.active().is_none() {
            return Ok(true);
        }
        device.command(port)?;
    }
    Ok(device.active().is_none())
}

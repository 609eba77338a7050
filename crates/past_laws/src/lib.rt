//! Laws of a device whose past was put away: each of its events is that event of the device with all of its past. No code.
#![tactic(auto)]

//! Laws of the subsystem: an event of its devices is what happens in a run. It has no code; its lemmas are over plain variables.
#![tactic(auto)]

mod about;
mod causes;
mod looks;
mod plain;
mod promised;
mod standing;
mod transfers;
mod turns;
mod waits;
mod whole;

pub use about::device_stays_excused;
pub use causes::{
    calm_run_misses_nothing, checks_have_causes, lost_tracks_have_causes,
    no_call_fails_without_faults, read_run_checks_nothing, run_checks_nothing, run_excuses_devices,
    run_has_good_marks, run_has_no_data_check, run_is_explained, run_loses_no_track,
    run_misses_nothing, sound_hardware_checks_nothing,
};
pub use looks::{
    fault_has_failed, look_finds_plain, look_is_heard, look_is_step, look_is_what_happens,
    look_keeps_own,
};
pub use plain::{read_run_is_plain, run_is_plain};
pub use promised::{read_run_is_promised, run_on_volumes_is_promised};
pub use standing::{devices_are_sound, slots_are_apart};
pub use transfers::run_moves_by_table;
pub use turns::{
    cuts_let_stand, device_beside_is_sound, device_stands_on, events_count_one_path,
    look_finds_plain_track, new_device_stands, orders_leave_it_beside, orders_let_stand,
    pairs_let_stand, planned_program_lets_stand, standing_device_is_excused,
    want_of_memory_leaves_device,
};
pub use waits::{read_repairs_count_waiting, recoveries_lower_waiting, repairs_count_waiting};
pub use whole::{
    whole_device_is_mounted, whole_event_is_what_happens, whole_events_are_what_happens,
    whole_replaced_is_what_happens, whole_unpaired_is_what_happens,
};

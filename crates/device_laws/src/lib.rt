//! Laws of a device: what its events keep. It has no code; its lemmas are over plain variables, for the calls to cite.
#![tactic(auto)]

mod contents;
mod keeping;
mod losses;
mod runs;
mod seen;
mod transfers;

pub use contents::{
    chain_is_on_device, command_goes_as_fed, cut_leaves_order, device_on_volume_is_in_order,
    end_leaves_order, failed_call_leaves_order, held_side_leaves_order, image_is_plain,
    lost_cache_leaves_order, lost_side_leaves_order, lost_store_leaves_order,
    new_device_is_in_order, notices_leave_order, order_is_on_device, second_part_is_plain,
    work_is_plain, write_is_plain,
};
pub use keeping::{
    pool_is_told_waiting, run_tells_waiting, told_device_has_no_bad_bytes, turn_keeps_pledge,
};
pub use losses::{
    calm_command_checks_nothing, excused_device_loses_no_track, loose_losses_are_counted,
    lost_list_grows_where_calls_fail, order_has_good_marks, unharmed_device_loses_no_track,
};
pub use runs::{
    background_is_step, command_is_step, loss_is_step, orders_leave_order, power_is_step,
    reset_is_step, second_is_step, start_is_step,
};
pub use seen::{
    command_ends_as_seen, events_move_by_table, image_is_seen, others_keep_paths,
    second_ends_as_kept, track_walk_is_seen, write_is_seen,
};
pub use transfers::{
    cache_writes_move_nothing, image_reads_sides, losses_move_nothing, work_moves_sides,
    writes_move_sides,
};

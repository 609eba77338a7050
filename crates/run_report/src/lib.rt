//! What the report of a defined run is: the lines of its events and of its end. Its definitions, how an event's end is told in
//! code, laws, rows that are computed; and that it shows of each device's programs what the device's history has.
#![tactic(auto)]

mod answers;
mod law;
mod plain_runs;
mod record;
mod told;
mod work;

pub use answers::{back_answer, how_over, order_answer, start_answer};
pub use law::{
    acts_come_to_a_history, events_show_a_history, histories_show, one_device_tells,
    quiet_events_tell_nothing, report_is_text, same_lines_are_told,
};
pub use plain_runs::{
    read_run_runs_plainly, report_on_volumes_is_plain, run_on_volumes_runs_plainly,
};
pub use record::{
    Calls, Gained, over_of, record_ended, record_event, record_order, record_power_of,
};
pub use told::RunningProgram;
pub use work::half_told;

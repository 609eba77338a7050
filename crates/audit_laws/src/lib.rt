//! Laws of an audit: what its yes and its no say line by line; and the devices of a report in which no fault was found have histories
//! that plain devices could have. And of the audit of a run's own report: its lines lead the audit from where it stands to where it then
//! stands. No code.
#![tactic(auto)]

mod law;
mod own_report;

pub use law::{
    front_is_plain, good_lines_tell_of_plain, good_report_is_plain, no_is_not,
    no_tells_the_first_fault, yes_is_plain, yes_tells_of_no_fault,
};
pub use own_report::{
    back_leads, back_line_leads, each_line_leads, ending_leads, frames_are_declared, half_leads,
    loss_or_pair_leads, own_report_is_yes, own_text_is_yes, report_has_form, report_is_in_range,
    report_leads, run_line_leads, runs_end, settle_line_leads, settles_end, step_ends_lead,
    step_leads, step_line_leads, still_line_leads, work_is_done_at_next_line,
};

//! Floor of the model: what is proved of every history, each law a public function without a body whose clause is the law.
#![tactic(auto)]

mod book_laws;
mod claim_laws;
mod clean_laws;
mod first_laws;
mod kept_laws;
mod laws;
mod room_laws;
mod row_laws;
mod run_laws;
mod ticket_laws;
mod work_laws;

pub use book_laws::{
    asker_stays, finish_keeps_rules, front_waits_rightly, history_keeps_rules, idle_keeps_rules,
    open_ticket_gives_work, open_ticket_waits, opening_keeps_rules, refuse_keeps_rules,
    room_keeps_queue, serve_keeps_rules, somebody_is_live,
};
pub use claim_laws::{
    debris_covers_once, debris_meets_own_wipe, loans_are_apart, loans_cover_once,
    read_part_is_apart, removed_row_meets_no_debris, removed_row_meets_no_loan,
    returned_part_meets_no_debris, row_meets_no_debris, row_meets_own_loan,
};
pub use clean_laws::{cleaned_parts_are_wiped, cleaned_paths_are_leaving};
pub use first_laws::{first_make_may_begin, first_wipe_may_begin, nothing_first_is_drained};
pub use kept_laws::{
    history_keeps_kept_order, kept_row_stays, kept_row_was_recorded, kept_row_was_recorded_later,
    opening_keeps_kept_order, recorded_row_stands,
};
pub use laws::{
    answer_stays, finish_answers_truly, finish_keeps_apart, finish_keeps_standing,
    finish_keeps_tickets, first_make_answers, history_keeps_apart, history_keeps_gate,
    history_keeps_standing, history_keeps_tickets, ready_is_true, serve_answers_truly,
    serve_keeps_apart, serve_keeps_gate, serve_keeps_standing, serve_keeps_tickets,
    write_is_declared,
};
pub use room_laws::{legal_history_is_within_limits, opening_is_within_limits, room_keeps_limits};
pub use row_laws::{
    entry_keeps_stamps, entry_leaves_rows, gone_stamp_stays_gone, history_keeps_stamps,
    opening_keeps_stamps, stamp_names_row,
};
pub use run_laws::{
    clean_leaves_rows, clean_removes_stale, gone_make_changes_nothing, gone_make_never_changes,
    preempted_by_whom_took_place, preempted_later_by_whom_took_place,
};
pub use ticket_laws::{
    clean_answers_nobody, failed_make_answers_below, failed_rows_answer_below,
    failed_wipe_answers_below, invalid_rows_answer_below, made_make_answers_below,
    made_row_answers_below, open_ticket_is_below_bare_path, overlapping_rows_answer_below,
    refused_make_answers_below, refused_wipe_answers_below, removed_rows_answer_below,
    replaced_rows_answer_below, row_above_open_ticket_covers,
};
pub use work_laws::{
    entry_keeps_placed, entry_keeps_point, entry_keeps_stored, entry_keeps_work,
    history_keeps_placed, history_keeps_point, history_keeps_stored, history_keeps_work,
    opening_keeps_placed, opening_keeps_point, opening_keeps_stored, opening_keeps_work,
};

ghost use Rattle.mat_model.specs.Legal.{Follows, IsLegal, IsLegalEntry};
ghost use Rattle.mat_model.specs.Room.{greatest_limits};
ghost use Rattle.model_examples.specs.BrokenRuns.{asked_next, asked_too_late, begun_unasked, cleaned_too_late, counted_again, declared_nothing};
ghost use Rattle.model_examples.specs.BrokenRuns.{ended_unbegun, failed_elsewhere, failed_next, failed_unrisen, made_next, made_unrecorded, made_unrisen};
ghost use Rattle.model_examples.specs.BrokenRuns.{making, making_run, no_ticket, told_earlier, told_otherwise, written, written_executable, written_run};
ghost use Rattle.model_examples.specs.FirstRuns.{new_daemon};

/// A history, and an entry that is legal behind it: those that aren't legal behind it differ from it in one field.
pub fn asking_is_legal()
    ensures history { IsLegal greatest_limits new_daemon written_run }
    ensures entry { IsLegalEntry greatest_limits written asked_next }
{}

/// An entry isn't legal with another reply than that of the definitions.
pub fn another_reply_is_not_legal()
    ensures { ¬ IsLegalEntry greatest_limits written told_otherwise }
{}

/// An entry isn't legal with a moment before the book's.
pub fn an_earlier_moment_is_not_legal()
    ensures { ¬ IsLegalEntry greatest_limits written told_earlier }
{}

/// An entry isn't legal with a number that isn't its caller's next.
pub fn a_used_number_is_not_legal()
    ensures { ¬ IsLegalEntry greatest_limits written counted_again }
{}

/// A begin isn't legal with a task that doesn't come first.
pub fn a_begin_out_of_order_is_not_legal()
    ensures { ¬ IsLegalEntry greatest_limits written begun_unasked }
{}

/// A done isn't legal where its job doesn't run.
pub fn an_end_of_no_job_is_not_legal()
    ensures { ¬ IsLegalEntry greatest_limits written ended_unbegun }
{}

/// An entry that is legal elsewhere isn't in a daemon that has no room for it.
pub fn an_entry_without_room_is_not_legal()
    ensures { ¬ IsLegalEntry no_ticket written asked_next }
{}

/// An entry isn't legal with a moment from 2^63 on, nor a clean with such a cutoff.
pub fn a_moment_past_the_last_is_not_legal()
    ensures moment { ¬ IsLegalEntry greatest_limits written asked_too_late }
    ensures moment_follows { Follows written asked_too_late }
    ensures cutoff { ¬ IsLegalEntry greatest_limits written cleaned_too_late }
    ensures cutoff_follows { Follows written cleaned_too_late }
{}

/// A declaration isn't legal where what it declares is no tree, nor a write of another sum than a plain file's.
pub fn what_may_not_be_declared_is_not_legal()
    ensures tree { ¬ IsLegalEntry greatest_limits written declared_nothing }
    ensures tree_follows { Follows written declared_nothing }
    ensures file { ¬ IsLegalEntry greatest_limits written written_executable }
    ensures file_follows { Follows written written_executable }
{}

/// A longer history, and two ends of its make that are legal behind it: that its row is stored, and that the disk failed.
pub fn an_end_is_legal()
    ensures history { IsLegal greatest_limits new_daemon making_run }
    ensures made { IsLegalEntry greatest_limits making made_next }
    ensures failed { IsLegalEntry greatest_limits making failed_next }
{}

/// A row isn't legally made with nothing said of the state store.
pub fn nothing_recorded_is_not_legal()
    ensures legal { ¬ IsLegalEntry greatest_limits making made_unrecorded }
    ensures follows { Follows making made_unrecorded }
{}

/// A note of the state store isn't legal where its count didn't rise.
pub fn a_note_that_did_not_rise_is_not_legal()
    ensures legal { ¬ IsLegalEntry greatest_limits making made_unrisen }
    ensures follows { Follows making made_unrisen }
{}

/// A job's fault isn't legal where the device's count didn't rise, nor from a device that the job doesn't call.
pub fn a_fault_without_cause_is_not_legal()
    ensures count { ¬ IsLegalEntry greatest_limits making failed_unrisen }
    ensures count_follows { Follows making failed_unrisen }
    ensures device { ¬ IsLegalEntry greatest_limits making failed_elsewhere }
    ensures device_follows { Follows making failed_elsewhere }
{}

ghost use Rattle.mat_model.specs.Room.{greatest_limits};
ghost use Rattle.std.specs.Prelude.{◌≡◌, [], ◌∷◌, None, Some};
ghost use Rattle.mat_model.specs.declared.answers.Answer.TheVariants as answer;
ghost use Rattle.model_examples.specs.FirstRuns.{empty_book, new_daemon};
ghost use Rattle.model_examples.specs.GateRuns.{admitted_run, gate_run, given_up_run, queued_run, removed_run};
ghost use Rattle.mat_model.specs.History.{book_of, point_of};
ghost use Rattle.mat_model.specs.Legal.{IsLegal};
ghost use Rattle.model_examples.specs.Steps.{path_p};
ghost use Rattle.mat_model.specs.WorkState.{first_task};

/// Commands come and go in strict order, as a legal history: 1 and 2 come for state 1 and are live, 3 comes for state 2
/// and waits, and 4, though it comes for state 1, waits behind 3. That 3 comes again changes nothing. Once 1 is gone
/// nobody is admitted, once 2 is gone too 3 is, for its state, and 4 once 3 is gone. A command that waits may not look,
/// and one that never came can't go.
pub fn gate_run_is_legal()
    ensures { IsLegal greatest_limits new_daemon gate_run }
{}

/// While 2 is live on state 1, those who wait go on waiting, 4 for the live state too, since 3 stands before it.
pub fn live_state_stays()
    ensures live { (book_of new_daemon queued_run).live ≡ 2 ∷ [] }
    ensures state { (book_of new_daemon queued_run).state ≡ Some 1 }
    ensures waiting { (book_of new_daemon queued_run).waiting
        ≡ record { command = 3; state = 2 } ∷ record { command = 4; state = 1 } ∷ [] }
{}

/// Once nobody is live on state 1, command 3 is admitted, its state 2 is the live one, and 4 goes on waiting.
pub fn front_is_admitted()
    ensures live { (book_of new_daemon admitted_run).live ≡ 3 ∷ [] }
    ensures state { (book_of new_daemon admitted_run).state ≡ Some 2 }
    ensures waiting { (book_of new_daemon admitted_run).waiting ≡ record { command = 4; state = 1 } ∷ [] }
{}

/// A command may go while it waits. Then 4 is the front, and since it comes for the live state it is admitted at once.
pub fn waiter_may_go()
    ensures legal { IsLegal greatest_limits new_daemon given_up_run }
    ensures live { (book_of new_daemon given_up_run).live ≡ 2 ∷ 4 ∷ [] }
    ensures waiting { (book_of new_daemon given_up_run).waiting ≡ [] }
{}

/// At the end command 4 alone is live, on its state, and nobody waits.
pub fn last_is_admitted()
    ensures { book_of new_daemon gate_run ≡ record empty_book { live = 4 ∷ []; state = Some 1 } }
{}

/// A command that compares, asks and removes, as a legal history: its write is declared, an equal sum is the same, that of
/// an executable file of the same digest is another one, nothing is at `q`, the row isn't made yet, its ensure opens
/// ticket 6, it can't go while that is open, the removal takes one row, and then it can go.
pub fn removed_run_is_legal()
    ensures { IsLegal greatest_limits new_daemon removed_run }
{}

/// The removal, entry 8, answers the ticket that nothing is declared any more.
pub fn removal_answers_ticket()
    ensures rows { (book_of new_daemon removed_run).rows ≡ [] }
    ensures tickets { (book_of new_daemon removed_run).tickets
        ≡ record {
          number = 6;
          command = 1;
          asked = path_p;
          answered = Some (record { at = 8; answer = answer.Undeclared });
        } ∷ [] }
    ensures holds { (book_of new_daemon removed_run).holds ≡ [] }
{}

/// The row was never made, so its removal leaves nothing to do, and no debris.
pub fn removal_leaves_no_debris()
    ensures debris { (point_of new_daemon removed_run).work.debris ≡ [] }
    ensures task { first_task (point_of new_daemon removed_run).work (book_of new_daemon removed_run) ≡ None }
{}

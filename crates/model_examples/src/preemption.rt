ghost use Rattle.mat_model.specs.Room.{greatest_limits};
ghost use Rattle.std.specs.Prelude.{◌≡◌, [], ◌∷◌, Some};
ghost use Rattle.mat_model.specs.declared.answers.Answer.TheVariants as answer;
ghost use Rattle.mat_model.specs.Gate.{gate_of};
ghost use Rattle.mat_model.specs.History.{book_of};
ghost use Rattle.mat_model.specs.Legal.{IsLegal};
ghost use Rattle.model_examples.specs.FirstRuns.{new_daemon};
ghost use Rattle.model_examples.specs.PreemptionRuns.{path_a, preemption_run, soft_run, taken_run, told_run};

/// Soft commands, as a legal history: 1 and 2 come for state 1, and command 3, which comes for state 2, takes their place. Then 1 isn't live any more;
/// 4, which comes for state 1 and refuses to wait, is told that 2 is live, and then comes for that; 5 comes for state 1 and waits, since 3 isn't soft.
/// Once 3 is gone, 7 waits behind 5, though who is live is soft, and once 4 is gone too, 5 is admitted. Command 2 went long ago.
pub fn preemption_run_is_legal()
    ensures { IsLegal greatest_limits new_daemon preemption_run }
{}

/// Before that both are live, and 1 has a hold on what it declared, and 2 on what it asked for.
pub fn soft_commands_are_live()
    ensures gate { gate_of (book_of new_daemon soft_run)
        ≡ record { live = 1 ∷ 2 ∷ []; state = Some 1; waiting = []; soft = 1 ∷ 2 ∷ [] } }
    ensures holds { (book_of new_daemon soft_run).holds
        ≡ record { command = 1; path = path_a } ∷ record { command = 2; path = path_a } ∷ [] }
{}

/// The enter of 3, entry 4, leaves it alone live, on its state; the holds of the others went, and the ticket of 2 is answered that 3 took its place.
pub fn soft_commands_go()
    ensures gate { gate_of (book_of new_daemon taken_run)
        ≡ record { live = 3 ∷ []; state = Some 2; waiting = []; soft = [] } }
    ensures holds { (book_of new_daemon taken_run).holds ≡ [] }
    ensures tickets { (book_of new_daemon taken_run).tickets
        ≡ record {
          number = 3;
          command = 2;
          asked = path_a;
          answered = Some (record { at = 4; answer = answer.Preempted 3 });
        } ∷ [] }
{}

/// Being told the live state changes nothing; a soft command that waits is soft too.
pub fn soft_command_waits()
    ensures { gate_of (book_of new_daemon told_run)
        ≡ record {
          live = 3 ∷ 4 ∷ [];
          state = Some 2;
          waiting = record { command = 5; state = 1 } ∷ [];
          soft = 4 ∷ 5 ∷ [];
        } }
{}

/// At the end 5 is live, for its state, and 7 waits.
pub fn front_comes_when_soft_ones_go()
    ensures { gate_of (book_of new_daemon preemption_run)
        ≡ record {
          live = 5 ∷ [];
          state = Some 1;
          waiting = record { command = 7; state = 3 } ∷ [];
          soft = 5 ∷ [];
        } }
{}

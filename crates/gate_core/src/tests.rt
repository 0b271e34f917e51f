use crate::{Entering, Gate};
use std::test::Fail;

/// A step of a table, and what it is answered.
#[derive(Drop)]
enum Step {
    /// A command enters for a state; whether it is soft, and whether it refuses.
    Enter(u32, u64, bool, bool, Entering),
    Leave(u32, Option<u64>),
    Place(u32, Option<u64>),
}

/// Whether a gate answers a step as the table says.
fn is_right(gate: &mut Gate, step: &Step) -> bool {
    match *step {
        Step::Enter(command, state, soft, refuse, wanted) => {
            gate.enter(command, state, soft, refuse) == wanted
        }
        Step::Leave(command, wanted) => gate.leave(command) == wanted,
        Step::Place(command, wanted) => gate.place(command) == wanted,
    }
}

/// The first step that is answered otherwise.
fn first_wrong(gate: &mut Gate, steps: &[Step]) -> Option<usize> {
    for (k, step) in steps.iter().enumerate() {
        if !is_right(gate, step) {
            return Some(k);
        }
    }
    None
}

/// Whether 64 commands are live, 64 more wait, and the next one is told that the gate is full.
fn fills(gate: &mut Gate) -> bool {
    for command in 0..64 {
        if gate.enter(command, 1, false, false) != Entering::Entered {
            return false;
        }
    }
    for place in 1..65 {
        if gate.enter(place + 63, 1, false, true) != Entering::Queued(place as u64) {
            return false;
        }
    }
    gate.enter(128, 1, false, false) == Entering::Full
}

#[test]
fn who_comes_and_goes(rt: HostRuntime) -> Result<(), Fail> {
    let mut gate = Gate::new(rt.alloc())?;
    let steps = [
        Step::Enter(1, 1, false, false, Entering::Entered),
        Step::Enter(2, 1, false, false, Entering::Entered),
        Step::Enter(3, 2, false, false, Entering::Queued(1)),
        Step::Enter(4, 1, false, false, Entering::Queued(2)),
        Step::Enter(3, 2, false, false, Entering::Known),
        Step::Enter(5, 2, false, true, Entering::Differs(1)),
        Step::Place(2, Some(0)),
        Step::Place(4, Some(2)),
        Step::Place(5, None),
        Step::Leave(1, Some(0)),
        Step::Leave(2, Some(1)),
        Step::Leave(9, None),
        Step::Leave(3, Some(1)),
        Step::Leave(4, Some(0)),
        // Two soft commands go for one of another state, which is soft too, and that one for a last one.
        Step::Enter(8, 3, true, false, Entering::Entered),
        Step::Enter(7, 3, true, false, Entering::Entered),
        Step::Enter(6, 4, true, true, Entering::Took(2)),
        Step::Enter(5, 5, false, false, Entering::Took(1)),
        // It isn't soft, and so it stays.
        Step::Enter(4, 6, true, false, Entering::Queued(1)),
    ];
    assert_eq!(rt; first_wrong(&mut gate, &steps), None);
    assert_eq!(rt; gate.live(), [5].as_slice());
    assert_eq!(rt; gate.soft(), [4].as_slice());
    assert_eq!(rt; gate.state(), Some(5));
    assert_eq!(rt; gate.waiter(0), None);
    assert_eq!(rt; gate.waiter(1), Some((4, 6)));
    let mut crowd = Gate::new(rt.alloc())?;
    assert_eq!(rt; fills(&mut crowd), true);
    assert_eq!(rt; crowd.enter(128, 2, false, true), Entering::Differs(1));
    assert_eq!(rt; crowd.place(128), None);
    assert_eq!(rt; crowd.leave(5), Some(1));
    assert_eq!(rt; crowd.place(64), Some(0));
    Ok(())
}

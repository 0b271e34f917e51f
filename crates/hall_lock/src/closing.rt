//! The last seat, which knows what all passes know.
ghost use Rattle.std.specs.Prelude.{◌≡◌, ℕ, ◌+◌, ◌<◌, [], ◌∷◌, ◌++◌, length, map, All};
ghost use Rattle.hall_lock.specs.Order.{as_joined};
ghost use Rattle.hall_lock.specs.Told.{IsBoard, IsSameSeat, IsClosed, ended};
ghost use Rattle.hall_lock.specs.declared.seat.Stage.TheVariants.{Resting};

use crate::seat::{Board, Place, TakeIn, TurnTable};
use crate::{Chronicle, Pass};

/// The seat takes in what the pass knows.
fn take_in<T: Chronicle>(board: &Board<T>, seat: &mut Place<T>, pass: Pass<T>)
    requires board { IsBoard board.now.table_id × (seat.old.table_id ≡ board.now.table_id) × (pass.lock ≡ board.now.table_id) }
    requires rests { seat.old.me.0.stage ≡ Resting }
    ensures same { IsSameSeat seat.old seat.new × (seat.new.me.1 ≡ seat.old.me.1) × (seat.new.me.0.stage ≡ Resting) }
    ensures parts { seat.new.me.0.parts ≡ seat.old.me.0.parts + 1 }
    ensures joined { seat.new.me.0.joined ≡ ended pass ∷ seat.old.me.0.joined }
    ensures knows { as_joined seat.new.me.0 ≡ as_joined seat.old.me.0 }
{
    board.join_seat::<TakeIn>(seat, pass.into_seat());
}

/// One seat for all passes.
pub fn gather<T: Chronicle>(board: &Board<T>, mut passes: Vec<Pass<T>>) -> Place<T>
    requires board { IsBoard board.now.table_id }
    requires some { 0 < length passes.items }
    requires own { All (λ pass. pass.lock ≡ board.now.table_id) passes.items }
    ensures same { result.table_id ≡ board.now.table_id }
    ensures rests { (result.me.0.stage ≡ Resting) × (result.me.1 ≡ []) × (result.me.0.parts ≡ length passes.items) }
    ensures all { result.me.0.joined ++ as_joined result.me.0 ∷ [] ≡ map ended passes.items }
{
    let Some(last) = passes.pop() else {
        unreachable!()
    };
    let mut seat = last.into_seat();
    'passes: while let Some(pass) = passes.pop() {
        take_in(board, &mut seat, pass);
    }
    passes.destroy_empty();
    seat
}

/// The value of a table that no other seat steps on.
pub fn take_out<T: Chronicle>(table: TurnTable<T>, seat: Place<T>) -> T
    requires table { IsBoard table.shared.table_id × (seat.table_id ≡ table.shared.table_id) }
    requires rests { seat.me.0.stage ≡ Resting }
    requires all { seat.me.0.parts ≡ table.shared.key.callers }
    ensures closed { IsClosed T.by T.history T.base table.shared.key seat.me.0 result }
{
    let mut closed = table.close_with(seat);
    let value = closed.take(0);
    closed.free();
    value.unwrap()
}

//! The table at the start, and the passes to it.
ghost use Rattle.std.specs.Prelude.{◌≡◌, ℕ, ◌+◌, ◌<◌, ◌≤◌, ◌^◌, [], ◌∷◌, length, slice_get, vec_len, vec_capacity, IfOk, IfErr, Some};
ghost use Rattle.hall_lock.specs.Passes.{fresh};
ghost use Rattle.hall_lock.specs.Order.{first_view};
ghost use Rattle.hall_lock.specs.Told.{IsBoard};
ghost use Rattle.hall_lock.specs.declared.seat.Stage.TheVariants.{Dealing};

use crate::seat::{Board, Give, Place, Terms, TurnTable};
use crate::{Chronicle, Pass};
use atomic_table::{Refused, Table};
use std::alloc::Global;
use std::snapshot::Snapshot;

/// The one value in the slots.
fn only<T>(mut slots: Vec<Option<T>>) -> T
    requires { (x : _) × (slots.items ≡ Some x ∷ []) }
    ensures { slots.items ≡ Some result ∷ [] }
{
    let Some(Some(value)) = slots.pop() else {
        unreachable!()
    };
    slots.destroy_empty();
    value
}

/// A table with the value in its slot, and the seat that makes the others. For want of memory the value comes back.
pub fn set_table<T: Chronicle>(
    alloc: Global,
    value: T,
    callers: u32,
) -> Result<(TurnTable<T>, Place<T>), T>
    requires { T.history value ≡ [] }
    ensures table { IfOk result (λ r. IsBoard r.0.shared.table_id × (r.0.shared.key.callers ≡ callers) × (r.0.shared.key.first.value ≡ value)) }
    ensures seat { IfOk result (λ r. (r.1.table_id ≡ r.0.shared.table_id) × (r.1.me ≡ (first_view T.base r.0.shared.key, []))) }
    ensures err { IfErr result (λ back. back ≡ value) }
{
    let Ok(mut slots) = Vec::with_capacity(alloc, 1) else {
        return Err(value);
    };
    let terms = Terms {
        callers: callers as u64,
        first: Snapshot::of(&value),
    };
    slots.push_reserved(Some(value));
    let made = Table::new(alloc, &[0, 0, 0], slots, &terms);
    let Terms {
        callers: _,
        first: _,
    } = terms;
    match made {
        Ok(made) => Ok(made),
        Err(Refused { slots }) => Err(only(slots)),
    }
}

/// Makes a pass for each caller, in order.
pub fn deal<T: Chronicle>(
    board: &Board<T>,
    dealer: &mut Place<T>,
    passes: &mut Vec<Pass<T>>,
    callers: u32,
)
    requires board { IsBoard board.now.table_id × (dealer.old.table_id ≡ board.now.table_id) × (board.now.key.callers ≡ callers) }
    requires dealer { (dealer.old.me.0.stage ≡ Dealing 0) × (dealer.old.me.0.parts ≡ callers) }
    requires room { (passes.old.items ≡ []) × (callers ≤ vec_capacity passes.old) }
    ensures count { length passes.new.items ≡ callers }
    ensures passes { (k : ℕ) → k < callers → slice_get passes.new.items k ≡ Some (fresh board.now.table_id dealer.old.me.0.base k) }
{
    for caller in 0..callers {
        let seat = board.split_seat::<Give>(dealer);
        passes.push_reserved(Pass::of(caller, seat));
    }
}

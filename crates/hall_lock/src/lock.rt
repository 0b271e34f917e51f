//! The lock.
ghost use Rattle.std.specs.Prelude.{◌≡◌, ℕ, ◌<◌, ◌≤◌, [], length, slice_get, All, IfOk, IfErr, Some};
ghost use Rattle.hall_lock.specs.Histories.{of, IsFront, NumberedFrom};
ghost use Rattle.hall_lock.specs.Passes.{fresh, IsPassOf, IsSamePass};
ghost use Rattle.hall_lock.specs.Turns.{IsTurn, Keeps};

use crate::seat::TurnTable;
use crate::{Act, Chronicle, Pass, closing, opening};
use std::alloc::Global;
use std::marker::Model;
use std::sync::Wait;

/// A lock round a value that keeps its history. Each caller has a pass, and takes its turns with it.
#[derive(Drop)]
pub struct HallLock<T: Chronicle> {
    table: TurnTable<T>,
}

impl<T: Chronicle> Model for HallLock<T> {
    ghost use Rattle.hall_lock.specs.Passes.{LockFacts};
    ghost use Rattle.std.specs.Prelude.{◌<◌};
    ghost use Rattle.hall_lock.specs.Told.{IsBoard};

    ghost Value = { LockFacts T.Base };

    ghost view = { λ h. record { lock = h.table.shared.table_id; callers = h.table.shared.key.callers; base = T.base h.table.shared.key.first.value } };

    ghost invariant = { λ h. IsBoard h.table.shared.table_id × (0 < h.table.shared.key.callers) };
}

impl<T: Chronicle> HallLock<T> {
    /// A lock with so many passes, the callers numbered from 0. For want of memory the value comes back.
    pub fn new(alloc: Global, value: T, callers: u32) -> Result<(HallLock<T>, Vec<Pass<T>>), T>
        requires callers { 0 < callers }
        requires empty { T.history value ≡ [] }
        ensures lock { IfOk result (λ r. (r.0.callers ≡ callers) × (r.0.base ≡ T.base value)) }
        ensures count { IfOk result (λ r. length r.1.items ≡ callers) }
        ensures own { IfOk result (λ r. All (λ pass. IsPassOf r.0 pass) r.1.items) }
        ensures passes { IfOk result (λ r. (k : ℕ) → k < callers → slice_get r.1.items k ≡ Some (fresh r.0.lock (Some r.0.base) k)) }
        ensures err { IfErr result (λ back. back ≡ value) }
    {
        let Ok(mut passes) = Vec::with_capacity(alloc, callers as usize) else {
            return Err(value);
        };
        match opening::set_table(alloc, value, callers) {
            Ok((table, mut dealer)) => {
                opening::deal(&table.shared, &mut dealer, &mut passes, callers);
                Ok((HallLock { table }, passes))
            }
            Err(value) => {
                passes.destroy_empty();
                Err(value)
            }
        }
    }

    /// Waits for the pass's turn, and runs the act on the value once. Takes no memory.
    pub fn turn<A: Act<T>, R: Wait>(&self, rt: &R, pass: &mut Pass<T>, act: &mut A)
        requires own { IsPassOf self.now pass.old }
        requires asks { A.asks act.old self.now.base pass.old.front }
        ensures same { IsSamePass pass.old pass.new }
        ensures told { pass.new.reached ≡ pass.old.reached }
        ensures later { IsFront pass.old.front pass.new.front }
        ensures turn { IsTurn T.by T.history T.base (λ before made after. A.does act.old before made after act.new) self.now.base pass.old pass.new }
    {
        pass.take_turn(rt, &self.table.shared, act);
    }

    /// Tells how many entries the history has reached. Waits for nobody, and takes no memory.
    pub fn look(&self, pass: &mut Pass<T>) -> u64
        requires own { IsPassOf self.now pass.old }
        ensures same { IsSamePass pass.old pass.new × (pass.new.front ≡ pass.old.front) }
        ensures reached { pass.new.reached ≡ result }
        ensures later { (length pass.old.front ≤ result) × (pass.old.reached ≤ result) }
    {
        pass.reach(&self.table.shared)
    }

    /// Gives the value back, for all passes. Takes no memory.
    pub fn close(self, passes: Vec<Pass<T>>) -> T
        requires own { All (λ pass. IsPassOf self pass) passes.items }
        requires all { length passes.items ≡ self.callers }
        ensures base { T.base result ≡ self.base }
        ensures passes { All (λ pass. Keeps T.by (T.history result) pass) passes.items }
        ensures numbered { (caller : ℕ) → NumberedFrom T.by 0 (of T.by caller (T.history result)) }
        ensures others { (caller : ℕ) → self.callers ≤ caller → of T.by caller (T.history result) ≡ [] }
    {
        let HallLock { table } = self;
        let seat = closing::gather(&table.shared, passes);
        closing::take_out(table, seat)
    }
}

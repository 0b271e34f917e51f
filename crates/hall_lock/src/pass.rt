//! A caller's pass to a lock.
ghost use Rattle.std.specs.Prelude.{◌≡◌, ◌≤◌, [], length, Some};
ghost use Rattle.hall_lock.specs.Histories.{IsFront};
ghost use Rattle.hall_lock.specs.Passes.{own, fresh, IsSamePass};
ghost use Rattle.hall_lock.specs.Turns.{IsTurn};
ghost use Rattle.hall_lock.specs.Order.{as_joined};
ghost use Rattle.hall_lock.specs.Told.{IsPass, IsBoard, IsSameSeat, ended};
ghost use Rattle.hall_lock.specs.declared.seat.Stage.TheVariants.{Resting};

use crate::seat::{Board, Place};
use crate::{Act, By, Chronicle, steps};
use std::marker::Model;
use std::sync::Wait;

/// The right of one caller to take turns. It knows the beginning of the history that the caller has seen.
pub struct Pass<T: Chronicle> {
    caller: u32,
    number: u64,
    length: u64,
    seat: Place<T>,
}

impl<T: Chronicle> Model for Pass<T> {
    ghost use Rattle.hall_lock.specs.Passes.{PassFacts};
    ghost use Rattle.hall_lock.specs.Told.{IsPass};

    ghost Value = { PassFacts T.Entry T.Base };

    ghost view = { λ p. record { lock = p.seat.table_id; caller = p.caller; front = p.seat.me.0.front; reached = p.seat.me.0.reached; base = p.seat.me.0.base } };

    ghost invariant = { λ p. IsPass T.by T.history T.base p.caller p.number p.length p.seat };
}

impl<T: Chronicle> Drop for Pass<T> {
    fn drop(self) {
        let Self {
            caller: _,
            number: _,
            length: _,
            seat: _,
        } = self;
    }
}

impl<T: Chronicle> Pass<T> {
    /// The pass of a caller that has seen nothing.
    pub(crate) fn of(caller: u32, seat: Place<T>) -> Pass<T>
        requires seat { IsPass T.by T.history T.base caller 0 0 seat }
        requires nothing { (seat.me.0.front ≡ []) × (seat.me.0.reached ≡ 0) }
        ensures { result ≡ fresh seat.table_id seat.me.0.base caller }
    {
        Pass {
            caller,
            number: 0,
            length: 0,
            seat,
        }
    }

    /// One turn at the table.
    pub(crate) fn take_turn<A: Act<T>, R: Wait>(&mut self, rt: &R, board: &Board<T>, act: &mut A)
        requires board { IsBoard board.now.table_id × (self.old.lock ≡ board.now.table_id) }
        requires asks { (base : _) → self.old.base ≡ Some base → A.asks act.old base self.old.front }
        ensures same { IsSamePass self.old self.new × (self.new.reached ≡ self.old.reached) }
        ensures later { IsFront self.old.front self.new.front }
        ensures turn { (base : _) → self.old.base ≡ Some base → IsTurn T.by T.history T.base (λ before made after. A.does act.old before made after act.new) base self.old self.new }
    {
        let by = By {
            caller: self.caller,
            number: self.number,
        };
        let growth = steps::take_turn(rt, board, &mut self.seat, act, by);
        self.number += growth.added;
        self.length = growth.length;
    }

    /// Learns how many entries the history has.
    pub(crate) fn reach(&mut self, board: &Board<T>) -> u64
        requires board { IsBoard board.now.table_id × (self.old.lock ≡ board.now.table_id) }
        ensures same { IsSamePass self.old self.new × (self.new.front ≡ self.old.front) }
        ensures reached { (self.new.reached ≡ result) × (length self.old.front ≤ result) × (self.old.reached ≤ result) }
    {
        steps::reach(board, &mut self.seat)
    }

    pub(crate) fn into_seat(self) -> Place<T>
        ensures same { result.table_id ≡ self.lock }
        ensures rests { (result.me.0.stage ≡ Resting) × (result.me.1 ≡ []) × (result.me.0.parts ≡ 1) × (result.me.0.joined ≡ []) }
        ensures knows { as_joined result.me.0 ≡ ended self }
    {
        let Pass {
            caller: _,
            number: _,
            length: _,
            seat,
        } = self;
        seat
    }

    pub fn caller(&self) -> u32
        ensures { result ≡ self.now.caller }
    {
        self.caller
    }

    /// The number of the caller's next entry, which is how many it has made.
    pub fn number(&self) -> u64
        ensures { result ≡ length (own T.by self.now) }
    {
        self.number
    }

    /// How many entries the pass has seen.
    pub fn front(&self) -> u64
        ensures { result ≡ length self.now.front }
    {
        self.length
    }
}

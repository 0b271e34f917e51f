//! The steps of a turn, on a seat at the table.
ghost use Rattle.std.specs.Prelude.{◌≡◌, ℕ, ◌%◌, ◌^◌, ◌<◌, [], ◌∷◌, length, Some};
ghost use Rattle.hall_lock.specs.Histories.{of, IsKnown, Adds, Fits};
ghost use Rattle.hall_lock.specs.Told.{drew, published, handed_on, reached, IsBoard, IsSameSeat, Took, Acted, Served};
ghost use Rattle.hall_lock.specs.declared.seat.Stage.TheVariants.{Resting, Waiting, Serving};

use crate::seat::{Board, Draw, HandOn, Look, Place, Publish, Reach};
use crate::{Act, By, Chronicle};
use std::sync::Wait;
use std::thread;

/// Draws the next number.
fn draw<T: Chronicle>(board: &Board<T>, seat: &mut Place<T>) -> u64
    requires board { IsBoard board.now.table_id × (seat.old.table_id ≡ board.now.table_id) }
    requires rests { (seat.old.me.0.stage ≡ Resting) × (0 < seat.old.me.0.parts) }
    ensures same { IsSameSeat seat.old seat.new }
    ensures told { drew seat.old.me result seat.new.me }
{
    board.fetch_add::<Draw>(seat, 0, 1)
}

/// Looks at the number served until it is the seat's own, and then has the slot.
fn wait<T: Chronicle, R: Wait>(rt: &R, board: &Board<T>, seat: &mut Place<T>, mine: u64)
    requires board { IsBoard board.now.table_id × (seat.old.table_id ≡ board.now.table_id) }
    requires waits { (seat.old.me.1 ≡ []) × ((n : ℕ) × (seat.old.me.0.stage ≡ Waiting n) × (n % 2 ^ 64 ≡ mine)) }
    ensures same { IsSameSeat seat.old seat.new }
    ensures took { Took T.by T.history T.base seat.old.me seat.new.me }
{
    for _ in rt.forever() {
        if board.load::<Look>(seat, 1) == mine {
            return;
        }
        thread::yield_now();
    }
    unreachable!()
}

/// How many entries a turn appended, and the length of the history afterwards.
#[derive(Clone, Copy)]
pub struct Growth {
    pub added: u64,
    pub length: u64,
}

/// Moves the value out of the slot, runs the act on it, and moves it back.
fn serve<T: Chronicle, A: Act<T>>(
    board: &Board<T>,
    seat: &mut Place<T>,
    act: &mut A,
    by: By,
) -> Growth
    requires board { seat.old.table_id ≡ board.now.table_id }
    requires value { (value : T) × (seat.old.me.1 ≡ (0, Some value) ∷ []) × (by.number ≡ length (of T.by by.caller (T.history value))) × IsKnown T.by by.caller (T.history value) (A.asks act.old (T.base value)) }
    ensures same { IsSameSeat seat.old seat.new }
    ensures acted { Acted T.by T.history T.base (λ before made after. A.does act.old before made after act.new) by seat.old.me seat.new.me result.added result.length }
{
    let mut value = board.exchange(seat, 0, None).unwrap();
    let before = value.length();
    act.act(&mut value, by);
    let length = value.length();
    let left = board.exchange(seat, 0, Some(value));
    let None = left else { unreachable!() };
    Growth {
        added: length - before,
        length,
    }
}

/// Tells all how many entries the history has.
fn publish<T: Chronicle>(board: &Board<T>, seat: &mut Place<T>, added: u64)
    requires board { IsBoard board.now.table_id × (seat.old.table_id ≡ board.now.table_id) }
    requires serves { (n : ℕ) × (seat.old.me.0.stage ≡ Serving n) }
    requires value { (value : T) × (seat.old.me.1 ≡ (0, Some value) ∷ []) × Adds T.by seat.old.me.0.caller seat.old.me.0.front (T.history value) added × (length (T.history value) < 2 ^ 64) }
    ensures same { IsSameSeat seat.old seat.new }
    ensures told { (found : ℕ) × published T.history seat.old.me found seat.new.me }
{
    board.fetch_add::<Publish>(seat, 2, added);
}

/// Gives the slot back, and lets the next number be served.
fn hand_on<T: Chronicle>(board: &Board<T>, seat: &mut Place<T>)
    requires board { IsBoard board.now.table_id × (seat.old.table_id ≡ board.now.table_id) }
    requires serves { (n : ℕ) × (seat.old.me.0.stage ≡ Serving n) }
    requires value { (value : T) × (seat.old.me.1 ≡ (0, Some value) ∷ []) × (seat.old.me.0.front ≡ T.history value) × (seat.old.me.0.base ≡ Some (T.base value)) }
    ensures same { IsSameSeat seat.old seat.new }
    ensures told { (found : ℕ) × handed_on seat.old.me found seat.new.me }
{
    board.fetch_add::<HandOn>(seat, 1, 1);
}

/// Learns how many entries the history has.
pub fn reach<T: Chronicle>(board: &Board<T>, seat: &mut Place<T>) -> u64
    requires board { IsBoard board.now.table_id × (seat.old.table_id ≡ board.now.table_id) }
    requires rests { seat.old.me.0.stage ≡ Resting }
    ensures same { IsSameSeat seat.old seat.new }
    ensures told { reached seat.old.me result seat.new.me }
{
    board.load::<Reach>(seat, 2)
}

/// One turn: it waits for it, runs the act once, and lets the next seat have its turn.
pub fn take_turn<T: Chronicle, A: Act<T>, R: Wait>(
    rt: &R,
    board: &Board<T>,
    seat: &mut Place<T>,
    act: &mut A,
    by: By,
) -> Growth
    requires board { IsBoard board.now.table_id × (seat.old.table_id ≡ board.now.table_id) }
    requires rests { (seat.old.me.0.stage ≡ Resting) × (seat.old.me.1 ≡ []) × (0 < seat.old.me.0.parts) }
    requires by { (by.caller ≡ seat.old.me.0.caller) × (by.number ≡ length (of T.by by.caller seat.old.me.0.front)) }
    requires asks { (base : _) → seat.old.me.0.base ≡ Some base → A.asks act.old base seat.old.me.0.front }
    ensures same { IsSameSeat seat.old seat.new }
    ensures served { Served T.by T.history T.base (λ before made after. A.does act.old before made after act.new) by seat.old.me seat.new.me result.added result.length }
{
    let mine = draw(board, seat);
    wait(rt, board, seat, mine);
    let growth = serve(board, seat, act, by);
    publish(board, seat, growth.added);
    hand_on(board, seat);
    growth
}

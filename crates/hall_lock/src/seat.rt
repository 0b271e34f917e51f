//! What a seat at the lock's table knows, the rule that all seats keep, and what each step tells.
use crate::Chronicle;
use atomic_table::{Join, Play, Seat, Shared, Split, Table, TableRule};
use std::alloc::Global;
use std::collections::LinkedList;
use std::snapshot::Snapshot;

/// Where a seat stands.
pub enum Stage {
    /// It makes the callers' seats, and has made so many.
    Dealing(u64),
    Resting,
    /// It drew this number.
    Waiting(u64),
    /// The number that it drew is served.
    Serving(u64),
    /// Another seat has taken in what it knew.
    Spent,
}

/// What a spent seat knew. No value of it is made.
pub struct Joined<E> {
    pub caller: u64,
    pub reached: u64,
    pub front: LinkedList<E>,
}

/// What a seat knows. No value of it is made.
pub struct View<E, B> {
    pub stage: Stage,
    pub caller: u64,
    /// Its parts of the right to know the whole.
    pub parts: u64,
    /// A length that the history has reached.
    pub reached: u64,
    /// The beginning of the history that it has seen.
    pub front: LinkedList<E>,
    pub base: Option<B>,
    pub joined: LinkedList<Joined<E>>,
}

/// What a table is told once: the number of callers, and the value that the lock was made with.
pub struct Terms<T> {
    pub callers: u64,
    pub first: Snapshot<T>,
}

/// The rule of the table. Word 0 is the next number to draw, word 1 the number served, word 2 the length of the history.
pub struct InTurn;

impl<T: Chronicle> TableRule<Option<T>, View<T::Entry, T::Base>, Terms<T>> for InTurn {
    ghost use Rattle.hall_lock.specs.Order.{Ordered, first_view};

    ghost holds = { Ordered T.by T.history T.base };

    ghost first = { first_view T.base };
}

pub type Place<T> = Seat<Option<T>, View<<T as Chronicle>::Entry, <T as Chronicle>::Base>>;

pub type TurnTable<T> = Table<
    Option<T>,
    View<<T as Chronicle>::Entry, <T as Chronicle>::Base>,
    Terms<T>,
    InTurn,
    Global,
>;

pub type Board<T> = Shared<
    Option<T>,
    View<<T as Chronicle>::Entry, <T as Chronicle>::Base>,
    Terms<T>,
    InTurn,
>;

/// Draws the next number.
pub struct Draw;

impl<T: Chronicle> Play<Option<T>, View<T::Entry, T::Base>> for Draw {
    ghost use Rattle.hall_lock.specs.Told.{drew};

    ghost then = { λ _. drew };
}

/// Looks at the number served, and takes the slot where it is the seat's own.
pub struct Look;

impl<T: Chronicle> Play<Option<T>, View<T::Entry, T::Base>> for Look {
    ghost use Rattle.hall_lock.specs.Told.{looked};

    ghost then = { λ _. looked T.by T.history T.base };
}

/// Tells all of the length of the history.
pub struct Publish;

impl<T: Chronicle> Play<Option<T>, View<T::Entry, T::Base>> for Publish {
    ghost use Rattle.hall_lock.specs.Told.{published};

    ghost then = { λ _. published T.history };
}

/// Gives the slot back, and serves the next number.
pub struct HandOn;

impl<T: Chronicle> Play<Option<T>, View<T::Entry, T::Base>> for HandOn {
    ghost use Rattle.hall_lock.specs.Told.{handed_on};

    ghost then = { λ _. handed_on };
}

/// Looks at the length of the history.
pub struct Reach;

impl<T: Chronicle> Play<Option<T>, View<T::Entry, T::Base>> for Reach {
    ghost use Rattle.hall_lock.specs.Told.{reached};

    ghost then = { λ _. reached };
}

/// Makes a seat for the next caller.
pub struct Give;

impl<E, B> Split<View<E, B>> for Give {
    ghost use Rattle.hall_lock.specs.Order.{after_giving, newcomer};

    ghost left = { after_giving };

    ghost right = { newcomer };
}

/// Takes in what another seat knows.
pub struct TakeIn;

impl<E, B> Join<View<E, B>> for TakeIn {
    ghost use Rattle.hall_lock.specs.Order.{both_views, spent_view};

    ghost both = { both_views };

    ghost spent = { spent_view };
}

ghost use Rattle.std.specs.Prelude.{◌≡◌, ◌+◌, ◌≤◌, ◌++◌, [], is_ok, length, nat_eq, nat_le, if◌then◌else◌};
ghost use Rattle.std.specs.BTreeSet.{insert_key};
ghost use Rattle.std.specs.List.{filter, find};
ghost use Rattle.std.specs.Ordering.{nat_cmp};
ghost use Rattle.std.specs.Vec.{vec_capacity};
ghost use Rattle.ticket_book.specs.ByPath.{is_other};

use mat_path::Memory;
use std::alloc::Global;
use std::collections::BTreeSet;
use std::marker::Model;

/// Numbers of tickets, seen as the list of them in strict order. One is put there or taken away by a logarithm of how many there are.
#[derive(Debug, Drop)]
pub(crate) struct Numbers {
    set: BTreeSet<u64>,
}

impl Model for Numbers {
    ghost use Rattle.std.specs.Prelude.{ℕ, List};

    ghost Value = { List ℕ };

    ghost view = { λ numbers. numbers.set.keys };
}

impl Numbers {
    /// No number. Takes no memory.
    pub(crate) fn new(alloc: Global) -> Numbers
        ensures { result ≡ [] }
    {
        Numbers {
            set: BTreeSet::new(alloc),
        }
    }

    /// Puts a number at its place. For want of memory nothing changes.
    pub(crate) fn add(&mut self, number: u64) -> Result<(), Memory>
        ensures { self.new ≡ (if is_ok result then insert_key nat_cmp self.old number else self.old) }
    {
        self.set.insert(number)?;
        Ok(())
    }

    /// Takes a number away, if it is there. Takes no memory, as the calls below.
    pub(crate) fn drop(&mut self, number: u64)
        ensures { self.new ≡ filter (is_other number) self.old }
    {
        let _count = self.set.len();
        self.set.remove(&number);
    }

    /// How many there are. In time that doesn't grow with them.
    pub(crate) fn len(&self) -> usize
        ensures { result ≡ length self.now }
    {
        self.set.len()
    }

    /// Whether there is none.
    pub(crate) fn is_empty(&self) -> bool
        ensures { result ≡ nat_eq (length self.now) 0 }
    {
        self.set.len() == 0
    }

    /// The first number that isn't below one. In time for a logarithm of how many there are.
    pub(crate) fn next(&self, from: u64) -> Option<u64>
        ensures { result ≡ find (nat_le from) self.now }
    {
        match self.set.range(from..).next() {
            Some(number) => Some(*number),
            None => None,
        }
    }

    /// Puts the numbers behind others, for which there is room.
    pub(crate) fn push_to(&self, numbers: &mut Vec<u64>)
        requires { length numbers.old.items + length self.now ≤ vec_capacity numbers.old }
        ensures list { numbers.new.items ≡ numbers.old.items ++ self.now }
        ensures capacity { vec_capacity numbers.new ≡ vec_capacity numbers.old }
    {
        for number in &self.set {
            numbers.push_reserved(*number);
        }
    }
}

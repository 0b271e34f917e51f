//! A value that keeps its history, and what may be done to it in one turn.
ghost use Rattle.std.specs.Prelude.{◌≡◌, List, length};
ghost use Rattle.hall_lock.specs.Histories.{of, IsKnown, Grows};
ghost use Rattle.hall_lock.specs.declared.By.{By};

use crate::By;

/// A value that keeps its history, a list of entries that only grows, and a base, which no act changes.
pub trait Chronicle {
    type Entry;

    type Base;

    /// Who made an entry.
    ghost by: { Self.Entry → By };

    ghost history: { Self → List Self.Entry };

    ghost base: { Self → Self.Base };

    /// The number of entries.
    fn length(&self) -> u64
        ensures { result ≡ length (history self.now) };
}

/// What one turn does to the value. It appends at most one entry.
pub trait Act<T: Chronicle> {
    /// What the act asks of the base and of a beginning of the history.
    ghost asks: { Self → T.Base → List T.Entry → Type 0 };

    /// What the act does, from the act and the value before to the value and the act afterwards.
    ghost does: { Self → T → By → T → Self → Type 0 };

    fn act(&mut self, value: &mut T, by: By)
        requires number { by.number ≡ length (of T.by by.caller (T.history value.old)) }
        requires asks { IsKnown T.by by.caller (T.history value.old) (asks self.old (T.base value.old)) }
        ensures base { T.base value.new ≡ T.base value.old }
        ensures history { Grows T.by by (T.history value.old) (T.history value.new) }
        ensures does { does self.old value.old by value.new self.new };
}

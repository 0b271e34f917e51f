ghost use Rattle.std.specs.Prelude.{◌≡◌, ℕ, Bool, false, List, Option};
ghost use Rattle.std.specs.Option.{option_map};
ghost use Rattle.mat_io.specs.Answers.{did_failed};
ghost use Rattle.mat_io.specs.Causes.{HasCause};
ghost use Rattle.mat_io.specs.Watches.{CountsSo};
ghost use Rattle.keep_port.specs.Rows.{FailsSo, Halts, Tells, Watch, after_call, after_remove, after_store, all_failed, all_want, did_want};
ghost use Rattle.keep_port.specs.declared.row.RawRow.{RawRow};

use crate::row::{All, RawRow, Touch};
use mat_io::Did;
use mat_path::Path;

/// Keeps rows across restarts. Each call is carried out as a whole or not at all: where it isn't `Done`, the rows are as before.
pub trait Keeper {
    // The rows in order of the bytes of their paths, where the keeper tells them.
    ghost kept: { Self → Option (List RawRow) };

    // How many faults there were, up to the last number that 64 bits hold.
    ghost fault_count: { Self → ℕ };

    // The calls so far and what was called for, where the keeper tells that.
    ghost watch: { Self → Option Watch };

    /// Puts rows, each in the place of the one at its path, and then sets the last use of rows at some paths. Every other row stays.
    fn store_rows(&mut self, rows: &[RawRow], touches: &[Touch]) -> Did
        ensures kept { kept self.new ≡ option_map (after_store rows.now touches.now result) (kept self.old) }
        ensures cause { HasCause (fault_count self.old) (fault_count self.new) (did_failed result) }
        ensures watch { watch self.new ≡ option_map after_call (watch self.old) }
        ensures fails { FailsSo (watch self.old) (did_failed result) }
        ensures counts { CountsSo (watch self.old) (fault_count self.old) (fault_count self.new) (did_failed result) }
        ensures halts { Halts (watch self.old) (did_want result) };

    /// Removes the rows at some paths. Every other row stays.
    fn remove(&mut self, paths: &[Path]) -> Did
        ensures kept { kept self.new ≡ option_map (after_remove paths.now result) (kept self.old) }
        ensures cause { HasCause (fault_count self.old) (fault_count self.new) (did_failed result) }
        ensures watch { watch self.new ≡ option_map after_call (watch self.old) }
        ensures fails { FailsSo (watch self.old) (did_failed result) }
        ensures counts { CountsSo (watch self.old) (fault_count self.old) (fault_count self.new) (did_failed result) }
        ensures halts { Halts (watch self.old) (did_want result) };

    /// Gives all rows, ascending by the bytes of their paths. Every row stays.
    fn all(&mut self) -> All
        ensures rows { Tells (kept self.old) result }
        ensures kept { kept self.new ≡ kept self.old }
        ensures cause { HasCause (fault_count self.old) (fault_count self.new) (all_failed result) }
        ensures watch { watch self.new ≡ option_map after_call (watch self.old) }
        ensures fails { FailsSo (watch self.old) (all_failed result) }
        ensures counts { CountsSo (watch self.old) (fault_count self.old) (fault_count self.new) (all_failed result) }
        ensures halts { Halts (watch self.old) (all_want result) };

    /// How many faults there were. It takes no memory.
    fn faults(&self) -> u64
        ensures { result ≡ fault_count self.now };
}

/// A device that can be halted: then each call of it answers that memory is wanting and changes nothing, its counts included.
pub trait Halt {
    // No call is carried out.
    ghost halted: { Self → Bool };

    // A call came while none was carried out.
    ghost met_one: { Self → Bool };

    /// Halts it, or lifts that, after which no call is told to have come. It takes no memory.
    fn halt(&mut self, on: bool)
        ensures halted { halted self.new ≡ on }
        ensures met { met_one self.new ≡ false };

    /// Whether a call came since it was halted. It takes no memory.
    fn met(&self) -> bool
        ensures { result ≡ met_one self.now };
}

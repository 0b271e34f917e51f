// The state store of a core is made to fail, where it is one in memory.
ghost use Rattle.std.specs.Prelude.{◌≡◌, false, true};
ghost use Rattle.keep_port.specs.Memory.{keeper_faults, keeper_rows, keeper_watch};

use crate::core_::Core;
use keep_port::{Halt, MemKeeper};
use mat_io::Arm;
use region_port::Disk;

impl<D: Disk> Core<D, MemKeeper> {
    ghost use Rattle.mat_core.specs.Arming.{IsSameBut};

    /// Makes the next call of the state store fail, which then changes nothing. Takes no memory, as the next.
    pub fn arm_keeper(&mut self)
        ensures same { IsSameBut self.old self.new }
        ensures watch { keeper_watch self.new.keeper ≡ record (keeper_watch self.old.keeper) { armed = true } }
    {
        self.parts.keeper.arm();
    }

    /// Halts the state store, or lifts that: until then each call of it changes nothing, its counts included, and is want of memory. No call is
    /// told to have come since.
    pub fn halt_keeper(&mut self, on: bool)
        ensures same { IsSameBut self.old self.new }
        ensures watch { keeper_watch self.new.keeper ≡ record (keeper_watch self.old.keeper) { halted = on; met = false } }
    {
        self.parts.keeper.halt(on);
    }
}

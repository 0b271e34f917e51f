// Clocks, and a clock in memory.
ghost use Rattle.std.specs.Prelude.{◌≡◌, true, ℕ, List, Option, Some};
ghost use Rattle.std.specs.List.{list_all};
ghost use Rattle.std.specs.Option.{option_map};
ghost use Rattle.mat_io.specs.Clocks.{IsNext, is_moment, later_moments, next_moment};

use std::marker::Model;

/// Tells the moment. It refuses nothing and counts nothing.
pub trait Clock {
    // The moments that are left, where the clock tells them.
    ghost moments: { Self → Option (List ℕ) };

    /// Gives the moment, which is less than 2^63: where the clock tells its moments, the next of them, and 0 with none
    /// left. It takes no memory.
    fn moment(&mut self) -> u64
        ensures range { is_moment result ≡ true }
        ensures next { IsNext (moments self.old) result }
        ensures later { moments self.new ≡ option_map later_moments (moments self.old) };
}

/// A clock in memory, which gives chosen moments in turn.
#[derive(Drop)]
pub struct MemClock {
    moments: Vec<u64>,
    at: usize,
}

impl Model for MemClock {
    ghost use Rattle.std.specs.Prelude.{◌≡◌, ◌≤◌, true, drop, length, ℕ, List};
    ghost use Rattle.std.specs.List.{list_all};
    ghost use Rattle.mat_io.specs.Clocks.{is_moment};

    ghost Value = { List ℕ };

    ghost view = { λ clock. drop clock.at clock.moments.items };

    ghost invariant = { λ clock. (clock.at ≤ length clock.moments.items) × (list_all is_moment clock.moments.items ≡ true) };
}

impl MemClock {
    /// A clock of these moments, each of which is less than 2^63. It takes no memory.
    pub fn new(moments: Vec<u64>) -> MemClock
        requires { list_all is_moment moments.items ≡ true }
        ensures { result ≡ moments.items }
    {
        MemClock { moments, at: 0 }
    }
}

impl Clock for MemClock {
    ghost moments = { λ clock. Some clock };

    fn moment(&mut self) -> u64
        ensures range { is_moment result ≡ true }
        ensures next { result ≡ next_moment self.old }
        ensures later { self.new ≡ later_moments self.old }
    {
        match self.moments.get(self.at) {
            Some(moment) => {
                let moment = *moment;
                self.at += 1;
                moment
            }
            None => 0,
        }
    }
}

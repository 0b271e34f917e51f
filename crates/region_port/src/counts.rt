ghost use Rattle.std.specs.Prelude.{◌≡◌, false, not, nat_eq};
ghost use Rattle.mat_io.specs.Causes.{HasCause};
ghost use Rattle.region_port.specs.Entries.{entered, joined_counts, no_counts};

/// What a device in memory counts, and whether its next call is to fail.
#[derive(Debug, Drop)]
pub struct Counts {
    pub(crate) calls: u64,
    pub(crate) faults: u64,
    pub(crate) armed: bool,
}

impl Counts {
    /// No calls and no faults.
    pub(crate) fn new() -> Counts
        ensures { result ≡ no_counts }
    {
        Counts {
            calls: 0,
            faults: 0,
            armed: false,
        }
    }

    /// Counts a call, and answers whether it may go on.
    pub(crate) fn enter(&mut self) -> bool
        ensures answer { result ≡ not self.old.armed }
        ensures counts { self.new ≡ entered self.old }
        ensures cause { HasCause self.old.faults self.new.faults (not result) }
    {
        self.calls = self.calls.saturating_add(1);
        if self.armed {
            self.armed = false;
            self.faults = self.faults.saturating_add(1);
            return false;
        }
        true
    }

    /// Counts what a region counted that came back.
    pub(crate) fn absorb(&mut self, more: &Counts)
        ensures counts { self.new ≡ joined_counts self.old more.now }
        ensures cause { HasCause self.old.faults self.new.faults (not (nat_eq more.now.faults 0)) }
    {
        self.calls = self.calls.saturating_add(more.calls);
        self.faults = self.faults.saturating_add(more.faults);
    }
}

ghost use Rattle.std.specs.Prelude.{◌≡◌, ◌++◌, true};
ghost use Rattle.std.specs.Option.{ForSome, option_map};
ghost use Rattle.mat_path.specs.Names.{is_path};
ghost use Rattle.mat_tree.specs.Parts.{HasTree, bare};
ghost use Rattle.region_port.specs.Calls.{nowhere};
ghost use Rattle.region_port.specs.Reads.{IsWithin, Reads, got_failed, needs_path};
ghost use Rattle.mat_io.specs.Watches.{FailsSo, after_call};

use crate::got::Got;
use crate::mem_region::MemRegion;
use crate::port::Region;
use mat_io::{Arm, Did};
use mat_path::{Path, Rel};
use mat_tree::Tree;

/// A part with any content, which may be rough.
#[derive(Drop)]
pub struct Rough<R: Region> {
    region: R,
}

/// A part that has just a tree, and survives a crash.
#[derive(Drop)]
pub struct Settled<R: Region> {
    region: R,
    tree: Tree,
    ghost has_tree: { ForSome (R.part region) (λ part. HasTree part tree) },
    ghost settled: { R.rough region ≡ nowhere },
}

/// A part with no node, which survives a crash.
#[derive(Drop)]
pub struct Bare<R: Region> {
    region: R,
    ghost empty: { ForSome (R.part region) (λ part. part ≡ bare) },
    ghost settled: { R.rough region ≡ nowhere },
}

/// A part that is only read, with the tree that it was lent for.
#[derive(Drop)]
pub struct ReadLoan<R: Region> {
    region: R,
    tree: Tree,
}

/// A part in any of its states.
#[derive(Drop)]
pub enum Part<R: Region> {
    Rough(Rough<R>),
    Settled(Settled<R>),
    Bare(Bare<R>),
}

/// What one sync made of a part. Where it failed or memory was wanting, the part comes back.
#[derive(Drop)]
pub enum Synced<R: Region> {
    Settled(Settled<R>),
    Bare(Bare<R>),
    Failed(Rough<R>),
    NoMemory(Rough<R>),
}

impl<R: Region> Rough<R> {
    ghost use Rattle.mat_io.specs.Causes.{HasCause};
    ghost use Rattle.std.specs.Borrow.{Lends, sem};
    ghost use Rattle.region_port.specs.contracts.states.Rough.{the_row};
    ghost use Rattle.region_port.specs.States.{Empties, Settles, region_in, rough_region, sync_failed, with_region};

    /// The part of this region. Takes no memory.
    pub fn new(region: R) -> Rough<R>
        ensures { rough_region result ≡ region }
    {
        Rough { region }
    }

    /// Where the part stands. Takes no memory.
    pub fn path(&self) -> &Path
        ensures { result.now ≡ R.place (rough_region self.now) }
    {
        self.region.path()
    }

    /// Lends the region for its calls. Takes no memory.
    pub fn region(&mut self) -> &mut R
        ensures* writes_back { sem 𝓛 (Lends (the_row R.row) R.row self.entry result (with_region self.old)) }
        ensures value { result.now ≡ rough_region self.old }
    {
        &mut self.region
    }

    /// The region. Takes no memory.
    pub fn into_region(self) -> R
        ensures { result ≡ rough_region self }
    {
        let Rough { region } = self;
        region
    }

    /// Makes one sync, and keeps the tree that the part has, where it is done.
    pub fn settle(self, tree: Tree) -> Synced<R>
        requires { ForSome (R.part (rough_region self)) (λ part. HasTree part tree) }
        ensures place { R.place (region_in result) ≡ R.place (rough_region self) }
        ensures part { R.part (region_in result) ≡ R.part (rough_region self) }
        ensures settles { Settles tree (R.rough (rough_region self)) result }
        ensures cause { HasCause (R.fault_count (rough_region self)) (R.fault_count (region_in result)) (sync_failed result) }
        ensures watch { R.watch (region_in result) ≡ option_map after_call (R.watch (rough_region self)) }
        ensures fails { FailsSo (R.watch (rough_region self)) (sync_failed result) }
    {
        let Rough { mut region } = self;
        match region.sync() {
            Did::Done => Synced::Settled(Settled { region, tree }),
            Did::Failed => Synced::Failed(Rough { region }),
            Did::NoMemory => Synced::NoMemory(Rough { region }),
        }
    }

    /// Makes one sync of a part that has no node.
    pub fn empty(self) -> Synced<R>
        requires { ForSome (R.part (rough_region self)) (λ part. part ≡ bare) }
        ensures place { R.place (region_in result) ≡ R.place (rough_region self) }
        ensures part { R.part (region_in result) ≡ R.part (rough_region self) }
        ensures empties { Empties (R.rough (rough_region self)) result }
        ensures cause { HasCause (R.fault_count (rough_region self)) (R.fault_count (region_in result)) (sync_failed result) }
        ensures watch { R.watch (region_in result) ≡ option_map after_call (R.watch (rough_region self)) }
        ensures fails { FailsSo (R.watch (rough_region self)) (sync_failed result) }
    {
        let Rough { mut region } = self;
        match region.sync() {
            Did::Done => Synced::Bare(Bare { region }),
            Did::Failed => Synced::Failed(Rough { region }),
            Did::NoMemory => Synced::NoMemory(Rough { region }),
        }
    }
}

impl<R: Region> Settled<R> {
    ghost use Rattle.region_port.specs.States.{settled_region, settled_tree};

    /// The tree that the part has. Takes no memory.
    pub fn tree(&self) -> &Tree
        ensures tree { result.now ≡ settled_tree self.now }
        ensures has_tree { ForSome (R.part (settled_region self.now)) (λ part. HasTree part (settled_tree self.now)) }
        ensures settled { R.rough (settled_region self.now) ≡ nowhere }
    {
        &self.tree
    }

    /// Where the part stands. Takes no memory.
    pub fn path(&self) -> &Path
        ensures { result.now ≡ R.place (settled_region self.now) }
    {
        self.region.path()
    }

    /// The region, without its tree. Takes no memory.
    pub fn into_region(self) -> R
        ensures region { result ≡ settled_region self }
        ensures has_tree { ForSome (R.part result) (λ part. HasTree part (settled_tree self)) }
        ensures settled { R.rough result ≡ nowhere }
    {
        let Settled { region, tree: _ } = self;
        region
    }
}

impl<R: Region> Bare<R> {
    ghost use Rattle.region_port.specs.States.{bare_region};

    /// Where the part stands. Takes no memory.
    pub fn path(&self) -> &Path
        ensures { result.now ≡ R.place (bare_region self.now) }
    {
        self.region.path()
    }

    /// The region. Takes no memory.
    pub fn into_region(self) -> R
        ensures region { result ≡ bare_region self }
        ensures empty { ForSome (R.part result) (λ part. part ≡ bare) }
        ensures settled { R.rough result ≡ nowhere }
    {
        let Bare { region } = self;
        region
    }
}

impl<R: Region> ReadLoan<R> {
    ghost use Rattle.mat_io.specs.Causes.{HasCause};
    ghost use Rattle.region_port.specs.States.{loan_region, loan_tree};

    /// The part of this region, lent for a tree that it may have or not. Takes no memory.
    pub fn of(region: R, tree: Tree) -> ReadLoan<R>
        ensures region { loan_region result ≡ region }
        ensures tree { loan_tree result ≡ tree }
    {
        ReadLoan { region, tree }
    }

    /// The tree that the part was lent for. Takes no memory.
    pub fn tree(&self) -> &Tree
        ensures { result.now ≡ loan_tree self.now }
    {
        &self.tree
    }

    /// Where the part stands. Takes no memory.
    pub fn path(&self) -> &Path
        ensures { result.now ≡ R.place (loan_region self.now) }
    {
        self.region.path()
    }

    /// Reads a piece of the file at the rel, as the region does.
    pub fn read_piece(&mut self, rel: &Rel, at: u64, most: u32) -> Got
        ensures tree { loan_tree self.new ≡ loan_tree self.old }
        ensures place { R.place (loan_region self.new) ≡ R.place (loan_region self.old) }
        ensures part { R.part (loan_region self.new) ≡ R.part (loan_region self.old) }
        ensures rough { R.rough (loan_region self.new) ≡ R.rough (loan_region self.old) }
        ensures got { Reads rel.now at most (R.part (loan_region self.old)) result }
        ensures within { IsWithin most result }
        ensures path { needs_path result ≡ true → is_path (R.place (loan_region self.old) ++ rel.now) ≡ true }
        ensures cause { HasCause (R.fault_count (loan_region self.old)) (R.fault_count (loan_region self.new)) (got_failed result) }
        ensures watch { R.watch (loan_region self.new) ≡ option_map after_call (R.watch (loan_region self.old)) }
        ensures fails { FailsSo (R.watch (loan_region self.old)) (got_failed result) }
    {
        self.region.read_piece(rel, at, most)
    }

    /// How many calls on the region failed. Takes no memory.
    pub fn faults(&self) -> u64
        ensures { result ≡ R.fault_count (loan_region self.now) }
    {
        self.region.faults()
    }

    /// The region, without the tree. Takes no memory.
    pub fn into_region(self) -> R
        ensures { result ≡ loan_region self }
    {
        let ReadLoan { region, tree: _ } = self;
        region
    }
}

impl ReadLoan<MemRegion> {
    ghost use Rattle.mat_io.specs.Watches.{when_armed};
    ghost use Rattle.region_port.specs.Memory.{is_region_armed, part_of, region_calls, region_faults, region_place, region_watch, rough_of};
    ghost use Rattle.region_port.specs.States.{loan_region, loan_tree};

    /// Makes the next call on the region fail and change nothing. Takes no memory.
    pub fn arm(&mut self)
        ensures armed { is_region_armed (loan_region self.new) ≡ true }
        ensures calls { region_calls (loan_region self.new) ≡ region_calls (loan_region self.old) }
        ensures watch { region_watch (loan_region self.new) ≡ when_armed (region_watch (loan_region self.old)) }
        ensures tree { loan_tree self.new ≡ loan_tree self.old }
        ensures place { region_place (loan_region self.new) ≡ region_place (loan_region self.old) }
        ensures same { (part_of (loan_region self.new) ≡ part_of (loan_region self.old)) × (rough_of (loan_region self.new) ≡ rough_of (loan_region self.old)) × (region_faults (loan_region self.new) ≡ region_faults (loan_region self.old)) }
    {
        self.region.arm();
    }
}

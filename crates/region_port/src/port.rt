ghost use Rattle.mat_path.specs.Covering.{covering, is_other_path};
ghost use Rattle.std.specs.Prelude.{◌≡◌, ◌≤◌, ◌∷◌, ◌++◌, [], true, false, not, if◌then◌else◌, ℕ, Bool, List, Option, IfOk, is_ok, nat_eq};
ghost use Rattle.std.specs.List.{list_any, filter};
ghost use Rattle.std.specs.Option.{ForSome, option_map};
ghost use Rattle.mat_io.specs.Answers.{did_failed};
ghost use Rattle.mat_io.specs.Causes.{HasCause};
ghost use Rattle.mat_path.specs.Names.{is_path, overlap, same_names};
ghost use Rattle.mat_tree.specs.Parts.{Part, file, folder, link, below, without};
ghost use Rattle.region_port.specs.Reads.{IsWithin, Reads, got_failed, needs_path};
ghost use Rattle.region_port.specs.Listing.{Lists, list_failed};
ghost use Rattle.region_port.specs.Strays.{Finds, strays_failed};
ghost use Rattle.mat_io.specs.Watches.{FailsSo, Watch, after_call};
ghost use Rattle.region_port.specs.Watches.{joined_watch, newly_lent};
ghost use Rattle.region_port.specs.Calls.{Appends, Puts, Roughens, Syncs, Wipes, is_file, paths_below, paths_outside, paths_of_both, with_inner};

use crate::got::Got;
use crate::listed::Listed;
use crate::strays::Strays;
use mat_io::Did;
use mat_path::{Memory, Path, Rel, Target};

/// A loan of the part of a disk at and below a path.
///
/// From the first wipe, put or append on, its part is rough: a crash may leave anything at or below its path. A sync
/// that answers Done ends that, for all paths below too.
pub trait Region {
    ghost place: { Self → List (List ℕ) };

    // What the part has, where the region tells that.
    ghost part: { Self → Option Part };

    ghost rough: { Self → List (List ℕ) → Bool };

    ghost fault_count: { Self → ℕ };

    // The device calls so far, and whether the next one is to fail, where the region tells that.
    ghost watch: { Self → Option Watch };

    /// Where the part stands. No call changes it. Takes no memory.
    fn path(&self) -> &Path
        ensures { result.now ≡ place self.now };

    /// Removes every node of the part.
    fn wipe(&mut self) -> Did
        ensures place { place self.new ≡ place self.old }
        ensures part { Wipes result (part self.old) (part self.new) }
        ensures rough { Roughens (place self.old) result (rough self.old) (rough self.new) }
        ensures cause { HasCause (fault_count self.old) (fault_count self.new) (did_failed result) }
        ensures watch { watch self.new ≡ option_map after_call (watch self.old) }
        ensures fails { FailsSo (watch self.old) (did_failed result) };

    /// Puts a file in the place of what the part has at the rel.
    fn put_file(&mut self, rel: &Rel, exec: bool, bytes: &[u8]) -> Did
        requires { is_path (place self.old ++ rel.now) ≡ true }
        ensures place { place self.new ≡ place self.old }
        ensures part { Puts rel.now (file bytes.now exec) result (part self.old) (part self.new) }
        ensures rough { Roughens (place self.old) result (rough self.old) (rough self.new) }
        ensures cause { HasCause (fault_count self.old) (fault_count self.new) (did_failed result) }
        ensures watch { watch self.new ≡ option_map after_call (watch self.old) }
        ensures fails { FailsSo (watch self.old) (did_failed result) };

    /// Puts a directory in the place of what the part has at the rel.
    fn put_dir(&mut self, rel: &Rel) -> Did
        requires { is_path (place self.old ++ rel.now) ≡ true }
        ensures place { place self.new ≡ place self.old }
        ensures part { Puts rel.now folder result (part self.old) (part self.new) }
        ensures rough { Roughens (place self.old) result (rough self.old) (rough self.new) }
        ensures cause { HasCause (fault_count self.old) (fault_count self.new) (did_failed result) }
        ensures watch { watch self.new ≡ option_map after_call (watch self.old) }
        ensures fails { FailsSo (watch self.old) (did_failed result) };

    /// Puts a symbolic link in the place of what the part has at the rel.
    fn put_link(&mut self, rel: &Rel, target: &Target) -> Did
        requires { is_path (place self.old ++ rel.now) ≡ true }
        ensures place { place self.new ≡ place self.old }
        ensures part { Puts rel.now (link target.now) result (part self.old) (part self.new) }
        ensures rough { Roughens (place self.old) result (rough self.old) (rough self.new) }
        ensures cause { HasCause (fault_count self.old) (fault_count self.new) (did_failed result) }
        ensures watch { watch self.new ≡ option_map after_call (watch self.old) }
        ensures fails { FailsSo (watch self.old) (did_failed result) };

    /// Adds bytes at the end of the file at the rel. Every other node stays.
    fn append(&mut self, rel: &Rel, bytes: &[u8]) -> Did
        requires { ForSome (part self.old) (λ part. is_file (part rel.now) ≡ true) }
        ensures place { place self.new ≡ place self.old }
        ensures part { Appends rel.now bytes.now result (part self.old) (part self.new) }
        ensures rough { Roughens (place self.old) result (rough self.old) (rough self.new) }
        ensures cause { HasCause (fault_count self.old) (fault_count self.new) (did_failed result) }
        ensures watch { watch self.new ≡ option_map after_call (watch self.old) }
        ensures fails { FailsSo (watch self.old) (did_failed result) };

    /// Reads the file at the rel: at most `most` bytes from the offset `at` on, fewer only where the file ends, and none past its
    /// end. `Absent` comes where no file is there, so too where the rel leads to no path. Changes no node.
    fn read_piece(&mut self, rel: &Rel, at: u64, most: u32) -> Got
        ensures place { place self.new ≡ place self.old }
        ensures part { part self.new ≡ part self.old }
        ensures rough { rough self.new ≡ rough self.old }
        ensures got { Reads rel.now at most (part self.old) result }
        ensures within { IsWithin most result }
        ensures path { needs_path result ≡ true → is_path (place self.old ++ rel.now) ≡ true }
        ensures cause { HasCause (fault_count self.old) (fault_count self.new) (got_failed result) }
        ensures watch { watch self.new ≡ option_map after_call (watch self.old) }
        ensures fails { FailsSo (watch self.old) (got_failed result) };

    /// Lists the nodes of the part in order of rel, or says that there are more than 10,000. Changes no node.
    fn list(&mut self) -> Listed
        ensures place { place self.new ≡ place self.old }
        ensures part { part self.new ≡ part self.old }
        ensures rough { rough self.new ≡ rough self.old }
        ensures listed { Lists (part self.old) result }
        ensures cause { HasCause (fault_count self.old) (fault_count self.new) (list_failed result) }
        ensures watch { watch self.new ≡ option_map after_call (watch self.old) }
        ensures fails { FailsSo (watch self.old) (list_failed result) };

    /// Makes all of the part survive a crash. Changes no node.
    fn sync(&mut self) -> Did
        ensures place { place self.new ≡ place self.old }
        ensures part { part self.new ≡ part self.old }
        ensures rough { Syncs result (rough self.old) (rough self.new) }
        ensures cause { HasCause (fault_count self.old) (fault_count self.new) (did_failed result) }
        ensures watch { watch self.new ≡ option_map after_call (watch self.old) }
        ensures fails { FailsSo (watch self.old) (did_failed result) };

    /// How many calls failed. Takes no memory.
    fn faults(&self) -> u64
        ensures { result ≡ fault_count self.now };
}

/// A disk, which lends the parts at paths that don't overlap.
pub trait Disk {
    type R: Region;

    // What the disk has, but for the parts that are lent, where it tells that.
    ghost content: { Self → Option Part };

    ghost lent: { Self → List (List (List ℕ)) };

    ghost rough: { Self → List (List ℕ) → Bool };

    ghost fault_count: { Self → ℕ };

    // The device calls so far, those of the regions that came back included, and whether the next one is to fail, where the disk
    // tells that.
    ghost watch: { Self → Option Watch };

    /// Lends the part at and below the path; this is no device call. Want of memory leaves everything as it was.
    fn take(&mut self, path: &Path) -> Result<Self::R, Memory>
        requires { list_any (overlap path.now) (lent self.old) ≡ false }
        ensures place { IfOk result (λ region. Self.R.place region ≡ path.now) }
        ensures part { IfOk result (λ region. Self.R.part region ≡ option_map (below path.now) (content self.old)) }
        ensures region_rough { IfOk result (λ region. Self.R.rough region ≡ paths_below path.now (rough self.old)) }
        ensures count { IfOk result (λ region. Self.R.fault_count region ≡ 0) }
        ensures region_watch { IfOk result (λ region. Self.R.watch region ≡ option_map newly_lent (watch self.old)) }
        ensures out { IfOk result (λ region. list_any (same_names (Self.R.place region)) (lent self.new) ≡ true) }
        ensures content { content self.new ≡ (if is_ok result then option_map (without path.now) (content self.old) else content self.old) }
        ensures lent { lent self.new ≡ (if is_ok result then lent self.old ++ path.now ∷ [] else lent self.old) }
        ensures rough { rough self.new ≡ (if is_ok result then paths_outside path.now (rough self.old) else rough self.old) }
        ensures same { fault_count self.new ≡ fault_count self.old }
        ensures watch { watch self.new ≡ watch self.old };

    /// Takes a part back, with the rough paths that it has at and below its place; this is no device call. Takes no memory.
    fn give(&mut self, region: Self::R)
        requires { list_any (same_names (Self.R.place region)) (lent self.old) ≡ true }
        ensures content { content self.new ≡ with_inner (Self.R.place region) (Self.R.part region) (content self.old) }
        ensures lent { lent self.new ≡ filter (is_other_path (Self.R.place region)) (lent self.old) }
        ensures rough { rough self.new ≡ paths_of_both (rough self.old) (paths_below (Self.R.place region) (Self.R.rough region)) }
        ensures cause { HasCause (fault_count self.old) (fault_count self.new) (not (nat_eq (Self.R.fault_count region) 0)) }
        ensures watch { watch self.new ≡ joined_watch (Self.R.watch region) (watch self.old) };

    /// Finds the topmost nodes that overlap no known path, in path order. What the disk has stays.
    fn strays(&mut self, known: &[Path]) -> Strays
        requires none_lent { lent self.old ≡ [] }
        requires apart { (path : List (List ℕ)) → covering path known.now ≤ 1 }
        ensures content { content self.new ≡ content self.old }
        ensures lent { lent self.new ≡ lent self.old }
        ensures rough { rough self.new ≡ rough self.old }
        ensures strays { Finds known.now (content self.old) result }
        ensures cause { HasCause (fault_count self.old) (fault_count self.new) (strays_failed result) }
        ensures watch { watch self.new ≡ option_map after_call (watch self.old) }
        ensures fails { FailsSo (watch self.old) (strays_failed result) };

    /// How many calls failed, those of the regions that came back included. Takes no memory.
    fn faults(&self) -> u64
        ensures { result ≡ fault_count self.now };
}

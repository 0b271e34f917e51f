ghost use Rattle.std.specs.Prelude.{◌≡◌, ◌<◌, ◌≤◌, ◌++◌, ◌^◌, true, false, Some, IfOk, length};
ghost use Rattle.std.specs.List.{list_all};
ghost use Rattle.std.specs.Option.{ForSome};
ghost use Rattle.std.specs.Vec.{vec_len, vec_capacity};
ghost use Rattle.mat_io.specs.Answers.{did_failed};
ghost use Rattle.mat_io.specs.Causes.{HasCause, faults_after};
ghost use Rattle.mat_path.specs.Names.{is_path, is_prefix};
ghost use Rattle.mat_tree.specs.Parts.{file, folder, link};
ghost use Rattle.region_port.specs.Calls.{Appends, IfNotDone, Puts, Roughens, Syncs, Wipes, is_file, wants_memory};
ghost use Rattle.region_port.specs.Listing.{Lists, list_failed};
ghost use Rattle.region_port.specs.Reads.{IsWithin, Reads, got_failed, needs_path};
ghost use Rattle.region_port.specs.Entries.{entered, node_kept};
ghost use Rattle.mat_io.specs.Watches.{after_call, when_armed};

use crate::counts::Counts;
use crate::got::Got;
use crate::listed::Listed;
use crate::listing::seen;
use crate::node::DiskNode;
use crate::nodes::put_node;
use crate::pieces::{copied, file_at, grow_at};
use crate::port::Region;
use mat_io::{Arm, Did};
use mat_path::{Items, Memory, Path, Rel, Target};
use path_trie::Trie;
use std::alloc::Global;

/// How many nodes a part has at most while it is lent; one more wants memory. So the disk has room for all that comes back.
pub(crate) const MOST_LENT: usize = 1 << 40;

/// A loan of a part of a disk in memory. It keeps its nodes by their whole paths, in a trie that the disk hangs in again.
#[derive(Debug, Drop)]
pub struct MemRegion {
    pub(crate) place: Path,
    pub(crate) nodes: Trie<Option<DiskNode>>,
    /// The rough parts that came with the loan, with room for one path more.
    pub(crate) rough: Vec<Path>,
    /// Whether the whole part is rough.
    pub(crate) whole: bool,
    pub(crate) counts: Counts,
    ghost few: { length nodes ≤ 2 ^ 40 },
    ghost rough_within: { list_all (is_prefix place) rough.items ≡ true },
    ghost room: { vec_len rough < vec_capacity rough },
}

impl Region for MemRegion {
    ghost use Rattle.region_port.specs.Memory.{is_region_armed, part_of, region_counts, region_faults, region_place, region_watch, rough_of};

    ghost place = { region_place };

    ghost part = { λ region. Some (part_of region) };

    ghost rough = { rough_of };

    ghost fault_count = { region_faults };

    ghost watch = { λ region. Some (region_watch region) };

    fn path(&self) -> &Path {
        &self.place
    }

    fn wipe(&mut self) -> Did
        ensures place { region_place self.new ≡ region_place self.old }
        ensures part { Wipes result (Some (part_of self.old)) (Some (part_of self.new)) }
        ensures rough { Roughens (region_place self.old) result (rough_of self.old) (rough_of self.new) }
        ensures cause { HasCause (region_faults self.old) (region_faults self.new) (did_failed result) }
        ensures watch { region_watch self.new ≡ after_call (region_watch self.old) }
        ensures fails { did_failed result ≡ is_region_armed self.old }
        ensures counts { region_counts self.new ≡ entered (region_counts self.old) }
        ensures faults { region_faults self.new ≡ faults_after (did_failed result) (region_faults self.old) }
        ensures room { wants_memory result ≡ false }
        ensures same { IfNotDone result ((part_of self.new ≡ part_of self.old) × (rough_of self.new ≡ rough_of self.old)) }
    {
        if !self.counts.enter() {
            return Did::Failed;
        }
        self.nodes = Trie::new(*self.rough.allocator());
        self.whole = true;
        Did::Done
    }

    fn put_file(&mut self, rel: &Rel, exec: bool, bytes: &[u8]) -> Did
        requires { is_path (region_place self.old ++ rel.now) ≡ true }
        ensures place { region_place self.new ≡ region_place self.old }
        ensures part { Puts rel.now (file bytes.now exec) result (Some (part_of self.old)) (Some (part_of self.new)) }
        ensures rough { Roughens (region_place self.old) result (rough_of self.old) (rough_of self.new) }
        ensures cause { HasCause (region_faults self.old) (region_faults self.new) (did_failed result) }
        ensures watch { region_watch self.new ≡ after_call (region_watch self.old) }
        ensures fails { did_failed result ≡ is_region_armed self.old }
        ensures counts { region_counts self.new ≡ entered (region_counts self.old) }
        ensures faults { region_faults self.new ≡ faults_after (did_failed result) (region_faults self.old) }
        ensures same { IfNotDone result ((part_of self.new ≡ part_of self.old) × (rough_of self.new ≡ rough_of self.old)) }
    {
        if !self.counts.enter() {
            return Did::Failed;
        }
        match file_node(*self.rough.allocator(), bytes, exec) {
            Ok(node) => self.put(rel, node),
            Err(_) => Did::NoMemory,
        }
    }

    fn put_dir(&mut self, rel: &Rel) -> Did
        requires { is_path (region_place self.old ++ rel.now) ≡ true }
        ensures place { region_place self.new ≡ region_place self.old }
        ensures part { Puts rel.now folder result (Some (part_of self.old)) (Some (part_of self.new)) }
        ensures rough { Roughens (region_place self.old) result (rough_of self.old) (rough_of self.new) }
        ensures cause { HasCause (region_faults self.old) (region_faults self.new) (did_failed result) }
        ensures watch { region_watch self.new ≡ after_call (region_watch self.old) }
        ensures fails { did_failed result ≡ is_region_armed self.old }
        ensures counts { region_counts self.new ≡ entered (region_counts self.old) }
        ensures faults { region_faults self.new ≡ faults_after (did_failed result) (region_faults self.old) }
        ensures same { IfNotDone result ((part_of self.new ≡ part_of self.old) × (rough_of self.new ≡ rough_of self.old)) }
    {
        if !self.counts.enter() {
            return Did::Failed;
        }
        self.put(rel, DiskNode::Dir)
    }

    fn put_link(&mut self, rel: &Rel, target: &Target) -> Did
        requires { is_path (region_place self.old ++ rel.now) ≡ true }
        ensures place { region_place self.new ≡ region_place self.old }
        ensures part { Puts rel.now (link target.now) result (Some (part_of self.old)) (Some (part_of self.new)) }
        ensures rough { Roughens (region_place self.old) result (rough_of self.old) (rough_of self.new) }
        ensures cause { HasCause (region_faults self.old) (region_faults self.new) (did_failed result) }
        ensures watch { region_watch self.new ≡ after_call (region_watch self.old) }
        ensures fails { did_failed result ≡ is_region_armed self.old }
        ensures counts { region_counts self.new ≡ entered (region_counts self.old) }
        ensures faults { region_faults self.new ≡ faults_after (did_failed result) (region_faults self.old) }
        ensures same { IfNotDone result ((part_of self.new ≡ part_of self.old) × (rough_of self.new ≡ rough_of self.old)) }
    {
        if !self.counts.enter() {
            return Did::Failed;
        }
        match target.copy() {
            Ok(target) => self.put(rel, DiskNode::Link(target)),
            Err(_) => Did::NoMemory,
        }
    }

    fn append(&mut self, rel: &Rel, bytes: &[u8]) -> Did
        requires { ForSome (Some (part_of self.old)) (λ part. is_file (part rel.now) ≡ true) }
        ensures place { region_place self.new ≡ region_place self.old }
        ensures part { Appends rel.now bytes.now result (Some (part_of self.old)) (Some (part_of self.new)) }
        ensures rough { Roughens (region_place self.old) result (rough_of self.old) (rough_of self.new) }
        ensures cause { HasCause (region_faults self.old) (region_faults self.new) (did_failed result) }
        ensures watch { region_watch self.new ≡ after_call (region_watch self.old) }
        ensures fails { did_failed result ≡ is_region_armed self.old }
        ensures counts { region_counts self.new ≡ entered (region_counts self.old) }
        ensures faults { region_faults self.new ≡ faults_after (did_failed result) (region_faults self.old) }
        ensures same { IfNotDone result ((part_of self.new ≡ part_of self.old) × (rough_of self.new ≡ rough_of self.old)) }
    {
        if !self.counts.enter() {
            return Did::Failed;
        }
        let Ok(path) = self.place.join(rel) else {
            return Did::NoMemory;
        };
        if !grow_at(&mut self.nodes, &path, bytes) {
            return Did::NoMemory;
        }
        self.whole = true;
        Did::Done
    }

    fn read_piece(&mut self, rel: &Rel, at: u64, most: u32) -> Got
        ensures place { region_place self.new ≡ region_place self.old }
        ensures part { Some (part_of self.new) ≡ Some (part_of self.old) }
        ensures got { Reads rel.now at most (Some (part_of self.old)) result }
        ensures within { IsWithin most result }
        ensures path { needs_path result ≡ true → is_path (region_place self.old ++ rel.now) ≡ true }
        ensures rough { rough_of self.new ≡ rough_of self.old }
        ensures cause { HasCause (region_faults self.old) (region_faults self.new) (got_failed result) }
        ensures watch { region_watch self.new ≡ after_call (region_watch self.old) }
        ensures fails { got_failed result ≡ is_region_armed self.old }
        ensures counts { region_counts self.new ≡ entered (region_counts self.old) }
        ensures faults { region_faults self.new ≡ faults_after (got_failed result) (region_faults self.old) }
    {
        if !self.counts.enter() {
            return Got::Failed;
        }
        match file_at(&self.nodes, &self.place, rel) {
            Some(bytes) => copied(*self.rough.allocator(), bytes, at, most),
            None => Got::Absent,
        }
    }

    fn list(&mut self) -> Listed
        ensures place { region_place self.new ≡ region_place self.old }
        ensures part { Some (part_of self.new) ≡ Some (part_of self.old) }
        ensures listed { Lists (Some (part_of self.old)) result }
        ensures rough { rough_of self.new ≡ rough_of self.old }
        ensures cause { HasCause (region_faults self.old) (region_faults self.new) (list_failed result) }
        ensures watch { region_watch self.new ≡ after_call (region_watch self.old) }
        ensures fails { list_failed result ≡ is_region_armed self.old }
        ensures counts { region_counts self.new ≡ entered (region_counts self.old) }
        ensures faults { region_faults self.new ≡ faults_after (list_failed result) (region_faults self.old) }
    {
        if !self.counts.enter() {
            return Listed::Failed;
        }
        seen(*self.rough.allocator(), &self.place, &self.nodes)
    }

    fn sync(&mut self) -> Did
        ensures place { region_place self.new ≡ region_place self.old }
        ensures part { part_of self.new ≡ part_of self.old }
        ensures rough { Syncs result (rough_of self.old) (rough_of self.new) }
        ensures cause { HasCause (region_faults self.old) (region_faults self.new) (did_failed result) }
        ensures watch { region_watch self.new ≡ after_call (region_watch self.old) }
        ensures fails { did_failed result ≡ is_region_armed self.old }
        ensures counts { region_counts self.new ≡ entered (region_counts self.old) }
        ensures faults { region_faults self.new ≡ faults_after (did_failed result) (region_faults self.old) }
        ensures room { wants_memory result ≡ false }
    {
        if !self.counts.enter() {
            return Did::Failed;
        }
        self.rough.clear();
        self.whole = false;
        Did::Done
    }

    fn faults(&self) -> u64 {
        self.counts.faults
    }
}

impl MemRegion {
    ghost use Rattle.region_port.specs.Memory.{part_of, region_counts, region_place, rough_of};

    /// Puts a node in the place of what the part has at the rel.
    fn put(&mut self, rel: &Rel, node: DiskNode) -> Did
        requires { is_path (region_place self.old ++ rel.now) ≡ true }
        ensures place { region_place self.new ≡ region_place self.old }
        ensures part { Puts rel.now (node_kept node) result (Some (part_of self.old)) (Some (part_of self.new)) }
        ensures rough { Roughens (region_place self.old) result (rough_of self.old) (rough_of self.new) }
        ensures counts { region_counts self.new ≡ region_counts self.old }
        ensures answer { did_failed result ≡ false }
        ensures same { IfNotDone result ((part_of self.new ≡ part_of self.old) × (rough_of self.new ≡ rough_of self.old)) }
    {
        let Ok(path) = self.place.join(rel) else {
            return Did::NoMemory;
        };
        if self.nodes.len() >= MOST_LENT {
            return Did::NoMemory;
        }
        match put_node(&mut self.nodes, &path, node) {
            Ok(()) => {
                self.whole = true;
                Did::Done
            }
            Err(_) => Did::NoMemory,
        }
    }
}

impl Arm for MemRegion {
    ghost use Rattle.region_port.specs.Memory.{is_region_armed, part_of, region_calls, region_faults, region_place, region_watch, rough_of};

    ghost armed = { is_region_armed };

    ghost calls_made = { region_calls };

    fn arm(&mut self)
        ensures armed { is_region_armed self.new ≡ true }
        ensures calls { region_calls self.new ≡ region_calls self.old }
        ensures watch { region_watch self.new ≡ when_armed (region_watch self.old) }
        ensures place { region_place self.new ≡ region_place self.old }
        ensures same { (part_of self.new ≡ part_of self.old) × (rough_of self.new ≡ rough_of self.old) × (region_faults self.new ≡ region_faults self.old) }
    {
        self.counts.armed = true;
    }

    fn calls(&self) -> u64 {
        self.counts.calls
    }
}

/// The node of a file with these bytes.
fn file_node(alloc: Global, bytes: &[u8], exec: bool) -> Result<DiskNode, Memory>
    ensures ok { IfOk result (λ node. node_kept node ≡ file bytes.now exec) }
{
    let bytes = Items::of(Vec::from_slice(alloc, bytes)?);
    Ok(DiskNode::File { bytes, exec })
}

ghost use Rattle.mat_path.specs.Covering.{covering, is_other_path};
ghost use Rattle.mat_tree.specs.Trees.{ascends};
ghost use Rattle.std.specs.Prelude.{◌≡◌, IfOk, OnOk, is_ok, if◌then◌else◌, ◌+◌, ◌*◌, ◌^◌, ◌≤◌, ◌<◌, ◌∷◌, ◌++◌, [], ℕ, List, length, true, not, nat_eq, false, Some};
ghost use Rattle.std.specs.List.{filter, list_any};
ghost use Rattle.std.specs.Vec.{vec_len, vec_capacity};
ghost use Rattle.std.specs.VecDeque.{deque_len, deque_capacity};
ghost use Rattle.mat_io.specs.Causes.{HasCause, faults_after};
ghost use Rattle.mat_path.specs.Names.{is_prefix, overlap, same_names};
ghost use Rattle.mat_tree.specs.Parts.{bare, below, without, HasTree};
ghost use Rattle.region_port.specs.Calls.{nowhere, paths_below, paths_of_both, paths_outside, with_inner};
ghost use Rattle.region_port.specs.Crashes.{Crashes};
ghost use Rattle.region_port.specs.Entries.{entered, joined_counts, no_counts, paths_of, rough_paths};
ghost use Rattle.path_trie.specs.Entries.{is_under};
ghost use Rattle.region_port.specs.Strays.{Finds, strays_failed};
ghost use Rattle.mat_io.specs.Watches.{after_call, when_armed};
ghost use Rattle.region_port.specs.Watches.{joined_watch, uncalled};

use crate::counts::Counts;
use crate::crash::{Rest, crash_nodes};
use crate::listing::listed;
use crate::mem_region::{MOST_LENT, MemRegion};
use crate::node::DiskNode;
use crate::nodes::cut_part;
use crate::port::Disk;
use crate::segments::Segments;
use crate::strays::{Strays, strays_of};
use mat_io::Arm;
use mat_path::{Items, Memory, Path};
use mat_tree::Flat;
use path_trie::Trie;
use std::alloc::Global;
use std::mem;

/// How many nodes a disk has, and how many loans, when it lends one part more: with fewer it has room for all that comes back.
const MOST_NODES: usize = 1 << 62;

const MOST_LOANS: usize = 1 << 22;

/// A disk in memory. It keeps its nodes in a trie: a part is cut out of it and hung in again, however much it has. In the place of
/// what it lent an entry without a node stands.
#[derive(Drop)]
pub struct MemDisk {
    pub(crate) nodes: Trie<Option<DiskNode>>,
    pub(crate) rough: Segments<Path>,
    pub(crate) loans: Vec<Path>,
    pub(crate) counts: Counts,
    ghost room: { length nodes + 2 ^ 40 * vec_len loans ≤ 2 ^ 63 },
    ghost rough_seats: { deque_len rough.segments + vec_len loans ≤ deque_capacity rough.segments },
    ghost apart: { (path : List (List ℕ)) → covering path loans.items ≤ 1 },
    ghost marked: { (path : List (List ℕ)) → list_any (same_names path) loans.items ≡ true → list_any (is_under path) nodes ≡ true },
}

impl MemDisk {
    ghost use Rattle.region_port.specs.Disks.{disk_content, disk_counts, disk_loans, disk_rough};

    /// A disk with nothing on it and no loans. Takes no memory yet.
    pub fn new(alloc: Global) -> MemDisk
        ensures content { disk_content result ≡ bare }
        ensures lent { disk_loans result ≡ [] }
        ensures rough { disk_rough result ≡ nowhere }
        ensures counts { disk_counts result ≡ no_counts }
    {
        MemDisk {
            nodes: Trie::new(alloc),
            rough: Segments::new(alloc),
            loans: Vec::new(alloc),
            counts: Counts::new(),
        }
    }

    /// Whether a loan overlaps the path. Takes no memory.
    pub fn lent(&self, path: &Path) -> bool
        ensures { result ≡ list_any (overlap path.now) (disk_loans self.now) }
    {
        self.loans.iter().any(|loan| path.overlaps(loan))
    }

    /// The nodes at and below the path, with rels from it, in strict order of rel.
    pub fn nodes(&self, path: &Path) -> Result<Vec<Flat>, Memory>
        requires { list_any (overlap path.now) (disk_loans self.now) ≡ false }
        ensures ascending { IfOk result (λ nodes. ascends nodes.items ≡ true) }
        ensures ok { IfOk result (λ nodes. HasTree (below path.now (disk_content self.now)) nodes.items) }
    {
        listed(*self.loans.allocator(), path, &self.nodes)
    }

    /// Makes of all that is at or below a rough path what the rest says; everything else stays, and nothing is rough
    /// afterwards. This is no device call. Takes no memory.
    pub fn crash(&mut self, rest: Rest)
        requires { disk_loans self.old ≡ [] }
        ensures content { Crashes rest (disk_rough self.old) (disk_content self.old) (disk_content self.new) }
        ensures rough { disk_rough self.new ≡ nowhere }
        ensures lent { disk_loans self.new ≡ disk_loans self.old }
        ensures counts { disk_counts self.new ≡ disk_counts self.old }
    {
        let alloc = *self.loans.allocator();
        let rough = mem::replace(&mut self.rough, Segments::new(alloc));
        crash_nodes(&mut self.nodes, rough, rest);
    }
}

impl Disk for MemDisk {
    type R = MemRegion;

    ghost use Rattle.region_port.specs.Disks.{disk_content, disk_counts, disk_faults, disk_loans, disk_rough, disk_watch, is_disk_armed};
    ghost use Rattle.region_port.specs.Memory.{part_of, region_counts, region_faults, region_place, region_watch, rough_of};

    ghost content = { λ disk. Some (disk_content disk) };

    ghost lent = { disk_loans };

    ghost rough = { disk_rough };

    ghost fault_count = { disk_faults };

    ghost watch = { λ disk. Some (disk_watch disk) };

    fn take(&mut self, path: &Path) -> Result<MemRegion, Memory>
        requires { list_any (overlap path.now) (disk_loans self.old) ≡ false }
        ensures place { IfOk result (λ region. region_place region ≡ path.now) }
        ensures part { IfOk result (λ region. Some (part_of region) ≡ Some (below path.now (disk_content self.old))) }
        ensures region_rough { IfOk result (λ region. rough_of region ≡ paths_below path.now (disk_rough self.old)) }
        ensures count { IfOk result (λ region. region_faults region ≡ 0) }
        ensures region_watch { IfOk result (λ region. region_watch region ≡ uncalled) }
        ensures region_counts { IfOk result (λ region. region_counts region ≡ no_counts) }
        ensures out { IfOk result (λ region. list_any (same_names (region_place region)) (disk_loans self.new) ≡ true) }
        ensures content { Some (disk_content self.new) ≡ (if is_ok result then Some (without path.now (disk_content self.old)) else Some (disk_content self.old)) }
        ensures lent { disk_loans self.new ≡ (if is_ok result then disk_loans self.old ++ path.now ∷ [] else disk_loans self.old) }
        ensures rough { disk_rough self.new ≡ (if is_ok result then paths_outside path.now (disk_rough self.old) else disk_rough self.old) }
        ensures same { disk_faults self.new ≡ disk_faults self.old }
        ensures watch { disk_watch self.new ≡ disk_watch self.old }
        ensures counts { disk_counts self.new ≡ disk_counts self.old }
    {
        let place = path.copy()?;
        let loan = path.copy()?;
        self.loans.reserve(1)?;
        check_room(&self.nodes, self.loans.len(), path)?;
        let seats = self.loans.len() + 1;
        let rough_room = self.rough.ready(seats)?;
        let nodes = cut_part(&mut self.nodes, path)?;
        let rough = self.rough.take_out(path, rough_room);
        self.loans.push_reserved(loan);
        Ok(MemRegion {
            place,
            nodes,
            rough,
            whole: false,
            counts: Counts::new(),
        })
    }

    fn give(&mut self, region: MemRegion)
        requires { list_any (same_names (region_place region)) (disk_loans self.old) ≡ true }
        ensures content { Some (disk_content self.new) ≡ with_inner (region_place region) (Some (part_of region)) (Some (disk_content self.old)) }
        ensures lent { disk_loans self.new ≡ filter (is_other_path (region_place region)) (disk_loans self.old) }
        ensures rough { disk_rough self.new ≡ paths_of_both (disk_rough self.old) (rough_of region) }
        ensures within { paths_below (region_place region) (rough_of region) ≡ rough_of region }
        ensures cause { HasCause (disk_faults self.old) (disk_faults self.new) (not (nat_eq (region_faults region) 0)) }
        ensures watch { Some (disk_watch self.new) ≡ joined_watch (Some (region_watch region)) (Some (disk_watch self.old)) }
        ensures counts { disk_counts self.new ≡ joined_counts (disk_counts self.old) (region_counts region) }
    {
        let MemRegion {
            place,
            nodes,
            rough,
            whole,
            counts,
        } = region;
        self.nodes.hang(&place, nodes);
        self.loans.retain(|loan| place != *loan);
        self.counts.absorb(&counts);
        self.rough.give_back(rough_given(place, rough, whole));
    }

    fn strays(&mut self, known: &[Path]) -> Strays
        requires none_lent { disk_loans self.old ≡ [] }
        requires apart { (path : List (List ℕ)) → covering path known.now ≤ 1 }
        ensures content { disk_content self.new ≡ disk_content self.old }
        ensures lent { disk_loans self.new ≡ disk_loans self.old }
        ensures rough { disk_rough self.new ≡ disk_rough self.old }
        ensures strays { Finds known.now (Some (disk_content self.old)) result }
        ensures cause { HasCause (disk_faults self.old) (disk_faults self.new) (strays_failed result) }
        ensures watch { disk_watch self.new ≡ after_call (disk_watch self.old) }
        ensures fails { strays_failed result ≡ is_disk_armed self.old }
        ensures counts { disk_counts self.new ≡ entered (disk_counts self.old) }
        ensures faults { disk_faults self.new ≡ faults_after (strays_failed result) (disk_faults self.old) }
    {
        if !self.counts.enter() {
            return Strays::Failed;
        }
        match strays_of(*self.loans.allocator(), known, &self.nodes) {
            Ok(found) => Strays::Found(Items::of(found)),
            Err(_) => Strays::NoMemory,
        }
    }

    fn faults(&self) -> u64 {
        self.counts.faults
    }
}

impl Arm for MemDisk {
    ghost use Rattle.region_port.specs.Disks.{disk_calls, disk_content, disk_faults, disk_loans, disk_rough, disk_watch, is_disk_armed};

    ghost armed = { is_disk_armed };

    ghost calls_made = { disk_calls };

    fn arm(&mut self)
        ensures armed { is_disk_armed self.new ≡ true }
        ensures calls { disk_calls self.new ≡ disk_calls self.old }
        ensures watch { disk_watch self.new ≡ when_armed (disk_watch self.old) }
        ensures faults { disk_faults self.new ≡ disk_faults self.old }
        ensures content { disk_content self.new ≡ disk_content self.old }
        ensures lent { disk_loans self.new ≡ disk_loans self.old }
        ensures rough { disk_rough self.new ≡ disk_rough self.old }
    {
        self.counts.armed = true;
    }

    fn calls(&self) -> u64 {
        self.counts.calls
    }
}

/// The rough paths of a region that comes back.
fn rough_given(place: Path, mut rough: Vec<Path>, whole: bool) -> Vec<Path>
    requires { vec_len rough < vec_capacity rough }
    ensures { paths_of result.items ≡ rough_paths whole place rough.items }
{
    if whole {
        rough.push_reserved(place);
        return rough;
    }
    rough
}

/// Whether the part at and below a path may be lent beside so many others, so that there is room for all that comes back.
fn check_room(nodes: &Trie<Option<DiskNode>>, loans: usize, path: &Path) -> Result<(), Memory>
    ensures room { OnOk result (length nodes.now + 1 + 2 ^ 40 * (loans + 1) ≤ 2 ^ 63) }
    ensures few { OnOk result (length (filter (is_under path.now) nodes.now) ≤ 2 ^ 40) }
{
    if nodes.len() >= MOST_NODES || loans >= MOST_LOANS {
        return Err(Memory);
    }
    if nodes.count_under(path) > MOST_LENT {
        return Err(Memory);
    }
    Ok(())
}

// A look at a part of a disk: whether it has a tree.
ghost use Rattle.std.specs.Prelude.{◌≡◌, ◌≤◌, ◌≢◌, [], List, length, true, IfOk, IfErr, is_ok, if◌then◌else◌, Option};
ghost use Rattle.std.specs.List.{list_all};
ghost use Rattle.std.specs.Option.{ForSome, option_map};
ghost use Rattle.mat_io.specs.Causes.{HasCause, Rose};
ghost use Rattle.mat_tree.specs.Parts.{Part};
ghost use Rattle.mat_tree.specs.Trees.{IsTree, greatest_file, is_small};
ghost use Rattle.region_port.specs.Calls.{nowhere};
ghost use Rattle.region_port.specs.Reads.{file_bytes};
ghost use Rattle.mat_model.specs.declared.answers.Device.TheVariants as device;
ghost use Rattle.restart_scan.specs.Faults.{IsLookWhy, disk_failed, note_of};
ghost use Rattle.restart_scan.specs.Scans.{NotesDisk};
ghost use Rattle.restart_scan.specs.declared.refusal.ScanRefusal.TheVariants.{DiskFault};
ghost use Rattle.restart_scan.specs.Looks as Spec;

use crate::refusal::ScanRefusal;
use mat_digest::{Check, Digest};
use mat_io::Did;
use mat_model::{Device, FaultNote};
use mat_path::{Items, Path, Rel};
use mat_tree::{Flat, Tree, What};
use region_port::{Disk, Form, Got, Listed, Region, Seen};

/// How many bytes of a file are read at once.
const PIECE: u32 = 65_536;

// The fault of a call on a part, with the counts around it.
fn fault(before: u64, after: u64) -> ScanRefusal
    requires { Rose before after }
    ensures why { IsLookWhy result }
    ensures is { result ≡ DiskFault (note_of device.Disk before after) }
{
    ScanRefusal::DiskFault(FaultNote {
        device: Device::Disk,
        before,
        after,
    })
}

// Makes the part survive a crash.
fn sync<R: Region>(region: &mut R) -> Result<(), ScanRefusal>
    ensures place { R.place region.new ≡ R.place region.old }
    ensures part { R.part region.new ≡ R.part region.old }
    ensures rough { R.rough region.new ≡ (if is_ok result then nowhere else R.rough region.old) }
    ensures note { NotesDisk (R.fault_count region.old) (R.fault_count region.new) result }
    ensures why { IfErr result (λ why. IsLookWhy why) }
    ensures counted { disk_failed result ≡ true → 1 ≤ R.fault_count region.new }
{
    let before = region.faults();
    match region.sync() {
        Did::Done => Ok(()),
        Did::Failed => Err(fault(before, region.faults())),
        Did::NoMemory => Err(ScanRefusal::NoMemory),
    }
}

// The nodes of the part, or none where they are too many.
fn list<R: Region>(region: &mut R) -> Result<Option<Items<Seen>>, ScanRefusal>
    ensures place { R.place region.new ≡ R.place region.old }
    ensures part { R.part region.new ≡ R.part region.old }
    ensures rough { R.rough region.new ≡ R.rough region.old }
    ensures shows { IfOk result (λ nodes. Spec.Shows (R.part region.old) nodes) }
    ensures note { NotesDisk (R.fault_count region.old) (R.fault_count region.new) result }
    ensures why { IfErr result (λ why. IsLookWhy why) }
    ensures counted { disk_failed result ≡ true → 1 ≤ R.fault_count region.new }
{
    let before = region.faults();
    match region.list() {
        Listed::Nodes(nodes) => Ok(Some(nodes)),
        Listed::Many => Ok(None),
        Listed::Failed => Err(fault(before, region.faults())),
        Listed::NoMemory => Err(ScanRefusal::NoMemory),
    }
}

// The piece of a file from an offset on, or none where no file is there.
fn read<R: Region>(region: &mut R, rel: &Rel, at: u64) -> Result<Option<Items<u8>>, ScanRefusal>
    ensures place { R.place region.new ≡ R.place region.old }
    ensures part { R.part region.new ≡ R.part region.old }
    ensures rough { R.rough region.new ≡ R.rough region.old }
    ensures gives { IfOk result (λ given. Spec.GivesPiece rel.now at 65536 (R.part region.old) given) }
    ensures short { IfOk result (λ given. ForSome given (λ bytes. length bytes ≤ 65536)) }
    ensures note { NotesDisk (R.fault_count region.old) (R.fault_count region.new) result }
    ensures why { IfErr result (λ why. IsLookWhy why) }
    ensures counted { disk_failed result ≡ true → 1 ≤ R.fault_count region.new }
{
    let before = region.faults();
    match region.read_piece(rel, at, PIECE) {
        Got::Bytes(bytes) => Ok(Some(bytes)),
        Got::Absent => Ok(None),
        Got::Failed => Err(fault(before, region.faults())),
        Got::NoMemory => Err(ScanRefusal::NoMemory),
    }
}

// Whether the file at a rel has the bytes of a digest.
fn has_bytes<R: Region>(region: &mut R, rel: &Rel, digest: &Digest) -> Result<bool, ScanRefusal>
    requires small { digest.now.size ≤ greatest_file }
    ensures place { R.place region.new ≡ R.place region.old }
    ensures part { R.part region.new ≡ R.part region.old }
    ensures rough { R.rough region.new ≡ R.rough region.old }
    ensures has { IfOk result (λ has. ForSome (R.part region.old) (λ (part : Part). has ≡ Spec.is_file_of digest.now (file_bytes (part rel.now)))) }
    ensures why { IfErr result (λ why. IsLookWhy why) }
    ensures counted { disk_failed result ≡ true → 1 ≤ R.fault_count region.new }
{
    let mut check = Check::new();
    let mut at = 0;
    while at <= digest.size {
        let Some(piece) = read(region, rel, at)? else {
            return Ok(false);
        };
        let bytes = piece.as_slice();
        check.feed(bytes);
        if bytes.len() < PIECE as usize {
            return Ok(check.end() == *digest);
        }
        at += PIECE as u64;
    }
    Ok(false)
}

// Whether a node of a tree, if it is a file, has its bytes.
fn is_right<R: Region>(region: &mut R, node: &Flat) -> Result<bool, ScanRefusal>
    requires small { is_small node.now ≡ true }
    ensures place { R.place region.new ≡ R.place region.old }
    ensures part { R.part region.new ≡ R.part region.old }
    ensures rough { R.rough region.new ≡ R.rough region.old }
    ensures has { IfOk result (λ has. ForSome (R.part region.old) (λ (part : Part). has ≡ Spec.is_right part node.now)) }
    ensures why { IfErr result (λ why. IsLookWhy why) }
    ensures counted { disk_failed result ≡ true → 1 ≤ R.fault_count region.new }
{
    match &node.what {
        What::File { digest, .. } => has_bytes(region, &node.rel, digest),
        What::Dir => Ok(true),
        What::Link(_) => Ok(true),
    }
}

// Whether all files of a tree have their bytes.
fn are_right<R: Region>(region: &mut R, nodes: &[Flat]) -> Result<bool, ScanRefusal>
    requires small { list_all is_small nodes.now ≡ true }
    ensures place { R.place region.new ≡ R.place region.old }
    ensures part { R.part region.new ≡ R.part region.old }
    ensures rough { R.rough region.new ≡ R.rough region.old }
    ensures has { IfOk result (λ has. ForSome (R.part region.old) (λ (part : Part). has ≡ list_all (Spec.is_right part) nodes.now)) }
    ensures why { IfErr result (λ why. IsLookWhy why) }
    ensures counted { disk_failed result ≡ true → 1 ≤ R.fault_count region.new }
{
    for node in nodes {
        if !is_right(region, node)? {
            return Ok(false);
        }
    }
    Ok(true)
}

// Whether a listed form is what a node of a tree is.
fn is_alike_form(what: &What, form: &Form) -> bool
    ensures { result ≡ Spec.is_alike_form what.now form.now }
{
    match (what, form) {
        (What::File { digest, exec }, Form::File { exec: flag, size }) => {
            *exec == *flag && digest.size == *size
        }
        (What::Dir, Form::Dir) => true,
        (What::Link(target), Form::Link(other)) => target.bytes() == other.bytes(),
        _ => false,
    }
}

// Whether a listed node is alike one of a tree.
fn is_alike(node: &Flat, seen: &Seen) -> bool
    ensures { result ≡ Spec.is_alike node.now seen.now }
{
    node.rel == seen.rel && is_alike_form(&node.what, &seen.what)
}

// Whether listed nodes are alike those of a tree, one by one.
fn are_alike(nodes: &[Flat], seen: &[Seen]) -> bool
    ensures { result ≡ Spec.are_alike nodes.now seen.now }
{
    if nodes.len() != seen.len() {
        return false;
    }
    for (place, node) in nodes.iter().enumerate() {
        if !is_alike(node, &seen[place]) {
            return false;
        }
    }
    true
}

// Whether a part has a tree, and survives a crash.
fn has_tree<R: Region>(region: &mut R, nodes: &[Flat]) -> Result<bool, ScanRefusal>
    requires tree { IsTree nodes.now }
    ensures place { R.place region.new ≡ R.place region.old }
    ensures part { R.part region.new ≡ R.part region.old }
    ensures rough { Spec.Settles (is_ok result) (R.rough region.old) (R.rough region.new) }
    ensures tells { IfOk result (λ has. Spec.TellsTree (R.part region.old) nodes.now has) }
    ensures why { IfErr result (λ why. IsLookWhy why) }
    ensures counted { disk_failed result ≡ true → 1 ≤ R.fault_count region.new }
{
    sync(region)?;
    let Some(seen) = list(region)? else {
        return Ok(false);
    };
    if !are_alike(nodes, seen.as_slice()) {
        return Ok(false);
    }
    are_right(region, nodes)
}

/// Whether the disk has a tree at a path. The part is taken, synced, listed, read where it is alike, and given back.
pub(crate) fn look_at<D: Disk>(disk: &mut D, path: &Path, tree: &Tree) -> Result<bool, ScanRefusal>
    requires none_lent { D.lent disk.old ≡ [] }
    ensures tells { IfOk result (λ has. Spec.TellsTreeAt path.now tree.now (D.content disk.old) has) }
    ensures settled { IfOk result (λ _. Spec.IsSettledAt path.now (D.rough disk.new)) }
    ensures content { Spec.HasStill (D.content disk.old) (D.content disk.new) }
    ensures lent { D.lent disk.new ≡ [] }
    ensures rough { Spec.IsNoRougher (D.rough disk.old) (D.rough disk.new) }
    ensures why { IfErr result (λ why. IsLookWhy why) }
    ensures cause { HasCause (D.fault_count disk.old) (D.fault_count disk.new) (disk_failed result) }
{
    let nodes = tree.flat()?;
    let mut region = disk.take(path)?;
    let answer = has_tree(&mut region, nodes.as_slice());
    disk.give(region);
    answer
}

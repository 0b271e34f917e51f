ghost use Rattle.std.specs.Prelude.{◌≡◌, [], false};
ghost use Rattle.std.specs.List.{list_any};
ghost use Rattle.mat_path.specs.Names.{overlap};
ghost use Rattle.mat_tree.specs.Parts.{HasTree};
ghost use Rattle.region_port.specs.Disks.{disk_loans};
ghost use Rattle.region_port.specs.Memory.{part_of};

use crate::crash::Rest;
use crate::got::Got;
use crate::listed::{Form, Listed, Seen};
use crate::mem_disk::MemDisk;
use crate::mem_region::MemRegion;
use crate::port::{Disk, Region};
use crate::states::{ReadLoan, Rough, Synced};
use crate::strays::Strays;
use mat_io::{Arm, Did};
use mat_path::{Memory, Path, Rel, Target};
use mat_tree::{Flat, Tree, What};
use std::alloc::Global;
use std::test::Fail;

/// The rel that a text spells.
fn rel_of(alloc: Global, text: &[u8]) -> Result<Rel, Memory> {
    Rel::read(alloc, text).or(Err(Memory))
}

/// Puts a file, through the bound, where the joined names are a path.
fn put<R: Region>(region: &mut R, rel: &Rel, bytes: &[u8]) -> Did
    ensures { R.place region.new ≡ R.place region.old }
{
    if region.path().can_join(rel) {
        return region.put_file(rel, true, bytes);
    }
    Did::NoMemory
}

/// Puts a directory, through the bound.
fn put_folder<R: Region>(region: &mut R, rel: &Rel) -> Did
    ensures { R.place region.new ≡ R.place region.old }
{
    if region.path().can_join(rel) {
        return region.put_dir(rel);
    }
    Did::NoMemory
}

/// Puts a link, through the bound.
fn put_link<R: Region>(region: &mut R, rel: &Rel, target: &Target) -> Did
    ensures { R.place region.new ≡ R.place region.old }
{
    if region.path().can_join(rel) {
        return region.put_link(rel, target);
    }
    Did::NoMemory
}

/// Puts a file and adds bytes to it twice, through the bound.
#[tactic(auto, using(crate::proofs::Content::put_allows_append, crate::proofs::Content::append_allows_append))]
fn grow<R: Region>(region: &mut R, rel: &Rel, first: &[u8], more: &[u8]) -> Did
    ensures { R.place region.new ≡ R.place region.old }
{
    if !region.path().can_join(rel) {
        return Did::NoMemory;
    }
    match region.put_file(rel, true, first) {
        Did::Done => {}
        did => return did,
    }
    match region.append(rel, more) {
        Did::Done => region.append(rel, more),
        did => did,
    }
}

/// The bytes of a piece, or a word for another answer.
fn bytes_of(alloc: Global, got: Got) -> Result<Vec<u8>, Fail> {
    match got {
        Got::Bytes(bytes) => Ok(bytes.into_vec()),
        Got::Absent => Ok(Vec::from_slice(alloc, b"absent")?),
        Got::Failed => Ok(Vec::from_slice(alloc, b"failed")?),
        Got::NoMemory => Ok(Vec::from_slice(alloc, b"no memory")?),
    }
}

/// Adds a node to a text: its rel, what it is, and the last digit of its size.
fn add_node(text: &mut Vec<u8>, rel: &Rel, kind: &[u8], size: u64) -> Result<(), Memory> {
    text.extend_from_slice(b" ")?;
    text.extend_from_slice(rel.write()?.as_slice())?;
    text.extend_from_slice(kind)?;
    text.push(b'0' + (size % 10) as u8)?;
    Ok(())
}

/// The nodes of a list as a text.
fn text_of(alloc: Global, nodes: &[Flat]) -> Result<Vec<u8>, Fail> {
    let mut text = Vec::new(alloc);
    for node in nodes {
        match &node.what {
            What::File { digest, exec } => {
                let kind: &[u8] = if *exec { b"!" } else { b"=" };
                add_node(&mut text, &node.rel, kind, digest.size)?;
            }
            What::Dir => add_node(&mut text, &node.rel, b"/", 0)?,
            What::Link(target) => add_node(&mut text, &node.rel, target.bytes(), 0)?,
        }
    }
    Ok(text)
}

/// What a region lists, as a text or a word.
fn list_of<R: Region>(alloc: Global, region: &mut R) -> Result<Vec<u8>, Fail>
    ensures { R.place region.new ≡ R.place region.old }
{
    let nodes = match region.list() {
        Listed::Nodes(nodes) => nodes,
        Listed::Many => return Ok(Vec::from_slice(alloc, b"many")?),
        Listed::Failed => return Ok(Vec::from_slice(alloc, b"failed")?),
        Listed::NoMemory => return Ok(Vec::from_slice(alloc, b"no memory")?),
    };
    let mut text = Vec::new(alloc);
    for Seen { rel, what } in nodes.as_slice() {
        match what {
            Form::File { exec: true, size } => add_node(&mut text, rel, b"!", *size)?,
            Form::File { exec: false, size } => add_node(&mut text, rel, b"=", *size)?,
            Form::Dir => add_node(&mut text, rel, b"/", 0)?,
            Form::Link(target) => add_node(&mut text, rel, target.bytes(), 0)?,
            Form::Strange => add_node(&mut text, rel, b"?", 0)?,
        }
    }
    Ok(text)
}

#[test]
fn pieces_are_read(rt: HostRuntime) -> Result<(), Fail> {
    let alloc = rt.alloc();
    let mut disk = MemDisk::new(alloc);
    let path = Path::read(alloc, b"a")?;
    assert!(rt; !disk.lent(&path));
    let mut region = disk.take(&path)?;
    let did = grow(&mut region, &rel_of(alloc, b"x")?, b"abcd", b"ef");
    assert_eq!(rt; did, Did::Done);
    assert_eq!(rt; put_folder(&mut region, &rel_of(alloc, b"d")?), Did::Done);
    let cases: [(&[u8], u64, u32, &[u8]); 8] = [
        (b"x", 0, 3, b"abc"),
        (b"x", 2, 5, b"cdefe"),
        (b"x", 5, 100, b"fef"),
        (b"x", 8, 1, b""),
        (b"x", 900, 1, b""),
        (b"x", 1, 0, b""),
        (b"d", 0, 1, b"absent"),
        (b"y", 0, 1, b"absent"),
    ];
    for (rel, at, most, bytes) in cases {
        let got = region.read_piece(&rel_of(alloc, rel)?, at, most);
        assert_eq!(rt; bytes_of(alloc, got)?.as_slice(), bytes);
    }
    let mut deep = Vec::new(alloc);
    for _ in 0..63 {
        deep.extend_from_slice(b"n/")?;
    }
    deep.push(b'n')?;
    let got = region.read_piece(&rel_of(alloc, deep.as_slice())?, 0, 1);
    assert_eq!(rt; bytes_of(alloc, got)?.as_slice(), b"absent".as_slice());
    assert_eq!(rt; region.calls(), 13);
    Ok(())
}

#[test]
fn nodes_are_listed(rt: HostRuntime) -> Result<(), Fail> {
    let alloc = rt.alloc();
    let mut disk = MemDisk::new(alloc);
    let (path, above) = (Path::read(alloc, b"out/a")?, Path::read(alloc, b"out")?);
    let target = Target::read(alloc, b"../lib")?;
    assert!(rt; !disk.lent(&path));
    let mut region = disk.take(&path)?;
    assert!(rt; disk.lent(&above));
    assert_eq!(rt;
        put(&mut region, &rel_of(alloc, b"b/x")?, b"abc"),
        Did::Done
    );
    assert_eq!(rt; put_folder(&mut region, &rel_of(alloc, b".")?), Did::Done);
    assert_eq!(rt;
        put_link(&mut region, &rel_of(alloc, b"a")?, &target),
        Did::Done
    );
    assert_eq!(rt; put(&mut region, &rel_of(alloc, b"b/x")?, b"de"), Did::Done);
    assert_eq!(rt; region.sync(), Did::Done);
    assert_eq!(rt;
        list_of(alloc, &mut region)?.as_slice(),
        b" ./0 a../lib0 b/x!2".as_slice()
    );
    disk.give(region);
    assert!(rt; !disk.lent(&above));
    let nodes = disk.nodes(&above)?;
    assert_eq!(rt;
        text_of(alloc, nodes.as_slice())?.as_slice(),
        b" a/0 a/a../lib0 a/b/x!2".as_slice()
    );
    let mut region = disk.take(&path)?;
    assert_eq!(rt; region.wipe(), Did::Done);
    assert_eq!(rt; list_of(alloc, &mut region)?.as_slice(), b"".as_slice());
    disk.give(region);
    assert_eq!(rt; (disk.calls(), Disk::faults(&disk)), (8, 0));
    Ok(())
}

/// Puts directories, as many as this.
fn put_many<R: Region>(alloc: Global, region: &mut R, many: u32) -> Result<(), Fail>
    ensures { R.place region.new ≡ R.place region.old }
{
    for k in 0..many {
        let name = [
            b'a' + (k % 26) as u8,
            b'a' + (k / 26 % 26) as u8,
            b'a' + (k / 676 % 26) as u8,
        ];
        put_folder(region, &rel_of(alloc, &name)?);
    }
    Ok(())
}

#[test]
fn a_long_list_is_too_long(rt: HostRuntime) -> Result<(), Fail> {
    let alloc = rt.alloc();
    let mut disk = MemDisk::new(alloc);
    let path = Path::read(alloc, b"a")?;
    assert!(rt; !disk.lent(&path));
    let mut region = disk.take(&path)?;
    put_many(alloc, &mut region, 10_000)?;
    assert!(rt; matches!(region.list(), Listed::Nodes(_)));
    put_many(alloc, &mut region, 10_001)?;
    assert!(rt; matches!(region.list(), Listed::Many));
    Ok(())
}

#[test]
fn an_armed_call_fails_once(rt: HostRuntime) -> Result<(), Fail> {
    let alloc = rt.alloc();
    let mut disk = MemDisk::new(alloc);
    let path = Path::read(alloc, b"a")?;
    let root = rel_of(alloc, b".")?;
    assert!(rt; !disk.lent(&path));
    let mut region = disk.take(&path)?;
    region.arm();
    assert_eq!(rt; put(&mut region, &root, b"x"), Did::Failed);
    assert_eq!(rt; put(&mut region, &root, b"x"), Did::Done);
    region.arm();
    assert_eq!(rt; region.sync(), Did::Failed);
    region.arm();
    assert_eq!(rt; region.wipe(), Did::Failed);
    region.arm();
    assert!(rt; matches!(region.read_piece(&root, 0, 1), Got::Failed));
    region.arm();
    assert!(rt; matches!(region.list(), Listed::Failed));
    assert_eq!(rt; (region.calls(), Region::faults(&region)), (6, 5));
    assert_eq!(rt; list_of(alloc, &mut region)?.as_slice(), b" .!1".as_slice());
    Ok(())
}

#[test]
fn an_armed_search_fails_once(rt: HostRuntime) -> Result<(), Fail> {
    let alloc = rt.alloc();
    let mut disk = MemDisk::new(alloc);
    let path = Path::read(alloc, b"a")?;
    assert!(rt; !disk.lent(&path));
    let mut region = disk.take(&path)?;
    region.arm();
    assert_eq!(rt; region.sync(), Did::Failed);
    disk.give(region);
    disk.arm();
    assert!(rt; disk.loans.is_empty());
    assert!(rt; matches!(disk.strays(&[]), Strays::Failed));
    assert!(rt; disk.loans.is_empty());
    assert!(rt; matches!(disk.strays(&[]), Strays::Found(_)));
    assert_eq!(rt; (disk.calls(), Disk::faults(&disk)), (3, 2));
    Ok(())
}

/// The strays beside one known path, as a text.
#[tactic(auto, using(crate::proofs::StrayLemmas::one_is_apart))]
fn strays_beside(alloc: Global, disk: &mut MemDisk, known: Path) -> Result<Vec<u8>, Fail>
    requires { disk_loans disk.old ≡ [] }
    ensures { disk_loans disk.new ≡ disk_loans disk.old }
{
    let known = [known];
    let Strays::Found(paths) = disk.strays(&known) else {
        return Ok(Vec::from_slice(alloc, b"none")?);
    };
    let mut text = Vec::new(alloc);
    for path in paths.as_slice() {
        text.extend_from_slice(b" ")?;
        text.extend_from_slice(path.write()?.as_slice())?;
    }
    Ok(text)
}

/// Puts directories at some rels, as far as memory is there.
fn put_folders<R: Region>(region: &mut R, rels: &[Rel]) -> Did
    ensures { R.place region.new ≡ R.place region.old }
{
    for rel in rels {
        match put_folder(region, rel) {
            Did::Done => {}
            did => return did,
        }
    }
    Did::Done
}

/// Puts directories at some rels below a path, and gives the part back.
fn fill(disk: &mut MemDisk, path: &Path, rels: &[Rel]) -> Result<Did, Memory>
    requires { list_any (overlap path.now) (disk_loans disk.old) ≡ false }
{
    let mut region = disk.take(path)?;
    let did = put_folders(&mut region, rels);
    disk.give(region);
    Ok(did)
}

#[test]
fn strays_are_the_topmost(rt: HostRuntime) -> Result<(), Fail> {
    let alloc = rt.alloc();
    let mut disk = MemDisk::new(alloc);
    let parts: [(&[u8], &[u8], &[u8]); 4] = [
        (b"z", b".", b"."),
        (b"c/d", b"e", b"."),
        (b"a", b".", b"b"),
        (b"k", b"x/y", b"x/y"),
    ];
    for (path, first, second) in parts {
        let path = Path::read(alloc, path)?;
        let rels = [rel_of(alloc, first)?, rel_of(alloc, second)?];
        assert!(rt; !disk.lent(&path));
        assert_eq!(rt; fill(&mut disk, &path, &rels)?, Did::Done);
    }
    let cases: [(&[u8], &[u8]); 5] = [
        (b"q", b" a c/d k/x/y z"),
        (b"a/b", b" c/d k/x/y z"),
        (b"a/c", b" a/b c/d k/x/y z"),
        (b"k", b" a c/d z"),
        (b"c", b" a k/x/y z"),
    ];
    for (known, found) in cases {
        assert!(rt; disk.loans.is_empty());
        let text = strays_beside(alloc, &mut disk, Path::read(alloc, known)?)?;
        assert_eq!(rt; text.as_slice(), found);
    }
    assert_eq!(rt; disk.calls(), 13);
    Ok(())
}

/// Puts a file below a path, makes it last or not, and gives the part back.
fn keep(
    disk: &mut MemDisk,
    path: &[u8],
    rel: &[u8],
    bytes: &[u8],
    sync: bool,
) -> Result<Did, Fail> {
    let alloc = *disk.loans.allocator();
    let path = Path::read(alloc, path)?;
    if disk.lent(&path) {
        return Ok(Did::Failed);
    }
    let rel = rel_of(alloc, rel)?;
    let mut region = disk.take(&path)?;
    let did = put(&mut region, &rel, bytes);
    let did = finish(&mut region, did, sync);
    disk.give(region);
    Ok(did)
}

/// Makes what was put last, where it was put and is to last.
fn finish<R: Region>(region: &mut R, put: Did, sync: bool) -> Did
    ensures { R.place region.new ≡ R.place region.old }
{
    if sync && put == Did::Done {
        return region.sync();
    }
    put
}

#[test]
fn a_crash_leaves_what_was_synced(rt: HostRuntime) -> Result<(), Fail> {
    let alloc = rt.alloc();
    let path = Path::read(alloc, b"t")?;
    let cases: [(Rest, &[u8]); 3] = [
        (Rest::Nothing, b" s/x!5"),
        (Rest::Whole, b" r/in!3 r/y!4 s/x!5"),
        (Rest::Torn, b" r/in!1 r/y!2 s/x!5"),
    ];
    for (rest, left) in cases {
        let mut disk = MemDisk::new(alloc);
        assert_eq!(rt; keep(&mut disk, b"t/s", b"x", b"abcde", true)?, Did::Done);
        assert_eq!(rt; keep(&mut disk, b"t/r", b"y", b"abcd", false)?, Did::Done);
        assert_eq!(rt; keep(&mut disk, b"t/r/in", b".", b"abc", false)?, Did::Done);
        assert!(rt; disk.loans.is_empty());
        disk.crash(rest);
        assert!(rt; !disk.lent(&path));
        let nodes = disk.nodes(&path)?;
        assert_eq!(rt; text_of(alloc, nodes.as_slice())?.as_slice(), left);
    }
    Ok(())
}

/// Settles the part of a region with the tree of these nodes.
fn settle(alloc: Global, region: MemRegion, nodes: &[Flat]) -> Result<Synced<MemRegion>, Fail>
    requires { HasTree (part_of region) nodes.now }
{
    if !Flat::are_small(nodes) {
        return Err(Fail::from(Memory));
    }
    let tree = Tree::from_flat(alloc, nodes)?;
    Ok(Rough::new(region).settle(tree))
}

/// Empties the part of a region.
fn empty(mut region: MemRegion, armed: bool) -> Option<Synced<MemRegion>> {
    if region.wipe() != Did::Done {
        return None;
    }
    if armed {
        region.arm();
        return Some(Rough::new(region).empty());
    }
    Some(Rough::new(region).empty())
}

/// What a sync made of a part, as a text: its state, its path, its tree, and the calls and faults of its region.
fn state_of(alloc: Global, synced: Synced<MemRegion>) -> Result<Vec<u8>, Fail> {
    let mut text = Vec::new(alloc);
    let region = match synced {
        Synced::Settled(part) => {
            text.extend_from_slice(b"settled ")?;
            text.extend_from_slice(part.path().write()?.as_slice())?;
            text.extend_from_slice(text_of(alloc, part.tree().flat()?.as_slice())?.as_slice())?;
            part.into_region()
        }
        Synced::Bare(part) => {
            text.extend_from_slice(b"bare ")?;
            text.extend_from_slice(part.path().write()?.as_slice())?;
            part.into_region()
        }
        Synced::Failed(part) => {
            text.extend_from_slice(b"failed ")?;
            text.extend_from_slice(part.path().write()?.as_slice())?;
            part.into_region()
        }
        Synced::NoMemory(part) => {
            text.extend_from_slice(b"no memory")?;
            part.into_region()
        }
    };
    text.push(b'0' + (region.calls() % 10) as u8)?;
    text.push(b'0' + (Region::faults(&region) % 10) as u8)?;
    Ok(text)
}

/// Lends the part at a path, and settles it with the tree that it has.
fn settle_at(disk: &mut MemDisk, path: &Path, armed: bool) -> Result<Synced<MemRegion>, Fail>
    requires { list_any (overlap path.now) (disk_loans disk.old) ≡ false }
{
    let alloc = *disk.loans.allocator();
    let nodes = disk.nodes(path)?;
    let mut region = disk.take(path)?;
    if armed {
        region.arm();
        return settle(alloc, region, nodes.as_slice());
    }
    settle(alloc, region, nodes.as_slice())
}

#[test]
fn a_part_settles_in_one_call(rt: HostRuntime) -> Result<(), Fail> {
    let alloc = rt.alloc();
    let path = Path::read(alloc, b"a")?;
    for (armed, text) in [
        (false, b"settled a .!310".as_slice()),
        (true, b"failed a11"),
    ] {
        let mut disk = MemDisk::new(alloc);
        assert_eq!(rt; keep(&mut disk, b"a", b".", b"abc", false)?, Did::Done);
        assert!(rt; !disk.lent(&path));
        let synced = settle_at(&mut disk, &path, armed)?;
        assert_eq!(rt; state_of(alloc, synced)?.as_slice(), text);
    }
    Ok(())
}

#[test]
fn a_bare_part_settles(rt: HostRuntime) -> Result<(), Fail> {
    let alloc = rt.alloc();
    let path = Path::read(alloc, b"a")?;
    for (armed, text) in [(false, b"bare a20".as_slice()), (true, b"failed a21")] {
        let mut disk = MemDisk::new(alloc);
        assert!(rt; !disk.lent(&path));
        let region = disk.take(&path)?;
        match empty(region, armed) {
            Some(synced) => assert_eq!(rt; state_of(alloc, synced)?.as_slice(), text),
            None => assert!(rt; false, "wiped"),
        }
    }
    Ok(())
}

#[test]
fn a_lent_part_is_read(rt: HostRuntime) -> Result<(), Fail> {
    let alloc = rt.alloc();
    let mut disk = MemDisk::new(alloc);
    let path = Path::read(alloc, b"a")?;
    let root = rel_of(alloc, b".")?;
    assert_eq!(rt; keep(&mut disk, b"a", b".", b"abc", true)?, Did::Done);
    assert!(rt; !disk.lent(&path));
    let nodes = disk.nodes(&path)?;
    assert!(rt; Flat::are_small(nodes.as_slice()));
    let tree = Tree::from_flat(alloc, nodes.as_slice())?;
    let mut loan = ReadLoan::of(disk.take(&path)?, tree);
    assert!(rt; *loan.path() == path);
    assert_eq!(rt;
        text_of(alloc, loan.tree().flat()?.as_slice())?.as_slice(),
        b" .!3".as_slice()
    );
    let got = loan.read_piece(&root, 1, 1);
    assert_eq!(rt; bytes_of(alloc, got)?.as_slice(), b"b".as_slice());
    loan.arm();
    assert!(rt; matches!(loan.read_piece(&root, 0, 1), Got::Failed));
    let got = loan.read_piece(&root, 2, 1);
    assert_eq!(rt; bytes_of(alloc, got)?.as_slice(), b"c".as_slice());
    let region = loan.into_region();
    assert_eq!(rt; (region.calls(), Region::faults(&region)), (3, 1));
    Ok(())
}

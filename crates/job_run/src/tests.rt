ghost use Rattle.std.specs.Prelude.{◌≡◌, true, false, not, IfOk, Option};
ghost use Rattle.std.specs.List.{list_all, list_any};
ghost use Rattle.std.specs.Option.{is_some};
ghost use Rattle.mat_path.specs.Names.{overlap, same_names};
ghost use Rattle.mat_tree.specs.Trees.{is_placed};
ghost use Rattle.region_port.specs.Disks.{disk_loans};
ghost use Rattle.region_port.specs.Memory.{region_place};
ghost use Rattle.region_port.specs.States.{state_region};
ghost use Rattle.write_plan.specs.Plans.{lends_at, may_lend};
ghost use Rattle.job_run.specs.Done.{task_path};
ghost use Rattle.job_run.specs.Views.{job_card};
ghost use Rattle.job_run.specs.Orders.{held_bytes, is_right, is_right_from, own_supply};

use crate::acts::{held_bytes, own_supply};
use crate::{Done, Job, Next, work_off};
use fetch_port::{Fetcher, MemStore};
use mat_digest::Digest;
use mat_io::{Arm, Did};
use mat_model::{Card, Device, FaultNote, Outcome, Task};
use mat_path::{Items, JoinRefusal, Memory, Path, Rel, Target};
use mat_tree::{Flat, Tree, What};
use region_port::{Disk, MemDisk, MemRegion, Part, ReadLoan, Region, Rough};
use std::alloc::Global;
use std::test::Fail;
use write_plan::{Method, Origin, Supply, plan};

/// The device call that fails.
#[derive(Clone, Copy, Debug, PartialEq, Eq)]
enum Armed {
    /// None.
    Nothing,
    /// That of this step, counted from 0.
    Step(usize),
}

/// A node at a rel.
fn node(alloc: Global, rel: &[u8], what: What) -> Result<Flat, Fail> {
    let rel = Rel::read(alloc, rel)?;
    Ok(Flat { rel, what })
}

/// A file of these bytes.
fn file(bytes: &[u8], exec: bool) -> What {
    let digest = Digest::of(bytes);
    What::File { digest, exec }
}

/// The nodes of a tree that is one file.
fn one(alloc: Global, bytes: &[u8]) -> Result<Vec<Flat>, Fail> {
    let mut nodes = Vec::new(alloc);
    nodes.push(node(alloc, b".", file(bytes, false))?)?;
    Ok(nodes)
}

/// As many bytes as this, all the same but for the last.
fn blob(alloc: Global, many: usize, last: u8) -> Result<Vec<u8>, Memory> {
    let mut bytes = Vec::new(alloc);
    for _ in 1..many {
        bytes.push(b'a')?;
    }
    bytes.push(last)?;
    Ok(bytes)
}

/// Whether each node of a tree at a path is at a path itself.
fn are_placed(path: &Path, nodes: &[Flat]) -> bool
    ensures { result ≡ list_all (is_placed path.now) nodes.now }
{
    nodes.iter().all(|node| is_placed(path, node))
}

/// The same for one node.
fn is_placed(path: &Path, node: &Flat) -> bool
    ensures { result ≡ is_placed path.now node.now }
{
    path.can_join(&node.rel)
}

/// Whether the bytes that a row holds have the digest of each file that gets its bytes from them.
fn are_right(method: &Method, nodes: &[Flat]) -> bool
    ensures { result ≡ list_all (is_right method.now) nodes.now }
{
    nodes.iter().all(|node| is_right(method, node))
}

/// The same for one node.
fn is_right(method: &Method, node: &Flat) -> bool
    ensures { result ≡ is_right method.now node.now }
{
    match &node.what {
        What::File { digest, .. } => is_right_file(method, digest),
        What::Dir => true,
        What::Link(_) => true,
    }
}

/// The same for a file.
fn is_right_file(method: &Method, digest: &Digest) -> bool
    ensures { result ≡ is_right_from (own_supply method.now) (held_bytes method.now) digest.now }
{
    match own_supply(method) {
        Supply::Held => Digest::of(held_bytes(method)) == *digest,
        Supply::Empty => true,
        Supply::Store => true,
        Supply::Loan(_) => true,
    }
}

/// Whether a part that is lent has a rel for what stands at a rel of the tree.
fn lends_at(method: &Method, lent: bool, rel: &Rel) -> Result<bool, Memory>
    ensures { IfOk result (λ lends. lends ≡ lends_at method.now lent rel.now) }
{
    if !lent {
        return Ok(true);
    }
    match method {
        Method::Write(_) => Ok(false),
        Method::Fetch => Ok(false),
        Method::Copy { rest, .. } => match rest.join(rel) {
            Ok(_) => Ok(true),
            Err(JoinRefusal::Long) => Ok(false),
            Err(JoinRefusal::NoMemory) => Err(Memory),
        },
    }
}

/// The same for each of some nodes.
fn may_lend(method: &Method, lent: bool, nodes: &[Flat]) -> Result<bool, Memory>
    ensures { IfOk result (λ may. may ≡ may_lend method.now lent nodes.now) }
{
    for node in nodes {
        if !lends_at(method, lent, &node.rel)? {
            return Ok(false);
        }
    }
    Ok(true)
}

/// A make of the tree of these nodes on the part of a region.
fn make(
    alloc: Global,
    region: MemRegion,
    nodes: &[Flat],
    method: Method,
    loan: Option<ReadLoan<MemRegion>>,
) -> Result<Job<MemRegion>, Fail>
    ensures place { IfOk result (λ job. task_path (job_card job).task ≡ region_place region) }
{
    let lent = loan.is_some();
    if !Flat::are_small(nodes) || !are_placed(region.path(), nodes) {
        return Err(Fail::from(Memory));
    }
    if !are_right(&method, nodes) || !may_lend(&method, lent, nodes)? {
        return Err(Fail::from(Memory));
    }
    let path = region.path().copy()?;
    let tree = Tree::from_flat(alloc, nodes)?;
    let acts = plan(alloc, &tree, &method, lent)?;
    let task = Task::Make { path, stamp: 1 };
    let card = Card { job: 1, task };
    let part = Rough::new(region);
    Ok(Job::make(card, part, tree, method, acts, loan))
}

/// A job that wipes the part of a region.
fn wipe(region: MemRegion) -> Result<Job<MemRegion>, Fail>
    ensures place { IfOk result (λ job. task_path (job_card job).task ≡ region_place region) }
{
    let path = region.path().copy()?;
    let task = Task::Wipe { path };
    let card = Card { job: 1, task };
    Ok(Job::wipe(card, Rough::new(region)))
}

/// Puts a file, where the joined names are a path.
fn put(region: &mut MemRegion, rel: &Rel, bytes: &[u8]) -> Did
    ensures { region_place region.new ≡ region_place region.old }
{
    if region.path().can_join(rel) {
        return region.put_file(rel, false, bytes);
    }
    Did::NoMemory
}

/// Puts files, each at its rel and of its bytes.
fn put_all(alloc: Global, region: &mut MemRegion, files: &[(&[u8], &[u8])]) -> Result<(), Fail>
    ensures { region_place region.new ≡ region_place region.old }
{
    for &(rel, bytes) in files {
        let rel = Rel::read(alloc, rel)?;
        if put(region, &rel, bytes) != Did::Done {
            return Err(Fail::from(Memory));
        }
    }
    Ok(())
}

/// A disk that has these files at rels below a path, and nothing else.
fn disk_with(alloc: Global, path: &Path, files: &[(&[u8], &[u8])]) -> Result<MemDisk, Fail> {
    let mut disk = MemDisk::new(alloc);
    let mut region = disk.take(path)?;
    let all = put_all(alloc, &mut region, files);
    disk.give(region);
    all?;
    Ok(disk)
}

/// A part that is lent for these nodes: it has these files.
fn lent(
    alloc: Global,
    nodes: &[Flat],
    files: &[(&[u8], &[u8])],
) -> Result<ReadLoan<MemRegion>, Fail> {
    let path = Path::read(alloc, b"in")?;
    let mut disk = disk_with(alloc, &path, files)?;
    if disk.lent(&path) || !Flat::are_small(nodes) {
        return Err(Fail::from(Memory));
    }
    let tree = Tree::from_flat(alloc, nodes)?;
    let region = disk.take(&path)?;
    Ok(ReadLoan::of(region, tree))
}

/// A copy of what another row has at `x`.
fn copied(alloc: Global, origin: Origin) -> Result<Method, Fail> {
    Ok(Method::Copy {
        source: Path::read(alloc, b"in")?,
        rest: Rel::read(alloc, b"x")?,
        stamp: 1,
        origin,
    })
}

/// Makes the next step of a job, if it has one, and tells the device that the job named: `D` the disk, `S` the store.
fn step(job: &mut Job<MemRegion>, store: &mut MemStore, text: &mut Vec<u8>) -> Result<(), Memory>
    ensures card { job_card job.new ≡ job_card job.old }
{
    match job.next() {
        Next::Disk => add(text, b"D")?,
        Next::Store => add(text, b"S")?,
        Next::Nothing => {}
    }
    if !job.has_ended() {
        job.step(store);
    }
    Ok(())
}

/// Makes the call of the next step fail.
fn arm(job: &mut Job<MemRegion>, store: &mut MemStore)
    ensures card { job_card job.new ≡ job_card job.old }
{
    match job.next() {
        Next::Store => store.arm(),
        _ => job.arm(),
    }
}

/// Makes at most so many steps of a job.
fn run(
    job: &mut Job<MemRegion>,
    store: &mut MemStore,
    steps: usize,
    armed: Armed,
    text: &mut Vec<u8>,
) -> Result<(), Memory>
    ensures card { job_card job.new ≡ job_card job.old }
{
    for at in 0..steps {
        if armed == Armed::Step(at) {
            arm(job, store);
        }
        step(job, store, text)?;
    }
    Ok(())
}

/// Adds bytes to a text.
fn add(text: &mut Vec<u8>, bytes: &[u8]) -> Result<(), Memory> {
    text.extend_from_slice(bytes)?;
    Ok(())
}

/// Adds a blank, and the last digit of a number.
fn add_count(text: &mut Vec<u8>, count: u64) -> Result<(), Memory> {
    add(text, &[b' ', b'0' + (count % 10) as u8])
}

/// Adds a fault: its device, and the counts around it.
fn add_fault(text: &mut Vec<u8>, note: &FaultNote) -> Result<(), Memory> {
    let device: &[u8] = match note.device {
        Device::Disk => b"disk",
        Device::Store => b"store",
        Device::Keeper => b"keeper",
    };
    add(text, b" fault of the ")?;
    add(text, device)?;
    add_count(text, note.before)?;
    add_count(text, note.after)
}

/// Adds how a job ended.
fn add_outcome(text: &mut Vec<u8>, outcome: &Outcome) -> Result<(), Memory> {
    match outcome {
        Outcome::Made => add(text, b" made"),
        Outcome::Wiped => add(text, b" wiped"),
        Outcome::Missing(_) => add(text, b" missing"),
        Outcome::Corrupt { .. } => add(text, b" corrupt"),
        Outcome::Fault(note) => add_fault(text, note),
        Outcome::NoMemory => add(text, b" no memory"),
    }
}

/// The region of a part, whose state is added.
fn add_part(text: &mut Vec<u8>, part: Part<MemRegion>) -> Result<MemRegion, Memory>
    ensures { IfOk result (λ region. region ≡ state_region part) }
{
    match part {
        Part::Rough(part) => {
            add(text, b" rough")?;
            Ok(part.into_region())
        }
        Part::Settled(part) => {
            add(text, b" settled")?;
            Ok(part.into_region())
        }
        Part::Bare(part) => {
            add(text, b" bare")?;
            Ok(part.into_region())
        }
    }
}

/// Adds how many calls a part that is lent had, if one is.
fn add_loan(text: &mut Vec<u8>, loan: Option<ReadLoan<MemRegion>>) -> Result<(), Memory> {
    match loan {
        Some(loan) => add_count(text, loan.into_region().calls()),
        None => add(text, b" -"),
    }
}

/// Adds a node: its rel, what it is, and the last digit of its size.
fn add_node(text: &mut Vec<u8>, node: &Flat) -> Result<(), Memory> {
    add(text, b" ")?;
    add(text, node.rel.write()?.as_slice())?;
    match &node.what {
        What::File { digest, exec } => {
            let kind = if *exec { b'!' } else { b'=' };
            add(text, &[kind, b'0' + (digest.size % 10) as u8])
        }
        What::Dir => add(text, b"/"),
        What::Link(target) => {
            add(text, b">")?;
            add(text, target.bytes())
        }
    }
}

/// Adds the nodes that a disk has at and below a path.
fn add_nodes(text: &mut Vec<u8>, disk: &MemDisk, path: &Path) -> Result<(), Fail> {
    if disk.lent(path) {
        return Err(Fail::from(Memory));
    }
    add(text, b":")?;
    let nodes = disk.nodes(path)?;
    for node in nodes.as_slice() {
        add_node(text, node)?;
    }
    Ok(())
}

/// Adds what an ended job left: how it ended, the state of its part, the calls on the part and on the one that is lent, how often the
/// store was asked, and what the disk has there.
fn add_done(
    text: &mut Vec<u8>,
    done: Done<MemRegion>,
    store: &MemStore,
    disk: &mut MemDisk,
) -> Result<(), Fail>
    requires { list_any (same_names (region_place (state_region done.part))) (disk_loans disk.old) ≡ true }
{
    let Done {
        card,
        outcome,
        part,
        loan,
    } = done;
    add_outcome(text, &outcome)?;
    let region = add_part(text, part)?;
    add_count(text, region.calls())?;
    add_loan(text, loan)?;
    add_count(text, store.asks())?;
    disk.give(region);
    match &card.task {
        Task::Make { path, .. } => add_nodes(text, disk, path),
        Task::Wipe { path } => add_nodes(text, disk, path),
    }
}

/// A job run to its end, as a text: the device of each step, and what the job left.
fn told(
    alloc: Global,
    mut job: Job<MemRegion>,
    store: &mut MemStore,
    disk: &mut MemDisk,
    armed: Armed,
) -> Result<Vec<u8>, Fail>
    requires out { list_any (same_names (task_path (job_card job).task)) (disk_loans disk.old) ≡ true }
{
    let mut text = Vec::new(alloc);
    run(&mut job, store, 40, armed, &mut text)?;
    if !job.has_ended() {
        return Err(Fail::from(Memory));
    }
    add_done(&mut text, job.finish(), store, disk)?;
    Ok(text)
}

/// The same of a job whose steps are made in one call: what it left.
fn told_at_once(
    alloc: Global,
    job: Job<MemRegion>,
    store: &mut MemStore,
    disk: &mut MemDisk,
) -> Result<Vec<u8>, Fail>
    requires out { list_any (same_names (task_path (job_card job).task)) (disk_loans disk.old) ≡ true }
{
    let mut text = Vec::new(alloc);
    add_done(&mut text, work_off(job, store), store, disk)?;
    Ok(text)
}

/// A job that is given up behind so many steps: their devices, the part that came back and the calls on both.
fn told_given_up(
    alloc: Global,
    mut job: Job<MemRegion>,
    store: &mut MemStore,
    steps: usize,
) -> Result<Vec<u8>, Fail> {
    let mut text = Vec::new(alloc);
    run(&mut job, store, steps, Armed::Nothing, &mut text)?;
    let (part, loan) = job.abort();
    let region = add_part(&mut text, part)?;
    add_count(&mut text, region.calls())?;
    add_loan(&mut text, loan)?;
    Ok(text)
}

/// A disk that has a file of one byte at the path of each job.
fn disk_before(alloc: Global) -> Result<(MemDisk, Path), Fail> {
    let path = Path::read(alloc, b"out/a")?;
    let disk = disk_with(alloc, &path, &[(b".", b"o")])?;
    Ok((disk, path))
}

/// A make of these nodes where a file of one byte stands, run to its end.
fn told_make(
    alloc: Global,
    nodes: &[Flat],
    method: Method,
    loan: Option<ReadLoan<MemRegion>>,
    store: &mut MemStore,
    armed: Armed,
) -> Result<Vec<u8>, Fail> {
    let (mut disk, path) = disk_before(alloc)?;
    if disk.lent(&path) {
        return Err(Fail::from(Memory));
    }
    let region = disk.take(&path)?;
    let job = make(alloc, region, nodes, method, loan)?;
    told(alloc, job, store, &mut disk, armed)
}

/// A make of one file whose bytes come so, run to its end.
fn told_file(
    alloc: Global,
    bytes: &[u8],
    method: Method,
    store: &mut MemStore,
    armed: Armed,
) -> Result<Vec<u8>, Fail> {
    let nodes = one(alloc, bytes)?;
    told_make(alloc, nodes.as_slice(), method, None, store, armed)
}

/// A row that holds these bytes, or whose bytes the store has.
fn row_of(alloc: Global, bytes: &[u8], held: bool) -> Result<Method, Memory> {
    if held {
        let bytes = Vec::from_slice(alloc, bytes)?;
        return Ok(Method::Write(Items::of(bytes)));
    }
    Ok(Method::Fetch)
}

#[test]
fn a_file_comes_in_pieces_from_its_row_or_the_store(rt: HostRuntime) -> Result<(), Fail> {
    let alloc = rt.alloc();
    let cases: [(bool, usize, Armed, &[u8]); 11] = [
        (true, 3, Armed::Nothing, b"DDD made settled 3 - 0: .=3"),
        (true, 65_536, Armed::Nothing, b"DDD made settled 3 - 0: .=6"),
        (
            true,
            65_537,
            Armed::Nothing,
            b"DDDD made settled 4 - 0: .=7",
        ),
        (
            false,
            65_536,
            Armed::Nothing,
            b"DSDD made settled 3 - 1: .=6",
        ),
        (
            false,
            65_537,
            Armed::Nothing,
            b"DSDSDD made settled 4 - 1: .=7",
        ),
        (
            false,
            65_537,
            Armed::Step(1),
            b"DS fault of the store 0 1 rough 1 - 1:",
        ),
        (
            false,
            65_537,
            Armed::Step(3),
            b"DSDS fault of the store 0 1 rough 2 - 1: .=6",
        ),
        (
            false,
            65_537,
            Armed::Step(0),
            b"D fault of the disk 0 1 rough 1 - 0: .=1",
        ),
        (
            true,
            3,
            Armed::Step(1),
            b"DD fault of the disk 0 1 rough 2 - 0:",
        ),
        (
            true,
            65_537,
            Armed::Step(2),
            b"DDD fault of the disk 0 1 rough 3 - 0: .=6",
        ),
        (
            true,
            3,
            Armed::Step(2),
            b"DDD fault of the disk 0 1 rough 3 - 0: .=3",
        ),
    ];
    for (held, many, armed, want) in cases {
        let bytes = blob(alloc, many, b'a')?;
        let method = row_of(alloc, bytes.as_slice(), held)?;
        let mut store = MemStore::new(alloc);
        store.put(Vec::from_slice(alloc, bytes.as_slice())?)?;
        let text = told_file(alloc, bytes.as_slice(), method, &mut store, armed)?;
        assert_eq!(rt; text.as_slice(), want);
    }
    Ok(())
}

#[test]
fn a_store_may_lack_a_file_or_lie(rt: HostRuntime) -> Result<(), Fail> {
    let alloc = rt.alloc();
    let mut store = MemStore::new(alloc);
    let bytes = blob(alloc, 65_537, b'a')?;
    store.lie(Digest::of(bytes.as_slice()), blob(alloc, 65_537, b'b')?)?;
    store.lie(Digest::of(b"abc"), Vec::from_slice(alloc, b"abd")?)?;
    store.lie(Digest::of(b"short"), Vec::from_slice(alloc, b"shor")?)?;
    store.lie(Digest::of(b"long"), Vec::from_slice(alloc, b"longer")?)?;
    let cases: [(&[u8], &[u8]); 6] = [
        (b"", b"DDD made settled 3 - 0: .=0"),
        (b"gone", b"DS missing rough 1 - 1:"),
        (b"abc", b"DS corrupt rough 1 - 2:"),
        (b"short", b"DS corrupt rough 1 - 3:"),
        (b"long", b"DS corrupt rough 1 - 4:"),
        (bytes.as_slice(), b"DSDS corrupt rough 2 - 5: .=6"),
    ];
    for (bytes, want) in cases {
        let text = told_file(alloc, bytes, Method::Fetch, &mut store, Armed::Nothing)?;
        assert_eq!(rt; text.as_slice(), want);
    }
    Ok(())
}

/// A directory with all kinds of nodes.
fn all_kinds(alloc: Global) -> Result<Vec<Flat>, Fail> {
    let mut nodes = Vec::new(alloc);
    nodes.push(node(alloc, b".", What::Dir)?)?;
    nodes.push(node(alloc, b"bin", What::Dir)?)?;
    nodes.push(node(alloc, b"bin/run", file(b"run!", true))?)?;
    nodes.push(node(alloc, b"empty", file(b"", false))?)?;
    nodes.push(node(alloc, b"lib", file(b"abc", false))?)?;
    nodes.push(node(alloc, b"to", What::Link(Target::read(alloc, b"bin/run")?))?)?;
    Ok(nodes)
}

#[test]
fn a_tree_is_put_in_a_call_for_each_act_and_reading(rt: HostRuntime) -> Result<(), Fail> {
    let alloc = rt.alloc();
    let mut store = MemStore::new(alloc);
    store.put(Vec::from_slice(alloc, b"run!")?)?;
    store.put(Vec::from_slice(alloc, b"abc")?)?;
    let nodes = all_kinds(alloc)?;
    let text = told_make(
        alloc,
        nodes.as_slice(),
        Method::Fetch,
        None,
        &mut store,
        Armed::Nothing,
    )?;
    assert_eq!(rt;
        text.as_slice(),
        b"DDDSDDSDDD made settled 8 - 2: ./ bin/ bin/run!4 empty=0 lib=3 to>bin/run".as_slice()
    );
    Ok(())
}

/// A make of one file, which is copied from what a lent part has at `x`; there it has these bytes at a rel.
fn told_copy(
    alloc: Global,
    bytes: &[u8],
    rel: &[u8],
    found: &[u8],
    origin: Origin,
    armed: Armed,
) -> Result<Vec<u8>, Fail> {
    let mut store = MemStore::new(alloc);
    store.put(Vec::from_slice(alloc, bytes)?)?;
    let nodes = one(alloc, bytes)?;
    let loan = lent(alloc, nodes.as_slice(), &[(rel, found)])?;
    let method = copied(alloc, origin)?;
    told_make(
        alloc,
        nodes.as_slice(),
        method,
        Some(loan),
        &mut store,
        armed,
    )
}

#[test]
fn a_lent_file_is_read_or_begun_again(rt: HostRuntime) -> Result<(), Fail> {
    let alloc = rt.alloc();
    let (large, other) = (blob(alloc, 65_537, b'a')?, blob(alloc, 65_537, b'b')?);
    let (large, other) = (large.as_slice(), other.as_slice());
    let cases: [(&[u8], &[u8], &[u8], Armed, &[u8]); 6] = [
        (
            b"abc",
            b"x",
            b"abc",
            Armed::Nothing,
            b"DDDD made settled 3 1 0: .=3",
        ),
        (
            b"abc",
            b"x",
            b"abd",
            Armed::Nothing,
            b"DDSDD made settled 3 1 1: .=3",
        ),
        (
            b"abc",
            b"y",
            b"abc",
            Armed::Nothing,
            b"DDSDD made settled 3 1 1: .=3",
        ),
        (
            b"abc",
            b"x",
            b"abc",
            Armed::Step(1),
            b"DD fault of the disk 0 1 rough 1 1 0:",
        ),
        (
            large,
            b"x",
            large,
            Armed::Step(3),
            b"DDDD fault of the disk 0 1 rough 2 2 0: .=6",
        ),
        (
            large,
            b"x",
            other,
            Armed::Nothing,
            b"DDDDSDSDD made settled 5 2 1: .=7",
        ),
    ];
    for (bytes, rel, found, armed, want) in cases {
        let text = told_copy(alloc, bytes, rel, found, Origin::Store, armed)?;
        assert_eq!(rt; text.as_slice(), want);
    }
    let held = Items::of(Vec::from_slice(alloc, b"abc")?);
    let origin = Origin::Inline(held);
    let text = told_copy(alloc, b"abc", b"x", b"abd", origin, Armed::Nothing)?;
    assert_eq!(rt; text.as_slice(), b"DDDD made settled 3 1 0: .=3".as_slice());
    Ok(())
}

#[test]
fn a_lent_part_may_have_some_files(rt: HostRuntime) -> Result<(), Fail> {
    let alloc = rt.alloc();
    let mut store = MemStore::new(alloc);
    store.put(Vec::from_slice(alloc, b"abc")?)?;
    let mut nodes = Vec::new(alloc);
    nodes.push(node(alloc, b".", What::Dir)?)?;
    nodes.push(node(alloc, b"gone", file(b"abc", false))?)?;
    nodes.push(node(alloc, b"kept", file(b"abc", false))?)?;
    nodes.push(node(alloc, b"other", file(b"abc", false))?)?;
    let files: [(&[u8], &[u8]); 2] = [(b"x/kept", b"abc"), (b"x/other", b"abd")];
    let loan = lent(alloc, nodes.as_slice(), &files)?;
    let text = told_make(
        alloc,
        nodes.as_slice(),
        copied(alloc, Origin::Store)?,
        Some(loan),
        &mut store,
        Armed::Nothing,
    )?;
    assert_eq!(rt;
        text.as_slice(),
        b"DDDSDDDDSDD made settled 6 3 2: ./ gone=3 kept=3 other=3".as_slice()
    );
    Ok(())
}

/// A job that wipes where a file of one byte stands, run to its end.
fn told_wipe(alloc: Global, armed: Armed) -> Result<Vec<u8>, Fail> {
    let (mut disk, path) = disk_before(alloc)?;
    if disk.lent(&path) {
        return Err(Fail::from(Memory));
    }
    let region = disk.take(&path)?;
    let job = wipe(region)?;
    told(alloc, job, &mut MemStore::new(alloc), &mut disk, armed)
}

#[test]
fn a_wipe_makes_two_calls(rt: HostRuntime) -> Result<(), Fail> {
    let alloc = rt.alloc();
    let cases: [(Armed, &[u8]); 3] = [
        (Armed::Nothing, b"DD wiped bare 2 - 0:"),
        (Armed::Step(0), b"D fault of the disk 0 1 rough 1 - 0: .=1"),
        (Armed::Step(1), b"DD fault of the disk 0 1 rough 2 - 0:"),
    ];
    for (armed, want) in cases {
        assert_eq!(rt; told_wipe(alloc, armed)?.as_slice(), want);
    }
    Ok(())
}

/// The tree of a program: 17 nodes, 12 of them files.
fn program(alloc: Global) -> Result<Vec<Flat>, Fail> {
    let mut nodes = Vec::new(alloc);
    nodes.push(node(alloc, b".", What::Dir)?)?;
    nodes.push(node(alloc, b"bin", What::Dir)?)?;
    nodes.push(node(alloc, b"bin/app", file(b"abc", true))?)?;
    nodes.push(node(alloc, b"bin/tool", file(b"a", true))?)?;
    nodes.push(node(alloc, b"lib", What::Dir)?)?;
    let library = Target::read(alloc, b"libapp.so.1")?;
    nodes.push(node(alloc, b"lib/libapp.so", What::Link(library))?)?;
    nodes.push(node(alloc, b"lib/libapp.so.1", file(b"b", false))?)?;
    nodes.push(node(alloc, b"res", What::Dir)?)?;
    let rels: [&[u8]; 9] = [
        b"res/r0", b"res/r1", b"res/r2", b"res/r3", b"res/r4", b"res/r5", b"res/r6", b"res/r7",
        b"res/r8",
    ];
    for rel in rels {
        nodes.push(node(alloc, rel, file(b"c", false))?)?;
    }
    Ok(nodes)
}

/// A make of that tree, run to its end or to the call that fails.
fn told_program(alloc: Global, armed: Armed) -> Result<Vec<u8>, Fail> {
    let mut store = MemStore::new(alloc);
    let blobs: [&[u8]; 4] = [b"abc", b"a", b"b", b"c"];
    for bytes in blobs {
        store.put(Vec::from_slice(alloc, bytes)?)?;
    }
    let nodes = program(alloc)?;
    told_make(
        alloc,
        nodes.as_slice(),
        Method::Fetch,
        None,
        &mut store,
        armed,
    )
}

#[test]
fn each_call_of_a_make_may_fail(rt: HostRuntime) -> Result<(), Fail> {
    let alloc = rt.alloc();
    let calls = b"DDDSDSDDDSDDSDSDSDSDSDSDSDSDSDD";
    let text = told_program(alloc, Armed::Nothing)?;
    assert!(rt;
        text.as_slice()
            .starts_with(b"DDDSDSDDDSDDSDSDSDSDSDSDSDSDSDD made settled 9 - 2: ./ ")
    );
    for (at, &call) in calls.iter().enumerate() {
        let text = told_program(alloc, Armed::Step(at))?;
        let mut want = Vec::new(alloc);
        for &one in calls.iter().take(at + 1) {
            want.push(one)?;
        }
        let device: &[u8] = if call == b'S' { b"store" } else { b"disk" };
        add(&mut want, b" fault of the ")?;
        add(&mut want, device)?;
        add(&mut want, b" 0 1 rough ")?;
        assert!(rt; text.as_slice().starts_with(want.as_slice()));
    }
    Ok(())
}

#[test]
fn a_job_is_given_up_or_worked_off(rt: HostRuntime) -> Result<(), Fail> {
    let alloc = rt.alloc();
    let mut store = MemStore::new(alloc);
    store.put(Vec::from_slice(alloc, b"abc")?)?;
    let nodes = one(alloc, b"abc")?;
    let path = Path::read(alloc, b"out/a")?;
    let mut disk = MemDisk::new(alloc);
    let region = disk.take(&path)?;
    let loan = lent(alloc, nodes.as_slice(), &[(b"x", b"abd")])?;
    let method = copied(alloc, Origin::Store)?;
    let job = make(alloc, region, nodes.as_slice(), method, Some(loan))?;
    let text = told_given_up(alloc, job, &mut store, 4)?;
    assert_eq!(rt; text.as_slice(), b"DDSD rough 2 1".as_slice());
    let mut disk = MemDisk::new(alloc);
    let region = disk.take(&path)?;
    let loan = lent(alloc, nodes.as_slice(), &[(b"x", b"abd")])?;
    let method = copied(alloc, Origin::Store)?;
    let job = make(alloc, region, nodes.as_slice(), method, Some(loan))?;
    let text = told_at_once(alloc, job, &mut store, &mut disk)?;
    assert_eq!(rt; text.as_slice(), b" made settled 3 1 2: .=3".as_slice());
    Ok(())
}

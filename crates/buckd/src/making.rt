// How a row is made: the acts of its plan, one after the other, up to the first file that has no right bytes.
ghost use Rattle.mat_tree.specs.Trees.{is_placed};
ghost use Rattle.std.specs.Prelude.{◌≡◌, ◌++◌, if◌then◌else◌, [], ℕ, List, Some, false, true, IfOk, OnOk};
ghost use Rattle.std.specs.List.{list_all};
ghost use Rattle.std.specs.Option.{is_some};
ghost use Rattle.mat_io.specs.Causes.{risen};
ghost use Rattle.mat_path.specs.Names.{is_path, is_prefix};
ghost use Rattle.mat_tree.specs.Parts.{HasTree, below, file, with_node};
ghost use Rattle.mat_model.specs.declared.entries.Outcome.TheVariants as outcome;
ghost use Rattle.fetch_port.specs.Memory.{blobs_of, store_asks};
ghost use Rattle.region_port.specs.Calls.{with_path};
ghost use Rattle.region_port.specs.Disks.{disk_content, disk_loans, disk_rough};
ghost use Rattle.region_port.specs.Memory.{part_of, rough_of};
ghost use Rattle.write_plan.specs.Carried.{carry, carry_one};
ghost use Rattle.buckd.specs.Brought.{Brings};
ghost use Rattle.buckd.specs.Making.{IsAtHand, act_failure, acts_done, asked_by, asks_after, bytes_or_none, fetch_failure, file_failure, fits, given, held_bytes, is_store, is_supplied, is_supply, is_write, left_by, make_acts, no_nodes, outcome_of, rough_after, rough_by, shown_by, supplied, with_nodes};

use fetch_port::{Fetched, Fetcher, MemStore};
use mat_digest::Digest;
use mat_io::Did;
use mat_model::Outcome;
use mat_path::{Memory, Path, Rel};
use mat_tree::Tree;
use region_port::{Disk, MemDisk, MemRegion, Region};
use std::alloc::Global;
use write_plan::{Act, Method, Supply, plan};

/// The bytes that a store gave for a digest, or how they failed.
enum Brought {
    Bytes(Vec<u8>),
    Failure(Outcome),
}

/// That a call on a region did its work. A region in memory fails only where it was armed, and none is here.
fn done(did: Did) -> Result<(), Memory>
    ensures { OnOk result (did ≡ Did.Done) }
{
    match did {
        Did::Done => Ok(()),
        Did::Failed => Err(Memory),
        Did::NoMemory => Err(Memory),
    }
}

/// Bytes that a store gave for a digest, or that they have another one.
fn checked(wanted: Digest, bytes: Vec<u8>) -> Brought
    ensures { Brings (Some bytes.items) wanted result }
{
    let found = Digest::of(bytes.as_slice());
    if found == wanted {
        return Brought::Bytes(bytes);
    }
    Brought::Failure(Outcome::Corrupt { wanted, found })
}

/// The bytes that a store gives for a digest. A store in memory fails only where it was armed, and none is here.
fn fetch(store: &mut MemStore, wanted: Digest) -> Result<Brought, Memory>
    ensures brings { IfOk result (λ brought. Brings (given (blobs_of store.old) wanted) wanted brought) }
    ensures blobs { blobs_of store.new ≡ blobs_of store.old }
    ensures asks { store_asks store.new ≡ risen (store_asks store.old) }
{
    match store.fetch(&wanted) {
        Fetched::Bytes(bytes) => Ok(checked(wanted, bytes.into_vec())),
        Fetched::Absent => Ok(Brought::Failure(Outcome::Missing(wanted))),
        Fetched::Failed => Err(Memory),
        Fetched::NoMemory => Err(Memory),
    }
}

/// Puts the file of a digest whose bytes the store has.
fn put_fetched(
    region: &mut MemRegion,
    store: &mut MemStore,
    rel: &Rel,
    digest: Digest,
    exec: bool,
) -> Result<Option<Outcome>, Memory>
    requires { is_path (region.old.place ++ rel.now) ≡ true }
    ensures place { region.new.place ≡ region.old.place }
    ensures blobs { blobs_of store.new ≡ blobs_of store.old }
    ensures asks { OnOk result (store_asks store.new ≡ risen (store_asks store.old)) }
    ensures failure { IfOk result (λ failure. failure ≡ fetch_failure digest (given (blobs_of store.old) digest)) }
    ensures part { IfOk result (λ failure. part_of region.new ≡ (if is_some failure then part_of region.old
        else with_node rel.now (file (bytes_or_none (given (blobs_of store.old) digest)) exec) (part_of region.old))) }
    ensures rough { IfOk result (λ failure. rough_of region.new ≡ (if is_some failure then rough_of region.old
        else with_path region.old.place (rough_of region.old))) }
{
    match fetch(store, digest)? {
        Brought::Bytes(bytes) => {
            done(region.put_file(rel, exec, bytes.as_slice()))?;
            Ok(None)
        }
        Brought::Failure(failure) => Ok(Some(failure)),
    }
}

/// The bytes that a row holds.
fn held_bytes(method: &Method) -> &[u8]
    ensures { result.now ≡ held_bytes method.now }
{
    match method {
        Method::Write(bytes) => bytes.as_slice(),
        Method::Fetch => b"",
        Method::Copy { .. } => b"",
    }
}

/// Puts a file, from where its bytes come.
fn put_supplied(
    region: &mut MemRegion,
    store: &mut MemStore,
    method: &Method,
    rel: &Rel,
    digest: Digest,
    exec: bool,
    from: &Supply,
) -> Result<Option<Outcome>, Memory>
    requires path { is_path (region.old.place ++ rel.now) ≡ true }
    requires supplied { is_supply method.now digest from.now ≡ true }
    ensures place { region.new.place ≡ region.old.place }
    ensures blobs { blobs_of store.new ≡ blobs_of store.old }
    ensures asks { OnOk result (store_asks store.new ≡ (if is_store from.now then risen (store_asks store.old) else (store_asks store.old))) }
    ensures failure { IfOk result (λ failure. failure ≡ file_failure (blobs_of store.old) digest from.now) }
    ensures part { IfOk result (λ failure. part_of region.new ≡ (if is_some failure then part_of region.old
        else with_node rel.now (file (supplied (blobs_of store.old) method.now digest) exec) (part_of region.old))) }
    ensures rough { IfOk result (λ failure. rough_of region.new ≡ (if is_some failure then rough_of region.old
        else with_path region.old.place (rough_of region.old))) }
{
    match from {
        Supply::Empty => done(region.put_file(rel, exec, b""))?,
        Supply::Held => done(region.put_file(rel, exec, held_bytes(method)))?,
        Supply::Store => return put_fetched(region, store, rel, digest, exec),
        Supply::Loan(_) => unreachable!(),
    }
    Ok(None)
}

/// Carries out an act, and says how it failed, if it did.
fn put_act(
    region: &mut MemRegion,
    store: &mut MemStore,
    method: &Method,
    act: &Act,
) -> Result<Option<Outcome>, Memory>
    requires fits { fits region.old.place act.now ≡ true }
    requires supplied { is_supplied method.now act.now ≡ true }
    ensures place { region.new.place ≡ region.old.place }
    ensures blobs { blobs_of store.new ≡ blobs_of store.old }
    ensures asks { OnOk result (store_asks store.new ≡ asked_by act.now (store_asks store.old)) }
    ensures failure { IfOk result (λ failure. failure ≡ act_failure (blobs_of store.old) act.now) }
    ensures part { IfOk result (λ failure. part_of region.new ≡ (if is_some failure then part_of region.old
        else carry_one (supplied (blobs_of store.old) method.now) act.now (part_of region.old))) }
    ensures rough { IfOk result (λ failure. rough_of region.new ≡ (if is_some failure then rough_of region.old
        else rough_by region.old.place act.now (rough_of region.old))) }
{
    match act {
        Act::Wipe => done(region.wipe())?,
        Act::Dir(rel) => done(region.put_dir(rel))?,
        Act::Link(rel, target) => done(region.put_link(rel, target))?,
        Act::File {
            rel,
            digest,
            exec,
            from,
        } => return put_supplied(region, store, method, rel, *digest, *exec, from),
        Act::Sync => done(region.sync())?,
    }
    Ok(None)
}

/// Carries out acts up to the first that fails.
fn carry_out(
    region: &mut MemRegion,
    store: &mut MemStore,
    method: &Method,
    acts: &[Act],
) -> Result<Outcome, Memory>
    requires fits { list_all (fits region.old.place) acts.now ≡ true }
    requires supplied { list_all (is_supplied method.now) acts.now ≡ true }
    ensures place { region.new.place ≡ region.old.place }
    ensures blobs { blobs_of store.new ≡ blobs_of store.old }
    ensures asks { OnOk result (store_asks store.new ≡ asks_after (blobs_of store.old) acts.now (store_asks store.old)) }
    ensures outcome { IfOk result (λ outcome. outcome ≡ outcome_of (blobs_of store.old) acts.now) }
    ensures part { OnOk result (part_of region.new ≡ carry (supplied (blobs_of store.old) method.now)
        (acts_done (blobs_of store.old) acts.now) (part_of region.old)) }
    ensures rough { OnOk result (rough_of region.new ≡ rough_after region.old.place
        (acts_done (blobs_of store.old) acts.now) (rough_of region.old)) }
{
    for act in acts {
        if let Some(failure) = put_act(region, store, method, act)? {
            return Ok(failure);
        }
    }
    Ok(Outcome::Made)
}

/// Makes the disk have a tree at a path, and nothing else at or below it, with the bytes of a row or of the store. Where
/// a file has no right bytes, what was put before stays.
pub fn make_on_disk(
    alloc: Global,
    disk: &mut MemDisk,
    store: &mut MemStore,
    path: &Path,
    tree: &Tree,
    method: &Method,
) -> Result<Outcome, Memory>
    requires free { disk_loans disk.old ≡ [] }
    requires places { list_all (is_placed path.now) tree.now ≡ true }
    requires bytes { IsAtHand method.now tree.now }
    ensures free { disk_loans disk.new ≡ [] }
    ensures blobs { blobs_of store.new ≡ blobs_of store.old }
    ensures asks { OnOk result (store_asks store.new ≡ asks_after (blobs_of store.old) (make_acts (is_write method.now) tree.now) (store_asks store.old)) }
    ensures outcome { IfOk result (λ outcome. outcome ≡ outcome_of (blobs_of store.old) (make_acts (is_write method.now) tree.now)) }
    ensures shown { OnOk result (shown_by (disk_content disk.new) ≡ with_nodes path.now
        (left_by (acts_done (blobs_of store.old) (make_acts (is_write method.now) tree.now)) no_nodes) (shown_by (disk_content disk.old))) }
    ensures holds { IfOk result (λ ended. ended ≡ outcome.Made → HasTree (below path.now (disk_content disk.new)) tree.now) }
    ensures synced { IfOk result (λ ended. ended ≡ outcome.Made → (place : List (List ℕ)) → is_prefix path.now place ≡ true → disk_rough disk.new place ≡ false) }
    ensures elsewhere { OnOk result ((place : List (List ℕ)) → is_prefix path.now place ≡ false → disk_rough disk.new place ≡ disk_rough disk.old place) }
{
    let acts = plan(alloc, tree, method, false)?;
    let mut region = disk.take(path)?;
    let outcome = carry_out(&mut region, store, method, acts.as_slice());
    disk.give(region);
    outcome
}

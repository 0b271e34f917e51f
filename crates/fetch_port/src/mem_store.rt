// A store in memory.
ghost use Rattle.std.specs.Prelude.{◌≡◌, ◌+◌, ◌^◌, ℕ, true, false, Some, None, IfOk, IfErr, OnOk, OnErr, take, drop, length};
ghost use Rattle.std.specs.Ordering.{is_eq};
ghost use Rattle.std.specs.BTreeMap.{get, insert_entry};
ghost use Rattle.mat_digest.specs.Digests.{digest_of};
ghost use Rattle.mat_digest.specs.declared.digest.Digest.{Digest as TheDigest};
ghost use Rattle.mat_io.specs.Causes.{HasCause, faults_after, risen};
ghost use Rattle.fetch_port.specs.Fetches.{Fetches, FetchesPiece, asks_after, fetch_failed, held_at};
ghost use Rattle.fetch_port.specs.Keys.{key_cmp, key_of};
ghost use Rattle.mat_io.specs.Watches.{after_call};

use crate::fetched::Fetched;
use crate::key::Key;
use crate::port::Fetcher;
use mat_digest::Digest;
use mat_io::Arm;
use mat_path::{Items, Memory};
use std::alloc::Global;
use std::collections::BTreeMap;

/// A store in memory. It fails only where it was armed.
#[derive(Drop)]
pub struct MemStore {
    blobs: BTreeMap<Key, Items<u8>>,
    asks: u64,
    faults: u64,
    calls: u64,
    armed: bool,
    alloc: Global,
}

impl MemStore {
    ghost use Rattle.fetch_port.specs.Memory.{HasPut, IsFresh, IsUncalled, blobs_of, is_store_armed, store_asks, store_calls, store_faults, store_watch};

    /// A store that holds nothing. It takes no memory yet.
    pub fn new(alloc: Global) -> MemStore
        ensures holds { (digest : TheDigest) → blobs_of result digest ≡ None }
        ensures asks { store_asks result ≡ 0 }
        ensures faults { store_faults result ≡ 0 }
        ensures calls { store_calls result ≡ 0 }
        ensures armed { is_store_armed result ≡ false }
    {
        MemStore {
            blobs: BTreeMap::new(alloc),
            asks: 0,
            faults: 0,
            calls: 0,
            armed: false,
            alloc,
        }
    }

    /// Puts bytes under their digest, in the place of what is there. It is no call of the store, and want of memory changes nothing.
    pub fn put(&mut self, bytes: Vec<u8>) -> Result<Digest, Memory>
        ensures ok { IfOk result (λ digest. digest ≡ digest_of bytes.items) }
        ensures put { OnOk result (HasPut (digest_of bytes.items) bytes.items self.old self.new) }
        ensures err { OnErr result ((digest : TheDigest) → blobs_of self.new digest ≡ blobs_of self.old digest) }
        ensures calls { IsUncalled self.old self.new }
    {
        let digest = Digest::of(bytes.as_slice());
        self.lie(digest, bytes)?;
        Ok(digest)
    }

    /// Puts bytes under a digest that may not be theirs, in the place of what is there. It is no call of the store, and want of memory changes nothing.
    pub fn lie(&mut self, digest: Digest, bytes: Vec<u8>) -> Result<(), Memory>
        ensures put { OnOk result (HasPut digest bytes.items self.old self.new) }
        ensures err { OnErr result ((other : TheDigest) → blobs_of self.new other ≡ blobs_of self.old other) }
        ensures calls { IsUncalled self.old self.new }
    {
        match self.blobs.insert(Key::of(&digest), Items::of(bytes)) {
            Ok(_) => Ok(()),
            Err(_) => Err(Memory),
        }
    }

    /// A store of the same blobs, which has counted nothing and isn't armed.
    pub fn copy(&self) -> Result<MemStore, Memory>
        ensures holds { IfOk result (λ copy. blobs_of copy ≡ blobs_of self.now) }
        ensures fresh { IfOk result (λ copy. IsFresh copy) }
    {
        let blobs = copy_blobs(self.alloc, &self.blobs)?;
        Ok(MemStore {
            blobs,
            asks: 0,
            faults: 0,
            calls: 0,
            armed: false,
            alloc: self.alloc,
        })
    }

    // Counts a call, and a fetch where it begins one: whether the call fails, as one that was armed for.
    fn begin(&mut self, at: u64) -> bool
        ensures holds { blobs_of self.new ≡ blobs_of self.old }
        ensures asks { store_asks self.new ≡ asks_after at (store_asks self.old) }
        ensures watch { store_watch self.new ≡ after_call (store_watch self.old) }
        ensures faults { store_faults self.new ≡ faults_after result (store_faults self.old) }
        ensures cause { HasCause (store_faults self.old) (store_faults self.new) result }
        ensures fails { result ≡ is_store_armed self.old }
    {
        if at == 0 {
            self.asks = self.asks.saturating_add(1);
        }
        self.calls = self.calls.saturating_add(1);
        let failing = self.armed;
        self.armed = false;
        if failing {
            self.faults = self.faults.saturating_add(1);
        }
        failing
    }

    // A piece of the bytes under a digest.
    fn find_piece(&self, digest: &Digest, at: u64, most: u32) -> Fetched
        ensures found { FetchesPiece (held_at (Some (blobs_of self.now)) digest.now) at most result }
        ensures fits { fetch_failed result ≡ false }
    {
        match self.blobs.get(&Key::of(digest)) {
            Some(bytes) => piece(self.alloc, bytes.as_slice(), at, most),
            None => Fetched::Absent,
        }
    }

    // The bytes under a digest, up to one more than its size.
    fn find(&self, digest: &Digest) -> Fetched
        ensures found { Fetches (held_at (Some (blobs_of self.now)) digest.now) digest.now.size result }
        ensures fits { fetch_failed result ≡ false }
    {
        match self.blobs.get(&Key::of(digest)) {
            Some(bytes) => front(self.alloc, bytes.as_slice(), digest.size),
            None => Fetched::Absent,
        }
    }
}

// The same bytes once more.
fn copy_bytes(alloc: Global, bytes: &[u8]) -> Result<Items<u8>, Memory>
    ensures { IfOk result (λ copy. copy ≡ bytes.now) }
{
    let copy = Vec::from_slice(alloc, bytes)?;
    Ok(Items::of(copy))
}

// Puts a copy of bytes under a key.
fn insert_copy(
    alloc: Global,
    blobs: &mut BTreeMap<Key, Items<u8>>,
    key: Key,
    bytes: &Items<u8>,
) -> Result<(), Memory>
    ensures { OnOk result (blobs.new.entries ≡ insert_entry key_cmp blobs.old.entries key bytes.now) }
{
    let copy = copy_bytes(alloc, bytes.as_slice())?;
    blobs.insert(key, copy)?;
    Ok(())
}

// The same blobs once more.
fn copy_blobs(
    alloc: Global,
    blobs: &BTreeMap<Key, Items<u8>>,
) -> Result<BTreeMap<Key, Items<u8>>, Memory>
    ensures { IfOk result (λ copies. copies.entries ≡ blobs.now.entries) }
{
    let mut copies = BTreeMap::new(alloc);
    for (key, bytes) in blobs.iter() {
        insert_copy(alloc, &mut copies, *key, bytes)?;
    }
    Ok(copies)
}

// Bytes from an offset on.
fn behind(bytes: &[u8], at: u64) -> &[u8]
    ensures { result.now ≡ drop at bytes.now }
{
    if at < bytes.len() as u64 {
        &bytes[at as usize..]
    } else {
        &[]
    }
}

// A piece of bytes: those from an offset on, up to a number of them.
fn piece(alloc: Global, bytes: &[u8], at: u64, most: u32) -> Fetched
    ensures found { FetchesPiece (Some (Some bytes.now)) at most result }
    ensures fits { fetch_failed result ≡ false }
{
    let rest = behind(bytes, at);
    let count = rest.len().min(most as usize);
    match copy_bytes(alloc, &rest[..count]) {
        Ok(bytes) => Fetched::Bytes(bytes),
        Err(Memory) => Fetched::NoMemory,
    }
}

// The front of bytes, up to one more than a size.
fn front(alloc: Global, bytes: &[u8], size: u64) -> Fetched
    ensures found { Fetches (Some (Some bytes.now)) size result }
    ensures fits { fetch_failed result ≡ false }
{
    let most = if size < bytes.len() as u64 {
        size as usize + 1
    } else {
        bytes.len()
    };
    match copy_bytes(alloc, &bytes[..most]) {
        Ok(bytes) => Fetched::Bytes(bytes),
        Err(Memory) => Fetched::NoMemory,
    }
}

impl Fetcher for MemStore {
    ghost use Rattle.fetch_port.specs.Memory.{blobs_of, is_store_armed, store_asks, store_calls, store_faults, store_watch};

    ghost holds = { λ store. Some (blobs_of store) };

    ghost fetches = { store_asks };

    ghost fault_count = { store_faults };

    ghost watch = { λ store. Some (store_watch store) };

    /// It fails exactly where it was armed.
    fn fetch_piece(&mut self, digest: &Digest, at: u64, most: u32) -> Fetched
        ensures got { FetchesPiece (held_at (Some (blobs_of self.old)) digest.now) at most result }
        ensures same { Some (blobs_of self.new) ≡ Some (blobs_of self.old) }
        ensures asks { store_asks self.new ≡ asks_after at (store_asks self.old) }
        ensures cause { HasCause (store_faults self.old) (store_faults self.new) (fetch_failed result) }
        ensures watch { store_watch self.new ≡ after_call (store_watch self.old) }
        ensures fails { fetch_failed result ≡ is_store_armed self.old }
        ensures counts { store_faults self.new ≡ faults_after (fetch_failed result) (store_faults self.old) }
    {
        if self.begin(at) {
            return Fetched::Failed;
        }
        self.find_piece(digest, at, most)
    }

    /// It fails exactly where it was armed.
    fn fetch(&mut self, digest: &Digest) -> Fetched
        ensures got { Fetches (held_at (Some (blobs_of self.old)) digest.now) digest.now.size result }
        ensures same { Some (blobs_of self.new) ≡ Some (blobs_of self.old) }
        ensures asks { store_asks self.new ≡ risen (store_asks self.old) }
        ensures cause { HasCause (store_faults self.old) (store_faults self.new) (fetch_failed result) }
        ensures watch { store_watch self.new ≡ after_call (store_watch self.old) }
        ensures fails { fetch_failed result ≡ is_store_armed self.old }
        ensures counts { store_faults self.new ≡ faults_after (fetch_failed result) (store_faults self.old) }
    {
        if self.begin(0) {
            return Fetched::Failed;
        }
        self.find(digest)
    }

    fn asks(&self) -> u64 {
        self.asks
    }

    fn faults(&self) -> u64 {
        self.faults
    }
}

impl Arm for MemStore {
    ghost use Rattle.fetch_port.specs.Memory.{blobs_of, is_store_armed, store_asks, store_calls, store_faults};

    ghost armed = { is_store_armed };

    ghost calls_made = { store_calls };

    fn arm(&mut self)
        ensures armed { is_store_armed self.new ≡ true }
        ensures calls { store_calls self.new ≡ store_calls self.old }
        ensures holds { (digest : TheDigest) → blobs_of self.new digest ≡ blobs_of self.old digest }
        ensures asks { store_asks self.new ≡ store_asks self.old }
        ensures faults { store_faults self.new ≡ store_faults self.old }
    {
        self.armed = true;
    }

    fn calls(&self) -> u64 {
        self.calls
    }
}

use crate::{Fetched, Fetcher, Gated, MemStore, Turnstile};
use mat_digest::Digest;
use mat_io::Arm;
use std::alloc::Global;
use std::sync::Arc;
use std::sync::atomic::{AtomicU64, Ordering};
use std::test::Fail;

/// What a fetch answered: the bytes, or a word.
fn told(alloc: Global, fetched: Fetched) -> Result<Vec<u8>, Fail> {
    match fetched {
        Fetched::Bytes(bytes) => Ok(bytes.into_vec()),
        Fetched::Absent => Ok(Vec::from_slice(alloc, b"absent")?),
        Fetched::Failed => Ok(Vec::from_slice(alloc, b"failed")?),
        Fetched::NoMemory => Ok(Vec::from_slice(alloc, b"no memory")?),
    }
}

/// What is fetched as a whole, through the bound.
fn fetched<F: Fetcher>(alloc: Global, store: &mut F, digest: &Digest) -> Result<Vec<u8>, Fail> {
    told(alloc, store.fetch(digest))
}

/// What is fetched in a piece, through the bound.
fn piece<F: Fetcher>(
    alloc: Global,
    store: &mut F,
    digest: &Digest,
    at: u64,
    most: u32,
) -> Result<Vec<u8>, Fail> {
    told(alloc, store.fetch_piece(digest, at, most))
}

/// The digest of other bytes with this size.
fn sized(bytes: &[u8], size: u64) -> Digest {
    let hash = Digest::of(bytes).hash;
    Digest { hash, size }
}

#[test]
fn what_is_put_is_fetched(rt: HostRuntime) -> Result<(), Fail> {
    let alloc = rt.alloc();
    let mut store = MemStore::new(alloc);
    let digest = store.put(Vec::from_slice(alloc, b"abc")?)?;
    assert_eq!(rt; digest, Digest::of(b"abc"));
    let liar = Digest::of(b"a");
    store.lie(liar, Vec::from_slice(alloc, b"bbb")?)?;
    store.lie(sized(b"x", 9), Vec::from_slice(alloc, b"")?)?;
    // a lie of more bytes than its digest says is cut to one more
    let table: [(Digest, &[u8]); 5] = [
        (digest, b"abc"),
        (liar, b"bb"),
        (sized(b"x", 9), b""),
        (sized(b"x", 8), b"absent"),
        (Digest::of(b"b"), b"absent"),
    ];
    for (digest, bytes) in table.iter() {
        let found = fetched(alloc, &mut store, digest)?;
        assert_eq!(rt; found.as_slice(), *bytes);
    }
    assert_eq!(rt; store.asks(), 5);
    store.put(Vec::from_slice(alloc, b"a")?)?;
    store.arm();
    assert_eq!(rt;
        fetched(alloc, &mut store, &liar)?.as_slice(),
        b"failed".as_slice()
    );
    assert_eq!(rt;
        fetched(alloc, &mut store, &liar)?.as_slice(),
        b"a".as_slice()
    );
    assert_eq!(rt; store.asks(), 7);
    assert_eq!(rt; store.faults(), 1);
    assert_eq!(rt; store.calls(), 7);
    Ok(())
}

/// A turnstile that counts who passes.
#[derive(Drop)]
struct Counter {
    passed: AtomicU64,
}

impl Turnstile for Counter {
    fn before_fetch(&self, _: &Digest) {
        self.passed.fetch_add(1, Ordering::SeqCst);
    }
}

/// What may go to another thread.
fn is_sent<T: Send + Sync>(_: &T) {}

#[test]
fn pieces_are_fetched_behind_a_turnstile(rt: HostRuntime) -> Result<(), Fail> {
    let alloc = rt.alloc();
    let mut store = MemStore::new(alloc);
    let digest = store.put(Vec::from_slice(alloc, b"abcde")?)?;
    store.fetch(&digest);
    let counter = Arc::new(
        alloc,
        Counter {
            passed: AtomicU64::new(0),
        },
    )?;
    let mut gated = Gated::new(store.copy()?, Arc::try_clone(&counter)?);
    let table: [(u64, u32, &[u8]); 6] = [
        (0, 2, b"ab"),
        (2, 2, b"cd"),
        (4, 2, b"e"),
        (6, 2, b""),
        (0, 9, b"abcde"),
        (3, 0, b""),
    ];
    is_sent(&gated);
    for (at, most, bytes) in table.iter() {
        let found = piece(alloc, &mut gated, &digest, *at, *most)?;
        assert_eq!(rt; found.as_slice(), *bytes);
    }
    assert_eq!(rt; gated.asks(), 2);
    let other = Digest::of(b"b");
    assert_eq!(rt;
        piece(alloc, &mut gated, &other, 1, 2)?.as_slice(),
        b"absent".as_slice()
    );
    assert_eq!(rt;
        fetched(alloc, &mut gated, &digest)?.as_slice(),
        b"abcde".as_slice()
    );
    assert_eq!(rt; (gated.asks(), gated.faults()), (3, 0));
    assert_eq!(rt; counter.passed.load(Ordering::SeqCst), 3);
    store.arm();
    assert_eq!(rt;
        piece(alloc, &mut store, &digest, 0, 1)?.as_slice(),
        b"failed".as_slice()
    );
    assert_eq!(rt; (store.asks(), store.faults(), store.calls()), (2, 1, 2));
    Ok(())
}

use crate::{All, Halt, Keeper, MemKeeper, RawRow, Touch};
use mat_io::{Arm, Did};
use mat_path::{Items, Path};
use std::alloc::Global;
use std::test::Fail;

/// A row at a path, with one byte.
fn row(alloc: Global, path: &[u8], byte: u8, last: u64) -> Result<RawRow, Fail> {
    Ok(RawRow {
        path: Items::of(Vec::from_slice(alloc, path)?),
        body: Items::of(Vec::from_slice(alloc, &[byte])?),
        last,
    })
}

/// All rows in one text, through the bound: path, byte and last use of each, or a word.
fn told<K: Keeper>(alloc: Global, keeper: &mut K) -> Result<Vec<u8>, Fail> {
    let rows = match keeper.all() {
        All::Rows(rows) => rows,
        All::Failed => return Ok(Vec::from_slice(alloc, b"failed")?),
        All::NoMemory => return Ok(Vec::from_slice(alloc, b"no memory")?),
    };
    let mut text = Vec::new(alloc);
    for row in rows.as_slice() {
        text.extend_from_slice(row.path.as_slice())?;
        text.extend_from_slice(row.body.as_slice())?;
        text.extend_from_slice(&row.last.to_be_bytes())?;
    }
    Ok(text)
}

#[test]
fn rows_are_kept(rt: HostRuntime) -> Result<(), Fail> {
    let alloc = rt.alloc();
    let mut keeper = MemKeeper::new(alloc, Vec::new(alloc));
    let a = Path::read(alloc, b"a")?;
    let rows = [row(alloc, b"b", b'x', 1)?, row(alloc, b"a", b'y', 2)?];
    let touches = [Touch { path: a, last: 5 }];
    assert_eq!(rt; keeper.store_rows(&rows, &touches), Did::Done);
    assert_eq!(rt;
        told(alloc, &mut keeper)?.as_slice(),
        b"ay\0\0\0\0\0\0\0\x05bx\0\0\0\0\0\0\0\x01".as_slice()
    );
    keeper.arm();
    let gone = [Path::read(alloc, b"a")?];
    assert_eq!(rt; keeper.remove(&gone), Did::Failed);
    keeper.halt(true);
    assert_eq!(rt; keeper.remove(&gone), Did::NoMemory);
    assert_eq!(rt;
        (keeper.met(), keeper.calls(), keeper.faults()),
        (true, 3, 1)
    );
    keeper.halt(false);
    assert_eq!(rt; keeper.met(), false);
    assert_eq!(rt; keeper.remove(&gone), Did::Done);
    assert_eq!(rt;
        told(alloc, &mut keeper)?.as_slice(),
        b"bx\0\0\0\0\0\0\0\x01".as_slice()
    );
    keeper.arm();
    assert_eq!(rt; told(alloc, &mut keeper)?.as_slice(), b"failed".as_slice());
    assert_eq!(rt; (keeper.calls(), keeper.faults()), (6, 2));
    Ok(())
}

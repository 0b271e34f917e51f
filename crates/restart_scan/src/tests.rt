ghost use Rattle.std.specs.Prelude.{◌≡◌, []};

use crate::{Entrance, ScanRefusal, scan};
use keep_port::{All, Keeper, MemKeeper, RawRow};
use mat_io::Arm;
use mat_model::{Device, Opening};
use mat_path::{Items, Path, Rel};
use region_port::{Disk, MemDisk, Region};
use row_bytes::{read_row, write_row};
use std::alloc::Global;
use std::test::Fail;

/// The SHA-256 of `abc` (FIPS 180-4, its first example).
const HASH: &[u8; 32] =
    b"\xba\x78\x16\xbf\x8f\x01\xcf\xea\x41\x41\x40\xde\x5d\xae\x22\x23\xb0\x03\x61\xa3\x96\x17\x7a\x9c\xb4\x10\xff\x61\xf2\x00\x15\xad";

/// What the bytes of a kept row are, in a table.
#[derive(Clone, Copy, Debug, PartialEq, Eq)]
enum Bytes {
    /// A file, in the first version.
    First,
    /// The same in the second version, for the folder of a number.
    Second(u64),
    /// A directory with a file, in the first version.
    Folder,
    /// No row: it ends behind its version.
    Cut,
}

/// These pieces in a row.
fn joined(alloc: Global, pieces: &[&[u8]]) -> Result<Vec<u8>, Fail> {
    let mut out = Vec::new(alloc);
    for piece in pieces {
        out.extend_from_slice(piece)?;
    }
    Ok(out)
}

/// The bytes of a kept row.
fn body(alloc: Global, bytes: Bytes) -> Result<Vec<u8>, Fail> {
    let size = b"\0\0\0\0\0\0\0\x03".as_slice();
    match bytes {
        Bytes::First => joined(alloc, &[b"KR\x01\0", HASH, size]),
        Bytes::Second(identity) => {
            let first = joined(alloc, &[b"KR\x01\0", HASH, size])?;
            let kept = read_row(alloc, first.as_slice())?;
            Ok(write_row(alloc, &kept.tree, identity)?)
        }
        Bytes::Folder => joined(alloc, &[b"KR\x01\x02\0\0\0\x01\0\0\x01x", HASH, size]),
        Bytes::Cut => joined(alloc, &[b"KR\x01"]),
    }
}

/// A state store with rows at some paths, the last uses of which are 3, 4, 5 and on.
fn keeper_of(alloc: Global, kept: &[(&[u8], Bytes)]) -> Result<MemKeeper, Fail> {
    let mut rows = Vec::new(alloc);
    for (path, bytes) in kept {
        let last = rows.len() as u64 + 3;
        rows.push(RawRow {
            path: Items::of(Vec::from_slice(alloc, path)?),
            body: Items::of(body(alloc, *bytes)?),
            last,
        })?;
    }
    let mut keeper = MemKeeper::new(alloc, Vec::new(alloc));
    keeper.store_rows(rows.as_slice(), &[]);
    Ok(keeper)
}

/// A digit.
fn digit(number: u64) -> u8 {
    b'0' + (number % 10) as u8
}

/// A letter for a device.
fn letter(device: Device) -> u8 {
    match device {
        Device::Disk => b'D',
        Device::Store => b'S',
        Device::Keeper => b'K',
    }
}

/// Paths, each behind a mark.
fn push_paths(text: &mut Vec<u8>, mark: u8, paths: &[Path]) -> Result<(), Fail> {
    for path in paths {
        text.push(mark)?;
        text.extend_from_slice(path.write()?.as_slice())?;
    }
    Ok(())
}

/// An opening in one text: each row with its stamp and its last use, then the paths of the first version, the lost ones and the strays.
fn push_opening(text: &mut Vec<u8>, opening: &Opening) -> Result<(), Fail> {
    for row in opening.rows.as_slice() {
        text.extend_from_slice(row.path.write()?.as_slice())?;
        text.extend_from_slice(&[b' ', digit(row.stamp), digit(row.last), b' '])?;
    }
    push_paths(text, b'1', opening.version1.as_slice())?;
    push_paths(text, b'-', opening.lost.as_slice())?;
    push_paths(text, b'?', opening.strays.as_slice())
}

/// An answer in one text.
fn told(alloc: Global, answer: &Result<Opening, ScanRefusal>) -> Result<Vec<u8>, Fail> {
    let mut text = Vec::new(alloc);
    match answer {
        Ok(opening) => push_opening(&mut text, opening)?,
        Err(ScanRefusal::KeeperFault(note)) => {
            text.extend_from_slice(&[
                b'k',
                letter(note.device),
                digit(note.before),
                digit(note.after),
            ])?;
        }
        Err(ScanRefusal::DiskFault(note)) => {
            text.extend_from_slice(&[
                b'd',
                letter(note.device),
                digit(note.before),
                digit(note.after),
            ])?;
        }
        Err(ScanRefusal::BadPath(path)) => {
            text.extend_from_slice(b"path ")?;
            text.extend_from_slice(path.as_slice())?;
        }
        Err(ScanRefusal::BadRow { path, at }) => {
            text.extend_from_slice(b"row ")?;
            text.push(digit(*at))?;
            text.extend_from_slice(path.write()?.as_slice())?;
        }
        Err(ScanRefusal::Foreign { path, found }) => {
            text.extend_from_slice(b"foreign ")?;
            text.push(digit(*found))?;
            text.extend_from_slice(path.write()?.as_slice())?;
        }
        Err(ScanRefusal::Overlap { first, second }) => {
            text.extend_from_slice(first.write()?.as_slice())?;
            text.extend_from_slice(b" overlaps ")?;
            text.extend_from_slice(second.write()?.as_slice())?;
        }
        Err(ScanRefusal::Rows(count)) => text.extend_from_slice(&[b'n', digit(*count)])?,
        Err(ScanRefusal::NoMemory) => text.extend_from_slice(b"no memory")?,
    }
    Ok(text)
}

/// What is answered over a state store with these rows, an empty disk, and the identity 7.
fn scanned(alloc: Global, kept: &[(&[u8], Bytes)], most: u64) -> Result<Vec<u8>, Fail> {
    let mut keeper = keeper_of(alloc, kept)?;
    let mut disk = MemDisk::new(alloc);
    let entrance = Entrance {
        identity: 7,
        check: false,
    };
    let answer = scan(alloc, &mut keeper, &mut disk, most, entrance);
    told(alloc, &answer)
}

/// Puts a file at a path of a disk that lends nothing.
fn put_file<D: Disk>(alloc: Global, disk: &mut D, path: &[u8], bytes: &[u8]) -> Result<(), Fail>
    requires { D.lent disk.old ≡ [] }
    ensures { D.lent disk.new ≡ [] }
{
    let path = Path::read(alloc, path)?;
    let rel = Rel::root(alloc);
    let mut region = disk.take(&path)?;
    if region.path().can_join(&rel) {
        region.put_file(&rel, false, bytes);
    }
    disk.give(region);
    Ok(())
}

/// What is armed before an opening.
#[derive(Clone, Copy, Debug, PartialEq, Eq)]
enum Armed {
    Nothing,
    Disk,
    Keeper,
}

/// What a check answers over a state store with these rows and a disk with a file at `p`, and how many rows the state store has then.
fn checked(
    alloc: Global,
    kept: &[(&[u8], Bytes)],
    bytes: &[u8],
    armed: Armed,
) -> Result<Vec<u8>, Fail> {
    let mut keeper = keeper_of(alloc, kept)?;
    let mut disk = MemDisk::new(alloc);
    put_file(alloc, &mut disk, b"p", bytes)?;
    if armed == Armed::Disk {
        disk.arm();
    }
    if armed == Armed::Keeper {
        keeper.arm();
    }
    let entrance = Entrance {
        identity: 7,
        check: true,
    };
    let answer = scan(alloc, &mut keeper, &mut disk, 9, entrance);
    let mut text = told(alloc, &answer)?;
    if let All::Rows(rows) = keeper.all() {
        text.push(digit(rows.as_slice().len() as u64))?;
    }
    Ok(text)
}

#[test]
fn rows_are_opened_or_refused(rt: HostRuntime) -> Result<(), Fail> {
    let alloc = rt.alloc();
    let one = [(b"p".as_slice(), Bytes::First)];
    assert_eq!(rt; scanned(alloc, &one, 1)?.as_slice(), b"p 03 1p".as_slice());
    assert_eq!(rt; scanned(alloc, &one, 0)?.as_slice(), b"n1".as_slice());
    let cut = [(b"p".as_slice(), Bytes::Cut)];
    assert_eq!(rt; scanned(alloc, &cut, 1)?.as_slice(), b"row 3p".as_slice());
    let own = [(b"p".as_slice(), Bytes::Second(7))];
    assert_eq!(rt; scanned(alloc, &own, 1)?.as_slice(), b"p 03 ".as_slice());
    let strange = [
        (b"p".as_slice(), Bytes::Second(9)),
        (b"q".as_slice(), Bytes::Cut),
    ];
    assert_eq!(rt;
        scanned(alloc, &strange, 2)?.as_slice(),
        b"foreign 9p".as_slice()
    );
    let bad = [(b"/".as_slice(), Bytes::Cut), (b"p".as_slice(), Bytes::Cut)];
    assert_eq!(rt; scanned(alloc, &bad, 2)?.as_slice(), b"path /".as_slice());
    Ok(())
}

#[test]
fn rows_are_put_into_path_order(rt: HostRuntime) -> Result<(), Fail> {
    let alloc = rt.alloc();
    let over = [
        (b"a".as_slice(), Bytes::First),
        (b"a!".as_slice(), Bytes::Folder),
        (b"a/b".as_slice(), Bytes::First),
    ];
    assert_eq!(rt;
        scanned(alloc, &over, 3)?.as_slice(),
        b"a overlaps a/b".as_slice()
    );
    let apart = [
        (b"a!".as_slice(), Bytes::First),
        (b"a/b".as_slice(), Bytes::Second(7)),
        (b"a/c".as_slice(), Bytes::Folder),
    ];
    assert_eq!(rt;
        scanned(alloc, &apart, 3)?.as_slice(),
        b"a/b 04 a/c 15 a! 23 1a/c1a!".as_slice()
    );
    Ok(())
}

#[test]
fn nodes_need_paths(rt: HostRuntime) -> Result<(), Fail> {
    let alloc = rt.alloc();
    let long = [b'n'; 255];
    let deep = joined(alloc, &[&long, b"/", &long, b"/", &long, b"/", &long])?;
    let right = joined(alloc, &[deep.as_slice(), b" 03 1", deep.as_slice()])?;
    let wrong = joined(alloc, &[b"row 0", deep.as_slice()])?;
    let file = [(deep.as_slice(), Bytes::First)];
    assert_eq!(rt; scanned(alloc, &file, 1)?.as_slice(), right.as_slice());
    let folder = [(deep.as_slice(), Bytes::Folder)];
    assert_eq!(rt; scanned(alloc, &folder, 1)?.as_slice(), wrong.as_slice());
    Ok(())
}

#[test]
fn parts_are_looked_at(rt: HostRuntime) -> Result<(), Fail> {
    let alloc = rt.alloc();
    let file = [
        (b"p".as_slice(), Bytes::First),
        (b"q".as_slice(), Bytes::Second(7)),
    ];
    let found = checked(alloc, &file, b"abc", Armed::Nothing)?;
    assert_eq!(rt; found.as_slice(), b"p 03 1p-q1".as_slice());
    let differs = checked(alloc, &file, b"abd", Armed::Nothing)?;
    assert_eq!(rt; differs.as_slice(), b"-p-q0".as_slice());
    let longer = checked(alloc, &file, b"abcd", Armed::Nothing)?;
    assert_eq!(rt; longer.as_slice(), b"-p-q0".as_slice());
    let other = [(b"q".as_slice(), Bytes::Folder)];
    let stray = checked(alloc, &other, b"abc", Armed::Nothing)?;
    assert_eq!(rt; stray.as_slice(), b"-q?p0".as_slice());
    Ok(())
}

#[test]
fn devices_may_fail(rt: HostRuntime) -> Result<(), Fail> {
    let alloc = rt.alloc();
    let file = [(b"p".as_slice(), Bytes::First)];
    let disk = checked(alloc, &file, b"abc", Armed::Disk)?;
    assert_eq!(rt; disk.as_slice(), b"dD011".as_slice());
    let keeper = checked(alloc, &file, b"abc", Armed::Keeper)?;
    assert_eq!(rt; keeper.as_slice(), b"kK011".as_slice());
    let cut = [(b"p".as_slice(), Bytes::Cut)];
    let both = checked(alloc, &cut, b"abc", Armed::Disk)?;
    assert_eq!(rt; both.as_slice(), b"row 3p1".as_slice());
    Ok(())
}

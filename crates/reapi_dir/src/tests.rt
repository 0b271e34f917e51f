use crate::{DirMessage, DirRefusal, read_dir};
use mat_digest::Digest;
use std::alloc::Global;
use std::test::Fail;

/// The hash of `abc`.
const HASH: &[u8] = b"ba7816bf8f01cfea414140de5dae2223b00361a396177a9cb410ff61f20015ad";

/// The file `a` of the bytes `abc`, up to its hash and behind it.
const FILE: &[u8] = b"\x0a\x49\x0a\x01a\x12\x44\x0a\x40";

const SIZE: &[u8] = b"\x10\x03";

/// The directory `d`, up to its hash; its message is empty of a size.
const DIR: &[u8] = b"\x12\x47\x0a\x01d\x12\x42\x0a\x40";

/// The link `l` to `t`.
const LINK: &[u8] = b"\x1a\x06\x0a\x01l\x12\x01t";

/// The bytes of these pieces.
fn joined(alloc: Global, pieces: &[&[u8]]) -> Result<Vec<u8>, Fail> {
    let mut bytes = Vec::new(alloc);
    for piece in pieces {
        bytes.extend_from_slice(piece)?;
    }
    Ok(bytes)
}

/// Why bytes are no message.
fn refusal_of(alloc: Global, bytes: &[u8]) -> Option<DirRefusal> {
    read_dir(alloc, bytes).err()
}

#[test]
fn a_message_of_each_kind_is_read(rt: HostRuntime) -> Result<(), Fail> {
    let file = b"\x0a\x4b\x0a\x01a\x12\x44\x0a\x40".as_slice();
    let pieces = [file, HASH, SIZE, b"\x20\x01", DIR, HASH, LINK];
    let bytes = joined(rt.alloc(), &pieces)?;
    let message = read_dir(rt.alloc(), bytes.as_slice())?;
    let DirMessage { files, dirs, links } = message;
    for file in files.as_slice() {
        assert_eq!(rt; file.name.bytes(), b"a".as_slice());
        assert_eq!(rt; file.digest, Digest::of(b"abc"));
        assert!(rt; file.exec);
    }
    for dir in dirs.as_slice() {
        assert_eq!(rt; dir.name.bytes(), b"d".as_slice());
        assert_eq!(rt; dir.digest.hash, Digest::of(b"abc").hash);
        assert_eq!(rt; dir.digest.size, 0);
    }
    for link in links.as_slice() {
        assert_eq!(rt; link.name.bytes(), b"l".as_slice());
        assert_eq!(rt; link.target.bytes(), b"t".as_slice());
    }
    let counts = (
        files.as_slice().len(),
        dirs.as_slice().len(),
        links.as_slice().len(),
    );
    assert_eq!(rt; counts, (1, 1, 1));
    Ok(())
}

#[test]
fn each_cut_of_a_message_ends_at_the_cut(rt: HostRuntime) -> Result<(), Fail> {
    let whole = joined(rt.alloc(), &[FILE, HASH, SIZE])?;
    assert_eq!(rt; whole.len(), 75);
    let mut bytes = Vec::new(rt.alloc());
    for (k, byte) in whole.iter().enumerate() {
        let cut = (k > 0).then_some(DirRefusal::Truncated(k));
        assert_eq!(rt; refusal_of(rt.alloc(), bytes.as_slice()), cut);
        bytes.push(*byte)?;
    }
    assert_eq!(rt; refusal_of(rt.alloc(), bytes.as_slice()), None);
    Ok(())
}

#[test]
fn the_first_fault_is_answered(rt: HostRuntime) -> Result<(), Fail> {
    let upper = b"BA7816BF8F01CFEA414140DE5DAE2223B00361A396177A9CB410FF61F20015AD".as_slice();
    let table: [(&[&[u8]], DirRefusal); 30] = [
        // lengths that run past their enclosing bytes, and fields that are missing
        (&[b"\x0a\x00"], DirRefusal::Truncated(2)),
        (&[b"\x0a\x02\x0a\x05", LINK], DirRefusal::Truncated(4)),
        (&[b"\x1a\x03\x0a\x01l", LINK], DirRefusal::Truncated(5)),
        (&[b"\x0a\x80"], DirRefusal::Truncated(2)),
        (
            &[b"\x80\x80\x80\x80\x80\x80\x80\x80\x80\x80"],
            DirRefusal::Truncated(10),
        ),
        // varints
        (
            &[b"\x80\x80\x80\x80\x80\x80\x80\x80\x80\x80\x01"],
            DirRefusal::Varint(0),
        ),
        (
            &[b"\x80\x80\x80\x80\x80\x80\x80\x80\x80\x02"],
            DirRefusal::Varint(0),
        ),
        (&[b"\x8a\x00"], DirRefusal::Varint(0)),
        (&[b"\x0a\x86\x00"], DirRefusal::Varint(1)),
        (
            &[b"\x0a\x4a\x0a\x01a\x12\x45\x0a\x40", HASH, b"\x10\x83\x00"],
            DirRefusal::Varint(74),
        ),
        (
            &[
                b"\x0a\x4b\x0a\x01a\x12\x44\x0a\x40",
                HASH,
                SIZE,
                b"\x20\x02",
            ],
            DirRefusal::Varint(76),
        ),
        (
            &[
                b"\x0a\x4b\x0a\x01a\x12\x44\x0a\x40",
                HASH,
                SIZE,
                b"\x20\x00",
            ],
            DirRefusal::Varint(76),
        ),
        // keys
        (&[b"\x08\x01"], DirRefusal::Key(0)),
        (&[LINK, FILE, HASH, SIZE], DirRefusal::Key(8)),
        (&[LINK, DIR, HASH], DirRefusal::Key(8)),
        (&[DIR, HASH, FILE, HASH, SIZE], DirRefusal::Key(73)),
        (&[b"\x0a\x02\x12\x01"], DirRefusal::Key(2)),
        (&[b"\x1a\x07\x0a\x01l\x12\x01t\x80"], DirRefusal::Key(8)),
        (
            &[b"\x12\x49\x0a\x01d\x12\x42\x0a\x40", HASH, b"\x20\x01"],
            DirRefusal::Key(73),
        ),
        (
            &[b"\x0a\x4b\x0a\x01a\x12\x46\x0a\x40", HASH, SIZE, SIZE],
            DirRefusal::Key(75),
        ),
        // names and targets
        (&[b"\x0a\x02\x0a\x00"], DirRefusal::Name(4)),
        (&[b"\x0a\x05\x0a\x03a/b"], DirRefusal::Name(4)),
        (&[b"\x1a\x06\x0a\x01l\x12\x01 "], DirRefusal::Name(7)),
        // the order of names
        (
            &[
                b"\x0a\x49\x0a\x01b\x12\x44\x0a\x40",
                HASH,
                SIZE,
                FILE,
                HASH,
                SIZE,
            ],
            DirRefusal::Order(79),
        ),
        (
            &[FILE, HASH, SIZE, b"\x12\x47\x0a\x01a\x12\x42\x0a\x40", HASH],
            DirRefusal::Order(79),
        ),
        (
            &[DIR, HASH, b"\x1a\x06\x0a\x01d\x12\x01t"],
            DirRefusal::Order(77),
        ),
        // hashes and sizes
        (&[FILE, upper, SIZE], DirRefusal::Hash(9)),
        (&[b"\x0a\x05\x0a\x01a\x12\x00"], DirRefusal::Truncated(7)),
        (
            &[b"\x0a\x08\x0a\x01a\x12\x03\x0a\x01a"],
            DirRefusal::Hash(9),
        ),
        (&[FILE, HASH, b"\x10\x00"], DirRefusal::Size(74)),
    ];
    for (pieces, refusal) in table.iter() {
        let bytes = joined(rt.alloc(), pieces)?;
        assert_eq!(rt; refusal_of(rt.alloc(), bytes.as_slice()), Some(*refusal));
    }
    Ok(())
}

#[test]
fn sizes_go_up_to_their_limits(rt: HostRuntime) -> Result<(), Fail> {
    let file = b"\x0a\x4c\x0a\x01a\x12\x47\x0a\x40".as_slice();
    let dir = b"\x12\x51\x0a\x01d\x12\x4c\x0a\x40".as_slice();
    let longer = b"\x12\x52\x0a\x01d\x12\x4d\x0a\x40".as_slice();
    let most = b"\x10\xff\xff\xff\xff\xff\xff\xff\xff\x7f".as_slice();
    let above = b"\x10\x80\x80\x80\x80\x80\x80\x80\x80\x80\x01".as_slice();
    let table: [(&[u8], &[u8], Option<DirRefusal>); 4] = [
        (file, b"\x10\x80\x80\x80\x20", None),
        (file, b"\x10\x81\x80\x80\x20", Some(DirRefusal::Size(74))),
        (dir, most, None),
        (longer, above, Some(DirRefusal::Size(74))),
    ];
    for (front, size, refusal) in table.iter() {
        let bytes = joined(rt.alloc(), &[*front, HASH, *size])?;
        assert_eq!(rt; refusal_of(rt.alloc(), bytes.as_slice()), *refusal);
    }
    Ok(())
}

#[test]
fn a_child_that_is_one_too_many_is_refused(rt: HostRuntime) -> Result<(), Fail> {
    let mut bytes = Vec::new(rt.alloc());
    for n in 10_000..19_999 {
        let name = format!(in rt.alloc(); "{n}")?;
        bytes.extend_from_slice(b"\x1a\x0a\x0a\x05")?;
        bytes.extend_from_slice(name.as_bytes())?;
        bytes.extend_from_slice(b"\x12\x01t")?;
    }
    let message = read_dir(rt.alloc(), bytes.as_slice())?;
    assert_eq!(rt; message.links.as_slice().len(), 9_999);
    bytes.push(0x1a)?;
    assert_eq!(rt;
        refusal_of(rt.alloc(), bytes.as_slice()),
        Some(DirRefusal::Many(119_988))
    );
    Ok(())
}

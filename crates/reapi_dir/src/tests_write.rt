use crate::{DirMessage, DirNode, FileNode, LinkNode, read_children, sum_of, write_dir};
use mat_digest::Digest;
use mat_path::{Items, Name, Path, Rel, Target};
use mat_tree::{Flat, Kind, Tree, What};
use std::alloc::Global;
use std::test::Fail;

/// The digest of `abc` with another size.
fn sized(size: u64) -> Digest {
    let hash = Digest::of(b"abc").hash;
    Digest { hash, size }
}

/// Puts a child into a message: `f` a file, `x` an executable one, `d` a directory, each by the digest of `abc` with this size, or else
/// a link to `../lib`.
fn put(
    alloc: Global,
    lists: (&mut Vec<FileNode>, &mut Vec<DirNode>, &mut Vec<LinkNode>),
    row: (u8, &[u8], u64),
) -> Result<(), Fail> {
    let (files, dirs, links) = lists;
    let (letter, text, size) = row;
    let name = Name::read(alloc, text)?;
    let digest = sized(size);
    match letter {
        b'f' => files.push(FileNode {
            name,
            digest,
            exec: false,
        })?,
        b'x' => files.push(FileNode {
            name,
            digest,
            exec: true,
        })?,
        b'd' => dirs.push(DirNode { name, digest })?,
        _ => {
            let target = Target::read(alloc, b"../lib")?;
            links.push(LinkNode { name, target })?;
        }
    }
    Ok(())
}

/// The bytes of the message of these children.
fn written(alloc: Global, rows: &[(u8, &[u8], u64)]) -> Result<Vec<u8>, Fail> {
    let mut files = Vec::new(alloc);
    let mut dirs = Vec::new(alloc);
    let mut links = Vec::new(alloc);
    for row in rows {
        put(alloc, (&mut files, &mut dirs, &mut links), *row)?;
    }
    let message = DirMessage {
        files: Items::of(files),
        dirs: Items::of(dirs),
        links: Items::of(links),
    };
    Ok(write_dir(alloc, &message)?)
}

#[test]
fn a_child_is_written_as_its_field(rt: HostRuntime) -> Result<(), Fail> {
    // each row: a child named `a`, and the message of it alone
    let table: [(u8, u64, &[u8]); 6] = [
        (
            b'f',
            3,
            b"\x0a\x49\x0a\x01a\x12\x44\x0a\x40ba7816bf8f01cfea414140de5dae2223b00361a396177a9cb410ff61f20015ad\x10\x03",
        ),
        (
            b'x',
            3,
            b"\x0a\x4b\x0a\x01a\x12\x44\x0a\x40ba7816bf8f01cfea414140de5dae2223b00361a396177a9cb410ff61f20015ad\x10\x03\x20\x01",
        ),
        (
            b'f',
            300,
            b"\x0a\x4a\x0a\x01a\x12\x45\x0a\x40ba7816bf8f01cfea414140de5dae2223b00361a396177a9cb410ff61f20015ad\x10\xac\x02",
        ),
        (
            b'd',
            0,
            b"\x12\x47\x0a\x01a\x12\x42\x0a\x40ba7816bf8f01cfea414140de5dae2223b00361a396177a9cb410ff61f20015ad",
        ),
        (
            b'd',
            u64::MAX,
            b"\x12\x52\x0a\x01a\x12\x4d\x0a\x40ba7816bf8f01cfea414140de5dae2223b00361a396177a9cb410ff61f20015ad\x10\xff\xff\xff\xff\xff\xff\xff\xff\xff\x01",
        ),
        (b'l', 0, b"\x1a\x0b\x0a\x01a\x12\x06../lib"),
    ];
    for (letter, size, bytes) in table.iter() {
        let out = written(rt.alloc(), &[(*letter, b"a", *size)])?;
        assert_eq!(rt; out.as_slice(), *bytes);
    }
    Ok(())
}

#[test]
fn files_come_before_directories_and_links(rt: HostRuntime) -> Result<(), Fail> {
    let out = written(
        rt.alloc(),
        &[
            (b'd', b"a", 3),
            (b'x', b"b", 3),
            (b'f', b"c", 3),
            (b'l', b"d", 0),
        ],
    )?;
    // found by a script in Python: its own encoder, and the SHA-256 of hashlib
    assert_eq!(rt;
        Digest::of(out.as_slice()).write_text().bytes(),
        b"d1f8d111f94d7788f4be7c5b334ef94947d96ce0d386feed1e84d9be9c8b89ee:240".as_slice()
    );
    Ok(())
}

/// A node of one letter: `d` a directory, `l` a link to `../lib`, `f` a file of its rel's bytes, `x` the same and executable.
fn node_of(alloc: Global, letter: u8, text: &[u8]) -> Result<Flat, Fail> {
    let rel = Rel::read(alloc, text)?;
    let what = match letter {
        b'd' => What::Dir,
        b'l' => What::Link(Target::read(alloc, b"../lib")?),
        _ => What::File {
            digest: Digest::of(text),
            exec: letter == b'x',
        },
    };
    Ok(Flat { rel, what })
}

/// The tree of some nodes.
fn tree_of(alloc: Global, rows: &[(u8, &[u8])]) -> Result<Tree, Fail> {
    let mut nodes = Vec::new(alloc);
    for (letter, text) in rows {
        nodes.push(node_of(alloc, *letter, text)?)?;
    }
    if !Flat::are_small(nodes.as_slice()) {
        return Err(Fail::new("a file above its limit"));
    }
    Ok(Tree::from_flat(alloc, nodes.as_slice())?)
}

const FOLDERS: [(u8, &[u8]); 9] = [
    (b'd', b"."),
    (b'd', b"a"),
    (b'd', b"a/deep"),
    (b'l', b"a/deep/z"),
    (b'x', b"a/run"),
    (b'd', b"b"),
    (b'l', b"c"),
    (b'f', b"top"),
    (b'x', b"x"),
];

#[test]
fn sums_are_those_of_messages(rt: HostRuntime) -> Result<(), Fail> {
    // the digest of no bytes, that of the byte `.`, and one found by a script in Python: its own encoder, and the SHA-256 of hashlib
    let table: [(&[(u8, &[u8])], Kind, &[u8]); 4] = [
        (
            &[(b'd', b".")],
            Kind::Dir,
            b"e3b0c44298fc1c149afbf4c8996fb92427ae41e4649b934ca495991b7852b855:0",
        ),
        (
            &[(b'f', b".")],
            Kind::File,
            b"cdb4ee2aea69cc6a83331bbe96dc2caa9a299d21329efb0336fc02a82e1839a8:1",
        ),
        (
            &[(b'x', b".")],
            Kind::Exec,
            b"cdb4ee2aea69cc6a83331bbe96dc2caa9a299d21329efb0336fc02a82e1839a8:1",
        ),
        (
            &FOLDERS,
            Kind::Dir,
            b"a95e39fc8060e27e0c1a2741d2328e0e98abc8406ef8248d2e2f74b520233e92:316",
        ),
    ];
    for (rows, kind, text) in table.iter() {
        let sum = sum_of(rt.alloc(), &tree_of(rt.alloc(), rows)?)?;
        assert_eq!(rt; sum.kind, *kind);
        assert_eq!(rt; sum.digest.write_text().bytes(), *text);
    }
    Ok(())
}

#[test]
fn a_tree_without_directories_is_read_from_its_message(rt: HostRuntime) -> Result<(), Fail> {
    let rows: [(u8, &[u8], u64); 3] = [(b'f', b"a", 3), (b'x', b"b", 3), (b'l', b"c", 0)];
    let bytes = written(rt.alloc(), &rows)?;
    let message = read_children(rt.alloc(), bytes.as_slice())?;
    let counts = (
        message.files.as_slice().len(),
        message.dirs.as_slice().len(),
        message.links.as_slice().len(),
    );
    assert_eq!(rt; counts, (2, 0, 1));
    Ok(())
}

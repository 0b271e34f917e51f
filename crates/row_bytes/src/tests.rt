use crate::{RowRefusal, read_row, row_is_one, rows_are_read, write_row};
use mat_digest::Digest;
use std::alloc::Global;
use std::test::Fail;
use tree_words::read_words;

/// The SHA-256 of `abc` (FIPS 180-4, its first example).
const HASH: &[u8; 32] =
    b"\xba\x78\x16\xbf\x8f\x01\xcf\xea\x41\x41\x40\xde\x5d\xae\x22\x23\xb0\x03\x61\xa3\x96\x17\x7a\x9c\xb4\x10\xff\x61\xf2\x00\x15\xad";

/// These pieces in a row.
fn joined(alloc: Global, pieces: &[&[u8]]) -> Result<Vec<u8>, Fail> {
    let mut out = Vec::new(alloc);
    for piece in pieces {
        out.extend_from_slice(piece)?;
    }
    Ok(out)
}

/// What stands behind the magic in version 1 of a directory with a directory, an executable file in it and a link.
fn nested(alloc: Global) -> Result<Vec<u8>, Fail> {
    joined(
        alloc,
        &[
            b"\x02\0\0\0\x03\x02\0\x01a\x01\0\x03a/x",
            HASH,
            b"\0\0\0\0\0\0\0\x03\x03\0\x01b\0\x04../c",
        ],
    )
}

#[test]
fn rows_are_written_as_the_format_has_them(rt: HostRuntime) -> Result<(), Fail> {
    let alloc = rt.alloc();
    let size = b"\0\0\0\0\0\0\0\x03".as_slice();
    let first = joined(alloc, &[b"KR\x01\0", HASH, size])?;
    assert_eq!(rt; first.len(), 44);
    let read = read_row(alloc, first.as_slice())?;
    assert_eq!(rt; read.identity, None);
    assert_eq!(rt; (read.tree.nodes(), read.tree.bytes()), (1, 3));
    let row = write_row(alloc, &read.tree, 9)?;
    assert_eq!(rt; row.len(), 60);
    let front = b"KR\x02\0\0\0\0\0\0\0\x09";
    let wanted = joined(alloc, &[front, size, b"\0", HASH, size])?;
    assert_eq!(rt; row.as_slice(), wanted.as_slice());
    let again = read_row(alloc, row.as_slice())?;
    assert_eq!(rt; again.identity, Some(9));
    assert_eq!(rt; again.tree.same(&read.tree), true);
    row_is_one();
    rows_are_read(first.as_slice());
    Ok(())
}

#[test]
fn directories_are_written_as_they_were_read(rt: HostRuntime) -> Result<(), Fail> {
    let alloc = rt.alloc();
    let nodes = nested(alloc)?;
    let first = joined(alloc, &[b"KR\x01", nodes.as_slice()])?;
    let read = read_row(alloc, first.as_slice())?;
    assert_eq!(rt; read.tree.nodes(), 4);
    let row = write_row(alloc, &read.tree, 1 << 63)?;
    let front = b"KR\x02\x80\0\0\0\0\0\0\0\0\0\0\0\0\0\0\x03";
    let wanted = joined(alloc, &[front, nodes.as_slice()])?;
    assert_eq!(rt; row.as_slice(), wanted.as_slice());
    let again = read_row(alloc, row.as_slice())?;
    assert_eq!(rt; again.identity, Some(1 << 63));
    assert_eq!(rt; again.tree.same(&read.tree), true);
    Ok(())
}

/// Puts the words of a file of these bytes behind.
fn push_file(out: &mut Vec<u8>, kind: &[u8], bytes: &[u8], rel: &[u8]) -> Result<(), Fail> {
    out.extend_from_slice(kind)?;
    out.extend_from_slice(Digest::of(bytes).write_text().bytes())?;
    out.extend_from_slice(rel)?;
    Ok(())
}

/// The words of an application: programs, a library under two names, and nine resources of the same bytes.
fn application(alloc: Global) -> Result<Vec<u8>, Fail> {
    let mut words = Vec::from_slice(alloc, b"d . d bin")?;
    push_file(&mut words, b" x ", b"abc", b" bin/app")?;
    push_file(&mut words, b" x ", b"a", b" bin/tool")?;
    words.extend_from_slice(b" d lib l libapp.so.1 lib/libapp.so")?;
    push_file(&mut words, b" f ", b"b", b" lib/libapp.so.1")?;
    words.extend_from_slice(b" d res")?;
    for digit in b"012345678" {
        push_file(&mut words, b" f ", b"c", b" res/r")?;
        words.push(*digit)?;
    }
    Ok(words)
}

#[test]
fn an_application_comes_back(rt: HostRuntime) -> Result<(), Fail> {
    let alloc = rt.alloc();
    let words = application(alloc)?;
    let tree = read_words(alloc, words.as_slice())?;
    assert_eq!(rt; (tree.nodes(), tree.bytes()), (17, 14));
    let row = write_row(alloc, &tree, 0)?;
    let again = read_row(alloc, row.as_slice())?;
    assert_eq!(rt; again.identity, Some(0));
    assert_eq!(rt; again.tree.same(&tree), true);
    Ok(())
}

#[test]
fn fields_are_refused_where_they_begin(rt: HostRuntime) -> Result<(), Fail> {
    let alloc = rt.alloc();
    let size = b"\0\0\0\0\0\0\0\x03".as_slice();
    let large = b"\0\0\0\0\x04\0\0\x01".as_slice();
    let four = b"\0\0\0\0\0\0\0\x04".as_slice();
    let hash = HASH.as_slice();
    let table: [([&[u8]; 5], usize); 18] = [
        ([b"", b"", b"", b"", b""], 0),
        ([b"KR", b"", b"", b"", b""], 0),
        ([b"KR\x03\0", hash, size, b"", b""], 0),
        ([b"KS\x01\0", hash, size, b"", b""], 0),
        ([b"KR\x01", b"", b"", b"", b""], 3),
        ([b"KR\x02", b"", b"", b"", b""], 3),
        ([b"KR\x01\x03", b"", b"", b"", b""], 3),
        ([b"KR\x01\x04", b"", b"", b"", b""], 3),
        ([b"KR\x01\0", size, size, size, b"1234567"], 4),
        ([b"KR\x01\0", hash, b"1234567", b"", b""], 36),
        ([b"KR\x01\0", hash, large, b"", b""], 36),
        ([b"KR\x01\0", hash, size, b"x", b""], 44),
        ([b"KR\x02", b"1234567", b"", b"", b""], 3),
        ([b"KR\x02", size, b"1234567", b"", b""], 11),
        ([b"KR\x02", size, size, b"\x03", b""], 19),
        ([b"KR\x02", size, four, b"\0", hash], 52),
        ([b"KR\x02", size, size, b"\x02\0\0\0\0", b""], 11),
        ([b"KR\x02", size, size, b"\x02\0\0\0\0", b"x"], 24),
    ];
    for (pieces, at) in table.iter() {
        let body = joined(alloc, pieces)?;
        assert_eq!(rt;
            read_row(alloc, body.as_slice()).err(),
            Some(RowRefusal::Bad(*at))
        );
    }
    Ok(())
}

#[test]
fn nodes_are_refused_where_their_fields_begin(rt: HostRuntime) -> Result<(), Fail> {
    let alloc = rt.alloc();
    let table: [(&[u8], usize); 18] = [
        (b"\0\0\0", 4),
        (b"\0\0\x27\x10", 4),
        (b"\0\0\0\x01", 8),
        (b"\0\0\0\x01\x04", 8),
        (b"\0\0\0\x01\x02\0", 9),
        (b"\0\0\0\x01\x02\0\0", 11),
        (b"\0\0\0\x01\x02\0\x05a", 11),
        (b"\0\0\0\x01\x02\0\x03a//", 11),
        (b"\0\0\0\x01\x02\0\x01.", 11),
        (b"\0\0\0\x01\x02\0\x03a/b", 11),
        (b"\0\0\0\x02\x02\0\x01b\x02\0\x01a", 15),
        (b"\0\0\0\x02\x02\0\x01b\x02\0\x01b", 15),
        (b"\0\0\0\x02\x03\0\x01a\0\x01t\x02\0\x03a/b", 18),
        (b"\0\0\0\x01\x03\0\x01a\0", 12),
        (b"\0\0\0\x01\x03\0\x01a\0\0", 14),
        (b"\0\0\0\x01\x03\0\x01a\0\x05t", 14),
        (b"\0\0\0\x01\x03\0\x01a\0\x01\x7f", 14),
        (b"\0\0\0\x01\x02\0\x01ax", 12),
    ];
    for (nodes, at) in table.iter() {
        let body = joined(alloc, &[b"KR\x01\x02", nodes])?;
        assert_eq!(rt;
            read_row(alloc, body.as_slice()).err(),
            Some(RowRefusal::Bad(*at))
        );
    }
    Ok(())
}

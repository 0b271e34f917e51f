use crate::{Flat, Kind, Tree, TreeRefusal, What};
use mat_digest::Digest;
use mat_path::{Path, Rel, Target};
use std::alloc::Global;
use std::test::Fail;

/// The rel of a text, `.` for the root.
fn rel_of(alloc: Global, text: &[u8]) -> Result<Rel, Fail> {
    if text == b".".as_slice() {
        return Ok(Rel::root(alloc));
    }
    let path = Path::read(alloc, text)?;
    Ok(Rel::of(alloc, path.names())?)
}

/// A node of one letter: `d` a directory, `l` a link, `f` a file of its rel's bytes, `x` the same and executable.
fn node_of(alloc: Global, letter: u8, text: &[u8]) -> Result<Flat, Fail> {
    let rel = rel_of(alloc, text)?;
    let what = match letter {
        b'd' => What::Dir,
        b'l' => What::Link(Target::read(alloc, b"../lib")?),
        _ => What::File {
            digest: Digest::of(text),
            exec: letter == b'x',
        },
    };
    Ok(Flat { rel, what })
}

/// The nodes of some rows.
fn nodes_of(alloc: Global, rows: &[(u8, &[u8])]) -> Result<Vec<Flat>, Fail> {
    let mut nodes = Vec::new(alloc);
    for (letter, text) in rows {
        nodes.push(node_of(alloc, *letter, text)?)?;
    }
    Ok(nodes)
}

/// The tree of some nodes.
fn tree_of(alloc: Global, nodes: &[Flat]) -> Result<Tree, TreeRefusal> {
    if !Flat::are_small(nodes) {
        return Err(TreeRefusal::NoMemory);
    }
    Tree::from_flat(alloc, nodes)
}

/// Why a list is no tree.
fn refusal_of(alloc: Global, nodes: &[Flat]) -> Option<TreeRefusal> {
    tree_of(alloc, nodes).err()
}

const FOLDERS: [(u8, &[u8]); 8] = [
    (b'd', b"."),
    (b'd', b"bin"),
    (b'x', b"bin/app"),
    (b'd', b"lib"),
    (b'l', b"lib/link"),
    (b'd', b"res"),
    (b'f', b"res/r0"),
    (b'f', b"res/r1"),
];

#[test]
fn a_file_is_a_tree(rt: HostRuntime) -> Result<(), Fail> {
    for letter in [b'f', b'x'] {
        let nodes = nodes_of(rt.alloc(), &[(letter, b".")])?;
        let tree = tree_of(rt.alloc(), nodes.as_slice())?;
        let copy = tree.copy()?;
        assert_eq!(rt; copy.nodes(), 1);
        assert_eq!(rt; copy.bytes(), 1);
        let kind = if letter == b'x' {
            Kind::Exec
        } else {
            Kind::File
        };
        assert_eq!(rt; copy.has(&[]), Some(Some(kind)));
        assert!(rt; tree.same(&copy));
        assert_eq!(rt; tree.sub(&[])?.is_some(), true);
    }
    Ok(())
}

#[test]
fn the_executable_flag_tells_files_apart(rt: HostRuntime) -> Result<(), Fail> {
    let plain = nodes_of(rt.alloc(), &[(b'f', b".")])?;
    let exec = nodes_of(rt.alloc(), &[(b'x', b".")])?;
    let folder = nodes_of(rt.alloc(), &[(b'd', b".")])?;
    let plain = tree_of(rt.alloc(), plain.as_slice())?;
    let exec = tree_of(rt.alloc(), exec.as_slice())?;
    let folder = tree_of(rt.alloc(), folder.as_slice())?;
    assert!(rt; !plain.same(&exec));
    assert!(rt; !plain.same(&folder));
    assert!(rt; folder.same(&folder));
    Ok(())
}

#[test]
fn roots_are_refused(rt: HostRuntime) -> Result<(), Fail> {
    let alloc = rt.alloc();
    assert_eq!(rt; refusal_of(alloc, &[]), Some(TreeRefusal::NoRoot));
    let link = nodes_of(alloc, &[(b'l', b".")])?;
    assert_eq!(rt;
        refusal_of(alloc, link.as_slice()),
        Some(TreeRefusal::RootLink)
    );
    let twice = nodes_of(alloc, &[(b'd', b"."), (b'd', b".")])?;
    assert_eq!(rt;
        refusal_of(alloc, twice.as_slice()),
        Some(TreeRefusal::Order(1))
    );
    let mut many = Vec::new(alloc);
    for _ in 0..10_001 {
        many.push(node_of(alloc, b'd', b".")?)?;
    }
    assert_eq!(rt;
        refusal_of(alloc, many.as_slice()),
        Some(TreeRefusal::TooMany)
    );
    many.truncate(10_000);
    assert_eq!(rt;
        refusal_of(alloc, many.as_slice()),
        Some(TreeRefusal::Order(1))
    );
    Ok(())
}

#[test]
fn a_tree_is_its_list(rt: HostRuntime) -> Result<(), Fail> {
    let alloc = rt.alloc();
    let nodes = nodes_of(alloc, &FOLDERS)?;
    let tree = tree_of(alloc, nodes.as_slice())?;
    assert_eq!(rt; tree.nodes(), 8);
    assert_eq!(rt; tree.bytes(), 19);
    let again = tree.flat()?;
    assert_eq!(rt; again.len(), 8);
    let back = tree_of(alloc, again.as_slice())?;
    assert!(rt; back.same(&tree));
    assert!(rt; tree.copy()?.same(&tree));
    Ok(())
}

#[test]
fn nodes_are_found_by_their_rels(rt: HostRuntime) -> Result<(), Fail> {
    let alloc = rt.alloc();
    let nodes = nodes_of(alloc, &FOLDERS)?;
    let tree = tree_of(alloc, nodes.as_slice())?;
    // the kind at a rel, and how many nodes the tree at it has
    let rows: [(&[u8], Option<Option<Kind>>, u64); 8] = [
        (b".", Some(Some(Kind::Dir)), 8),
        (b"bin", Some(Some(Kind::Dir)), 2),
        (b"bin/app", Some(Some(Kind::Exec)), 1),
        (b"bin/app/x", None, 0),
        (b"lib", Some(Some(Kind::Dir)), 2),
        (b"lib/link", Some(None), 0),
        (b"res/r1", Some(Some(Kind::File)), 1),
        (b"re", None, 0),
    ];
    for (text, kind, count) in rows {
        let rel = rel_of(alloc, text)?;
        assert_eq!(rt; tree.has(rel.names()), kind);
        let nodes = match tree.sub(rel.names())? {
            Some(part) => part.nodes(),
            None => 0,
        };
        assert_eq!(rt; nodes, count);
    }
    Ok(())
}

#[test]
fn the_first_fault_is_told(rt: HostRuntime) -> Result<(), Fail> {
    let alloc = rt.alloc();
    let rows: [(&[(u8, &[u8])], TreeRefusal); 6] = [
        (&[(b'd', b"a")], TreeRefusal::NoRoot),
        (
            &[(b'd', b"."), (b'd', b"b"), (b'd', b"a")],
            TreeRefusal::Order(2),
        ),
        (&[(b'd', b"."), (b'f', b"a/b")], TreeRefusal::Under(1)),
        (
            &[(b'd', b"."), (b'f', b"a"), (b'f', b"a/b")],
            TreeRefusal::Under(2),
        ),
        (
            &[(b'd', b"."), (b'f', b"a/b"), (b'd', b"a")],
            TreeRefusal::Order(2),
        ),
        (&[(b'f', b"."), (b'f', b"a")], TreeRefusal::Under(1)),
    ];
    for (list, refusal) in rows {
        let nodes = nodes_of(alloc, list)?;
        assert_eq!(rt; refusal_of(alloc, nodes.as_slice()), Some(refusal));
    }
    // by names `a/b` comes before `a-`, by text it would not
    let nodes = nodes_of(
        alloc,
        &[(b'd', b"."), (b'd', b"a"), (b'f', b"a/b"), (b'f', b"a-")],
    )?;
    assert_eq!(rt; refusal_of(alloc, nodes.as_slice()), None);
    Ok(())
}

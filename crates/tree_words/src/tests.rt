use crate::{Words, WordsRefusal, push_node, read_words, write_words};
use mat_path::{Memory, Rel};
use mat_tree::{Flat, Tree, TreeRefusal, What};
use std::test::Fail;

/// The words of a tree of 17 nodes, of which 12 are files. The digests are those of `abc`, `a`, `b` and `c`.
const WORDS: &[u8] = b"d . \
    d bin \
    x ba7816bf8f01cfea414140de5dae2223b00361a396177a9cb410ff61f20015ad:3 bin/app \
    x ca978112ca1bbdcafac231b39a23dc4da786eff8147c4e72b9807785afee48bb:1 bin/tool \
    d lib \
    l libapp.so.1 lib/libapp.so \
    f 3e23e8160039594a33894f6564e1b1348bbd7a0088d42c4acb73eeaed59c009d:1 lib/libapp.so.1 \
    d res \
    f 2e7d2c03a9507ae265ecf5b5356885a53393a2029d241394997265a1a25aefc6:1 res/r0 \
    f 2e7d2c03a9507ae265ecf5b5356885a53393a2029d241394997265a1a25aefc6:1 res/r1 \
    f 2e7d2c03a9507ae265ecf5b5356885a53393a2029d241394997265a1a25aefc6:1 res/r2 \
    f 2e7d2c03a9507ae265ecf5b5356885a53393a2029d241394997265a1a25aefc6:1 res/r3 \
    f 2e7d2c03a9507ae265ecf5b5356885a53393a2029d241394997265a1a25aefc6:1 res/r4 \
    f 2e7d2c03a9507ae265ecf5b5356885a53393a2029d241394997265a1a25aefc6:1 res/r5 \
    f 2e7d2c03a9507ae265ecf5b5356885a53393a2029d241394997265a1a25aefc6:1 res/r6 \
    f 2e7d2c03a9507ae265ecf5b5356885a53393a2029d241394997265a1a25aefc6:1 res/r7 \
    f 2e7d2c03a9507ae265ecf5b5356885a53393a2029d241394997265a1a25aefc6:1 res/r8";

// How many nodes of a tree are files.
fn files(tree: &Tree) -> Result<usize, Memory> {
    let nodes = tree.flat()?;
    Ok(
        nodes
            .iter()
            .filter(|node| matches!(node.what, What::File { .. }))
            .count(),
    )
}

#[test]
fn trees_are_written_as_they_were_read(rt: HostRuntime) -> Result<(), Fail> {
    let table: [(&[u8], u64, usize); 6] = [
        (WORDS, 17, 12),
        (b"d .", 1, 0),
        (
            b"x abababababababababababababababababababababababababababababababab:3 .",
            1,
            1,
        ),
        (
            b"f cdcdcdcdcdcdcdcdcdcdcdcdcdcdcdcdcdcdcdcdcdcdcdcdcdcdcdcdcdcdcdcd:0 .",
            1,
            1,
        ),
        (
            b"f abababababababababababababababababababababababababababababababab:67108864 .",
            1,
            1,
        ),
        (b"d . d a d a/b l ../.. a/b/l d a-b", 5, 0),
    ];
    for (text, nodes, files_there) in table.iter() {
        let tree = read_words(rt.alloc(), text)?;
        assert_eq!(rt; tree.nodes(), *nodes);
        assert_eq!(rt; files(&tree)?, *files_there);
        let words = write_words(rt.alloc(), &tree)?;
        assert_eq!(rt; words.as_slice(), *text);
    }
    Ok(())
}

#[test]
fn words_are_taken_one_by_one(rt: HostRuntime) -> Result<(), Fail> {
    let mut words = Words::of(b"d  a");
    assert_eq!(rt; words.next(), Some(b"d".as_slice()));
    assert_eq!(rt; words.next(), Some(b"".as_slice()));
    assert!(rt; !words.is_empty());
    assert_eq!(rt; words.next(), Some(b"a".as_slice()));
    assert!(rt; words.is_empty());
    assert_eq!(rt; words.next(), None);
    assert_eq!(rt; Words::of(b"a b").text(), Some(b"a b".as_slice()));
    Ok(())
}

#[test]
fn a_node_is_put_behind_a_text(rt: HostRuntime) -> Result<(), Fail> {
    let node = Flat {
        rel: Rel::read(rt.alloc(), b"a/b")?,
        what: What::Dir,
    };
    let mut out = Vec::from_slice(rt.alloc(), b"show ")?;
    push_node(&mut out, &node)?;
    assert_eq!(rt; out.as_slice(), b"show d a/b".as_slice());
    Ok(())
}

#[test]
fn faults_are_refused_in_their_order(rt: HostRuntime) -> Result<(), Fail> {
    let table: [(&[u8], WordsRefusal); 26] = [
        (b"", WordsRefusal::Word(0)),
        (b" ", WordsRefusal::Word(0)),
        (b"q .", WordsRefusal::Word(0)),
        (b"dd .", WordsRefusal::Word(0)),
        (b" d .", WordsRefusal::Word(0)),
        (b"f", WordsRefusal::Word(1)),
        (b"l", WordsRefusal::Word(1)),
        (b"d", WordsRefusal::Word(1)),
        (b"f abc .", WordsRefusal::Word(1)),
        (
            b"f abababababababababababababababababababababababababababababababab:67108865 .",
            WordsRefusal::Word(1),
        ),
        (
            b"f abababababababababababababababababababababababababababababababab:3",
            WordsRefusal::Word(2),
        ),
        (
            b"f abababababababababababababababababababababababababababababababab:3 a//b",
            WordsRefusal::Word(2),
        ),
        (b"l a\x7fb l", WordsRefusal::Word(1)),
        (b"l  l", WordsRefusal::Word(1)),
        (b"d  .", WordsRefusal::Word(1)),
        (b"d . ", WordsRefusal::Word(2)),
        (b"d . d a b", WordsRefusal::Word(4)),
        (b"d . d ..", WordsRefusal::Word(3)),
        (b"d a", WordsRefusal::Tree(TreeRefusal::NoRoot)),
        (b"l a .", WordsRefusal::Tree(TreeRefusal::RootLink)),
        (b"d . d .", WordsRefusal::Tree(TreeRefusal::Order(1))),
        (b"d . d b d a", WordsRefusal::Tree(TreeRefusal::Order(2))),
        (b"d . d a/b", WordsRefusal::Tree(TreeRefusal::Under(1))),
        (b"d . d a d b/c", WordsRefusal::Tree(TreeRefusal::Under(2))),
        (
            b"d . l t a d a/b",
            WordsRefusal::Tree(TreeRefusal::Under(2)),
        ),
        (b"d a d", WordsRefusal::Word(3)),
    ];
    for (text, refusal) in table.iter() {
        assert_eq!(rt; read_words(rt.alloc(), text).err(), Some(*refusal));
    }
    Ok(())
}

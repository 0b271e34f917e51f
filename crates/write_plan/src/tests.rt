ghost use Rattle.std.specs.Prelude.{◌≡◌, true, IfOk};
ghost use Rattle.write_plan.specs.Plans.{lends_at, may_lend};

use crate::{Act, Method, Origin, Supply, plan};
use mat_digest::Digest;
use mat_path::{Items, JoinRefusal, Memory, Path, Rel, Target};
use mat_tree::{Flat, Tree, What};
use std::alloc::Global;
use std::test::Fail;

/// A node at a rel.
fn node(alloc: Global, rel: &[u8], what: What) -> Result<Flat, Fail> {
    let rel = Rel::read(alloc, rel)?;
    Ok(Flat { rel, what })
}

/// A file of these bytes.
fn file(bytes: &[u8], exec: bool) -> What {
    let digest = Digest::of(bytes);
    What::File { digest, exec }
}

/// A directory with an executable file, an empty file, and a link.
fn tree(alloc: Global) -> Result<Tree, Fail> {
    let mut nodes = Vec::new(alloc);
    nodes.push(node(alloc, b".", What::Dir)?)?;
    nodes.push(node(alloc, b"app", file(b"abc", true))?)?;
    nodes.push(node(alloc, b"empty", file(b"", false))?)?;
    nodes.push(node(alloc, b"to", What::Link(Target::read(alloc, b"app")?))?)?;
    if !Flat::are_small(nodes.as_slice()) {
        return Err(Fail::from(Memory));
    }
    Ok(Tree::from_flat(alloc, nodes.as_slice())?)
}

/// An act in short: its letter, and where a file's bytes come from.
fn letters(act: &Act) -> &'static str {
    match act {
        Act::Wipe => "wipe",
        Act::Dir(_) => "dir",
        Act::Link(..) => "link",
        Act::File { from, .. } => match from {
            Supply::Empty => "empty",
            Supply::Held => "held",
            Supply::Store => "store",
            Supply::Loan(_) => "loan",
        },
        Act::Sync => "sync",
    }
}

/// A copy of what another row has at `bin`.
fn copied(alloc: Global, origin: Origin) -> Result<Method, Fail> {
    Ok(Method::Copy {
        source: Path::read(alloc, b"out")?,
        rest: Rel::read(alloc, b"bin")?,
        stamp: 3,
        origin,
    })
}

#[test]
#[tactic(auto, using(crate::proofs::Lending::unlent_may))]
fn parents_come_first_and_bytes_from_their_way(rt: HostRuntime) -> Result<(), Fail> {
    let alloc = rt.alloc();
    let tree = tree(alloc)?;
    let table = [
        (Method::Write(Items::of(Vec::new(alloc))), "held"),
        (Method::Fetch, "store"),
        (
            copied(alloc, Origin::Inline(Items::of(Vec::new(alloc))))?,
            "held",
        ),
        (copied(alloc, Origin::Store)?, "store"),
    ];
    for (method, from) in table.iter() {
        let acts = plan(alloc, &tree, method, false)?;
        let want = ["wipe", "dir", *from, "empty", "link", "sync"];
        assert_eq!(rt; acts.len(), want.len());
        for (place, act) in acts.iter().enumerate() {
            assert_eq!(rt; letters(act), want[place]);
        }
    }
    Ok(())
}

/// Whether a part that is lent has a rel for what stands at a rel of the tree.
fn lends_at(method: &Method, rel: &Rel) -> Result<bool, Memory>
    ensures { IfOk result (λ lends. lends ≡ lends_at method.now true rel.now) }
{
    match method {
        Method::Write(_) => Ok(false),
        Method::Fetch => Ok(false),
        Method::Copy { rest, .. } => match rest.join(rel) {
            Ok(_) => Ok(true),
            Err(JoinRefusal::Long) => Ok(false),
            Err(JoinRefusal::NoMemory) => Err(Memory),
        },
    }
}

/// The same for each of some nodes.
fn may_lend(method: &Method, nodes: &[Flat]) -> Result<bool, Memory>
    ensures { IfOk result (λ may. may ≡ may_lend method.now true nodes.now) }
{
    for node in nodes {
        if !lends_at(method, &node.rel)? {
            return Ok(false);
        }
    }
    Ok(true)
}

/// An act in words: for a file its rel, and for a loan the rel that is read.
fn words(alloc: Global, act: &Act) -> Result<Vec<u8>, Fail> {
    let mut text = Vec::from_slice(alloc, letters(act).as_bytes())?;
    if let Act::File { rel, from, .. } = act {
        text.push(b' ')?;
        text.extend_from_slice(rel.write()?.as_slice())?;
        if let Supply::Loan(place) = from {
            text.push(b' ')?;
            text.extend_from_slice(place.write()?.as_slice())?;
        }
    }
    Ok(text)
}

#[test]
fn a_lent_part_is_read_below_its_rest(rt: HostRuntime) -> Result<(), Fail> {
    let alloc = rt.alloc();
    let tree = tree(alloc)?;
    let method = copied(alloc, Origin::Store)?;
    if !may_lend(&method, tree.flat()?.as_slice())? {
        return Err(Fail::from(Memory));
    }
    let acts = plan(alloc, &tree, &method, true)?;
    let want: [&[u8]; 6] = [
        b"wipe",
        b"dir",
        b"loan app bin/app",
        b"empty empty",
        b"link",
        b"sync",
    ];
    assert_eq!(rt; acts.len(), want.len());
    for (act, words_wanted) in acts.iter().zip(want.iter()) {
        assert_eq!(rt; words(alloc, act)?.as_slice(), *words_wanted);
    }
    Ok(())
}

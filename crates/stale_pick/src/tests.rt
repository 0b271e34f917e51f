use crate::{Picked, Why, pick};
use mat_digest::Digest;
use mat_model::{Hold, Holding, Row};
use mat_path::{Path, Rel};
use mat_tree::{Flat, Kind, Sum, Tree, What};
use std::alloc::Global;
use std::test::Fail;

/// One hold.
#[derive(Drop)]
struct OneHold {
    hold: Hold,
}

impl Holding for OneHold {
    ghost use Rattle.std.specs.Prelude.{[], ◌∷◌};

    ghost holds = { λ one. one.hold ∷ [] };

    fn held(&self, path: &Path) -> bool {
        self.hold.path.overlaps(path)
    }
}

/// A row at a path, whose tree is a file of these bytes.
fn row(alloc: Global, path: &[u8], bytes: &[u8], stands: bool, last: u64) -> Result<Row, Fail> {
    let digest = Digest::of(bytes);
    let nodes = [Flat {
        rel: Rel::root(alloc),
        what: What::File {
            digest,
            exec: false,
        },
    }];
    if !Flat::are_small(&nodes) {
        return Err(Fail::from(mat_path::Memory));
    }
    let sum = Sum {
        kind: Kind::File,
        digest,
    };
    Ok(Row {
        path: Path::read(alloc, path)?,
        tree: Tree::from_flat(alloc, &nodes)?,
        sum,
        stamp: 1,
        stands,
        last,
    })
}

/// What is picked of rows of which one lies, one is held, and two were last used at 9 and at 10.
fn picked(alloc: Global, cutoff: u64) -> Result<Picked, Fail> {
    let rows = [
        row(alloc, b"a", b"12345", true, 9)?,
        row(alloc, b"b", b"12", false, 9)?,
        row(alloc, b"h/x", b"1", true, 9)?,
        row(alloc, b"u", b"123", true, 10)?,
    ];
    let holds = OneHold {
        hold: Hold {
            command: 1,
            path: Path::read(alloc, b"h")?,
        },
    };
    Ok(pick(alloc, &rows, &holds, cutoff)?)
}

/// What was picked in one text: path and bytes of each row that goes, path and reason of each that stays.
fn told(alloc: Global, picked: &Picked) -> Result<Vec<u8>, Fail> {
    let mut text = Vec::new(alloc);
    for gone in picked.gone.as_slice() {
        text.extend_from_slice(gone.path.write()?.as_slice())?;
        text.push((gone.bytes % 10) as u8 + b'0')?;
    }
    for spared in picked.kept.as_slice() {
        text.push(b' ')?;
        text.extend_from_slice(spared.path.write()?.as_slice())?;
        text.extend_from_slice(match spared.why {
            Why::NotStanding => b" lies",
            Why::Held => b" held",
            Why::Used => b" used",
        })?;
    }
    Ok(text)
}

#[test]
fn rows_are_picked(rt: HostRuntime) -> Result<(), Fail> {
    let alloc = rt.alloc();
    let table: [(u64, &[u8]); 3] = [
        (9, b" a used b lies h/x held u used"),
        (10, b"a5 b lies h/x held u used"),
        (11, b"a5u3 b lies h/x held"),
    ];
    for (cutoff, wanted) in table {
        let picked = picked(alloc, cutoff)?;
        assert_eq!(rt; told(alloc, &picked)?.as_slice(), wanted);
    }
    Ok(())
}

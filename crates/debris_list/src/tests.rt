use crate::DebrisList;
use mat_path::Path;
use std::alloc::Global;
use std::test::Fail;

/// What is done to a list of debris.
#[derive(Clone, Copy)]
enum Act {
    /// Adds debris where it may be added, condemned or not.
    Add(bool),
    Remove,
    Absorb,
    Above,
    Condemn(bool),
}

/// Adds debris, where there is room and it overlaps none.
fn added(list: &mut DebrisList, path: Path, condemned: bool) -> bool {
    if list.spare() == 0 || list.overlaps(&path) {
        return false;
    }
    list.add(path, condemned);
    true
}

/// Does it at a path, and gives its answer as a digit.
fn done(list: &mut DebrisList, act: Act, path: Path) -> u8 {
    match act {
        Act::Add(condemned) => added(list, path, condemned) as u8,
        Act::Remove => list.remove(&path) as u8,
        Act::Absorb => (list.absorb(&path) % 10) as u8,
        Act::Above => list.above(&path) as u8,
        Act::Condemn(condemned) => {
            list.condemn(&path, condemned);
            0
        }
    }
}

/// An answer and the list in one text: each path, with a mark where it is condemned, and behind a bar the first that is.
fn told(alloc: Global, answer: u8, list: &DebrisList) -> Result<Vec<u8>, Fail> {
    let mut text = Vec::new(alloc);
    text.push(b'0' + answer % 10)?;
    for k in 0..8 {
        if let Some((path, condemned)) = list.at(k) {
            text.push(b' ')?;
            text.extend_from_slice(path.write()?.as_slice())?;
            if condemned {
                text.push(b'!')?;
            }
        }
    }
    if let Some(path) = list.first_condemned() {
        text.extend_from_slice(b" | ")?;
        text.extend_from_slice(path.write()?.as_slice())?;
    }
    Ok(text)
}

#[test]
fn debris_comes_and_goes(rt: HostRuntime) -> Result<(), Fail> {
    let alloc = rt.alloc();
    let mut list = DebrisList::new(alloc);
    list.reserve(5)?;
    let table: [(Act, &[u8], &[u8]); 15] = [
        (Act::Add(false), b"b/c", b"1 b/c"),
        (Act::Add(true), b"b/e", b"1 b/c b/e! | b/e"),
        (Act::Add(false), b"a", b"1 a b/c b/e! | b/e"),
        (Act::Add(true), b"b", b"0 a b/c b/e! | b/e"),
        (Act::Add(true), b"b/d/x", b"1 a b/c b/d/x! b/e! | b/d/x"),
        (Act::Above, b"a/q", b"1 a b/c b/d/x! b/e! | b/d/x"),
        (Act::Above, b"a", b"0 a b/c b/d/x! b/e! | b/d/x"),
        (Act::Above, b"b/d", b"0 a b/c b/d/x! b/e! | b/d/x"),
        (Act::Condemn(true), b"a", b"0 a! b/c b/d/x! b/e! | a"),
        (Act::Condemn(false), b"a", b"0 a b/c b/d/x! b/e! | b/d/x"),
        (Act::Absorb, b"b/d", b"1 a b/c b/e! | b/e"),
        (Act::Absorb, b"a/q", b"0 a b/c b/e! | b/e"),
        (Act::Remove, b"b/e", b"1 a b/c"),
        (Act::Remove, b"b", b"0 a b/c"),
        (Act::Absorb, b"b", b"1 a"),
    ];
    for (act, path, wanted) in table {
        let path = Path::read(alloc, path)?;
        let answer = done(&mut list, act, path);
        assert_eq!(rt; told(alloc, answer, &list)?.as_slice(), wanted);
    }
    Ok(())
}

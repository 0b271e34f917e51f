use crate::{JoinRefusal, Memory, Name, Path, PathRefusal, Rel, Target, covering_of_rows_is_cut};
use std::alloc::{AllocError, Global};
use std::test::Fail;

/// The text of this many names of this many bytes each.
fn text_of(alloc: Global, names: usize, bytes: usize) -> Result<Vec<u8>, AllocError> {
    let mut text = Vec::new(alloc);
    for name in 0..names {
        if name > 0 {
            text.push(b'/')?;
        }
        for _ in 0..bytes {
            text.push(b'n')?;
        }
    }
    Ok(text)
}

/// Why a text is no path.
fn refusal(alloc: Global, text: &[u8]) -> Option<PathRefusal> {
    Path::read(alloc, text).err()
}

#[test]
fn faults_of_short_texts(rt: HostRuntime) -> Result<(), Fail> {
    let rows = [
        ("a//b", Some(PathRefusal::BadByte(2))),
        ("a/", Some(PathRefusal::BadByte(1))),
        ("/a", Some(PathRefusal::BadByte(0))),
        ("a/../b", Some(PathRefusal::Dots(2))),
        (".", Some(PathRefusal::Dots(0))),
        ("", Some(PathRefusal::Empty)),
        ("a b", Some(PathRefusal::BadByte(1))),
        ("../ ", Some(PathRefusal::Dots(0))),
        ("a/.b/c..", None),
    ];
    for (text, wanted) in rows {
        assert_eq!(rt; refusal(rt.alloc(), text.as_bytes()), wanted, "{text:?}");
    }
    Ok(())
}

#[test]
fn bounds_of_long_texts(rt: HostRuntime) -> Result<(), Fail> {
    let alloc = rt.alloc();
    let mut five = text_of(alloc, 5, 204)?;
    assert_eq!(rt; five.len(), 1024);
    assert_eq!(rt; refusal(alloc, five.as_slice()), None);
    five.push(b'n')?;
    assert_eq!(rt; refusal(alloc, five.as_slice()), Some(PathRefusal::Long));
    assert_eq!(rt; refusal(alloc, text_of(alloc, 64, 1)?.as_slice()), None);
    assert_eq!(rt;
        refusal(alloc, text_of(alloc, 65, 1)?.as_slice()),
        Some(PathRefusal::Long)
    );
    assert_eq!(rt; refusal(alloc, text_of(alloc, 1, 255)?.as_slice()), None);
    assert_eq!(rt;
        refusal(alloc, text_of(alloc, 1, 256)?.as_slice()),
        Some(PathRefusal::LongName(0))
    );
    Ok(())
}

#[test]
fn paths_are_written_and_joined(rt: HostRuntime) -> Result<(), Fail> {
    let alloc = rt.alloc();
    let path = Path::read(alloc, b"a/b")?;
    let rel = Rel::read(alloc, b"c/d")?;
    let joined = path.join(&rel)?;
    assert_eq!(rt; joined.write()?.as_slice(), b"a/b/c/d".as_slice());
    assert_eq!(rt; path.copy()?, path);
    assert!(rt; path < joined);
    assert!(rt; path.overlaps(&joined));
    assert_eq!(rt;
        Path::read(alloc, text_of(alloc, 5, 204)?.as_slice())?
            .join(&rel)
            .err(),
        Some(JoinRefusal::Long)
    );
    Ok(())
}

#[test]
fn rels_are_read_written_and_joined(rt: HostRuntime) -> Result<(), Fail> {
    let alloc = rt.alloc();
    let root = Rel::read(alloc, b".")?;
    assert_eq!(rt; root, Rel::root(alloc));
    assert_eq!(rt; root.write()?.as_slice(), b".".as_slice());
    let rel = Rel::read(alloc, b"c/d")?;
    assert_eq!(rt; root.join(&rel)?.write()?.as_slice(), b"c/d".as_slice());
    assert_eq!(rt; Rel::of(alloc, rel.names())?, rel.copy()?);
    assert_eq!(rt; Rel::read(alloc, b"..").err(), Some(PathRefusal::Dots(0)));
    Ok(())
}

#[test]
fn names_and_targets_are_read(rt: HostRuntime) -> Result<(), Fail> {
    let alloc = rt.alloc();
    let name = Name::read(alloc, b"..a")?;
    assert_eq!(rt; name.copy()?.bytes(), b"..a".as_slice());
    assert_eq!(rt;
        Name::read(alloc, b"../").err(),
        Some(PathRefusal::BadByte(2))
    );
    assert_eq!(rt; Name::read(alloc, b"..").err(), Some(PathRefusal::Dots(0)));
    let target = Target::read(alloc, b"/../x")?;
    assert_eq!(rt; target.copy()?.bytes(), b"/../x".as_slice());
    assert_eq!(rt;
        Target::read(alloc, b"a b").err(),
        Some(PathRefusal::BadByte(1))
    );
    assert_eq!(rt;
        Target::read(alloc, text_of(alloc, 5, 204)?.as_slice())?
            .bytes()
            .len(),
        1024
    );
    Ok(())
}

#[test]
fn the_law_of_cut_rows_is_called(_rt: HostRuntime) -> Result<(), Fail> {
    covering_of_rows_is_cut::<u8>();
    Ok(())
}

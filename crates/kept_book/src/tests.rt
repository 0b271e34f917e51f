use crate::KeptBook;
use mat_path::Path;
use std::alloc::Global;
use std::test::Fail;

/// What a step does to the book.
#[derive(Drop)]
enum Step {
    Put(&'static [u8]),
    Reserve(&'static [u8]),
    Release(&'static [u8]),
    Remove(&'static [u8]),
}

/// Does a step, and says whether a mark was removed.
fn carry_out(alloc: Global, book: &mut KeptBook, step: &Step) -> Result<bool, Fail> {
    match step {
        Step::Put(path) => {
            book.put(&Path::read(alloc, path)?, 7, true)?;
            Ok(false)
        }
        Step::Reserve(path) => {
            book.reserve(&Path::read(alloc, path)?)?;
            Ok(false)
        }
        Step::Release(path) => {
            book.release(&Path::read(alloc, path)?);
            Ok(false)
        }
        Step::Remove(path) => Ok(book.remove(&Path::read(alloc, path)?)),
    }
}

/// How many marks overlap a path.
fn count_over(alloc: Global, book: &KeptBook, path: &[u8]) -> Result<usize, Fail> {
    Ok(book.overlapping(&Path::read(alloc, path)?)?.len())
}

#[test]
fn marks_and_places_come_and_go(rt: HostRuntime) -> Result<(), Fail> {
    let alloc = rt.alloc();
    let mut book = KeptBook::new(alloc);
    // the step, whether a mark is removed, how many marks overlap out/a then, and how many there are
    let table = [
        (Step::Put(b"out/a/b"), false, 1, 1),
        (Step::Reserve(b"out/a/b"), false, 1, 1),
        (Step::Reserve(b"out/a/c"), false, 1, 1),
        (Step::Put(b"out"), false, 2, 2),
        (Step::Put(b"out/b"), false, 2, 3),
        (Step::Remove(b"out/a/b"), true, 1, 2),
        (Step::Remove(b"out/a/b"), false, 1, 2),
        (Step::Put(b"out/a/c"), false, 2, 3),
        (Step::Release(b"out/a/c"), false, 2, 3),
        (Step::Release(b"out/a/b"), false, 2, 3),
    ];
    for (what, was, over, all) in table.as_slice() {
        assert_eq!(rt; carry_out(alloc, &mut book, what)?, *was);
        assert_eq!(rt; count_over(alloc, &book, b"out/a")?, *over);
        assert_eq!(rt; book.len(), *all);
    }
    assert_eq!(rt; book.get(&Path::read(alloc, b"out/a/c")?), Some((7, true)));
    assert_eq!(rt; book.get(&Path::read(alloc, b"out/a/b")?), None);
    Ok(())
}

use crate::HolderBook;
use mat_model::Holding;
use mat_path::Path;
use std::alloc::Global;
use std::test::Fail;

/// What a step does to the book.
#[derive(Drop)]
enum Step {
    Hold(u32, &'static [u8]),
    Undo,
    DropAll(u32),
}

/// Whether a path is held, through the bound.
fn is_held<H: Holding>(alloc: Global, book: &H, path: &[u8]) -> Result<bool, Fail> {
    Ok(book.held(&Path::read(alloc, path)?))
}

/// Does a step, and says whether a hold was new.
fn carry_out(alloc: Global, book: &mut HolderBook, step: &Step) -> Result<bool, Fail> {
    match step {
        Step::Hold(command, path) => Ok(book.hold(*command, &Path::read(alloc, path)?)?),
        Step::Undo => {
            if book.count() > 0 {
                book.undo();
            }
            Ok(false)
        }
        Step::DropAll(command) => {
            book.drop_all(*command);
            Ok(false)
        }
    }
}

#[test]
fn holds_come_and_go(rt: HostRuntime) -> Result<(), Fail> {
    let alloc = rt.alloc();
    let mut book = HolderBook::new(alloc);
    // the step, whether it is a new hold, how many holds there are then, and whether out/a/b is held
    let table = [
        (Step::Hold(1, b"out/a"), true, 1, true),
        (Step::Hold(1, b"out/a"), false, 1, true),
        (Step::Hold(2, b"out/a"), true, 2, true),
        (Step::Hold(1, b"out/c"), true, 3, true),
        (Step::DropAll(1), false, 1, true),
        (Step::Undo, false, 0, false),
        (Step::Hold(3, b"out/a/b/c"), true, 1, true),
        (Step::Hold(3, b"out/a/c"), true, 2, true),
    ];
    for (what, new, count, held) in table.as_slice() {
        assert_eq!(rt; carry_out(alloc, &mut book, what)?, *new);
        assert_eq!(rt; book.count(), *count);
        assert_eq!(rt; is_held(alloc, &book, b"out/a/b")?, *held);
    }
    assert_eq!(rt; book.at(1).map(|seen| seen.0), Some(3));
    assert!(rt; book.at(2).is_none());
    Ok(())
}

use crate::{RowBook, Stock, changes_are_in_step, held_is_in_step, held_of, rows_are_in_step};
use mat_digest::Digest;
use mat_model::Row;
use mat_path::{Items, Path, Rel};
use mat_tree::{Flat, Kind, Sum, Tree, What};
use std::alloc::Global;
use std::test::Fail;
use write_plan::Method;

/// What a step does to the book.
#[derive(Clone, Copy)]
enum Step {
    /// Declares a file of these bytes, which the row holds or doesn't.
    Declare(&'static [u8], &'static [u8], bool),
    /// Takes all away that overlap a path.
    Clear(&'static [u8]),
    Remove(&'static [u8]),
    /// Fetches the bytes of a row from now on.
    Fetch(&'static [u8]),
}

/// The tree of a file of these bytes.
fn tree(alloc: Global, bytes: &[u8]) -> Result<Tree, Fail> {
    let nodes = [Flat {
        rel: Rel::root(alloc),
        what: What::File {
            digest: Digest::of(bytes),
            exec: false,
        },
    }];
    if !Flat::are_small(&nodes) {
        return Err(Fail::from(mat_path::Memory));
    }
    Ok(Tree::from_flat(alloc, &nodes)?)
}

/// A method that holds some bytes.
fn held(alloc: Global, bytes: &[u8]) -> Result<Method, Fail> {
    Ok(Method::Write(Items::of(Vec::from_slice(alloc, bytes)?)))
}

/// A row of a file of these bytes.
fn stock(alloc: Global, path: &[u8], bytes: &[u8], holds: bool) -> Result<Stock, Fail> {
    let row = Row {
        path: Path::read(alloc, path)?,
        tree: tree(alloc, bytes)?,
        sum: Sum {
            kind: Kind::File,
            digest: Digest::of(bytes),
        },
        stamp: 1,
        stands: false,
        last: 0,
    };
    let method = if holds {
        held(alloc, bytes)?
    } else {
        Method::Fetch
    };
    Ok(Stock {
        row,
        method,
        dirty: false,
    })
}

/// Declares a row, and says how many went.
fn declare(book: &mut RowBook, stock: Stock) -> Result<usize, Fail> {
    held_is_in_step();
    if held_of(&stock) > u64::MAX - book.held_bytes() {
        return Err(Fail::from(mat_path::Memory));
    }
    match book.declare(stock) {
        Ok(removed) => Ok(removed.len()),
        Err(_) => Err(Fail::from(mat_path::Memory)),
    }
}

/// Fetches the bytes of a row from now on, so that none are held for it.
fn release(book: &mut RowBook, path: &Path) {
    held_is_in_step();
    let _held = book.held_bytes();
    book.take_method(path, Method::Fetch);
}

/// Does a step, and says how many rows went.
fn carry_out(alloc: Global, book: &mut RowBook, step: Step) -> Result<usize, Fail> {
    match step {
        Step::Declare(path, bytes, holds) => declare(book, stock(alloc, path, bytes, holds)?),
        Step::Clear(path) => Ok(book.remove_overlapping(&Path::read(alloc, path)?)?.len()),
        Step::Remove(path) => match book.remove(&Path::read(alloc, path)?) {
            Some(_) => Ok(1),
            None => Ok(0),
        },
        Step::Fetch(path) => {
            release(book, &Path::read(alloc, path)?);
            Ok(0)
        }
    }
}

/// Does a step, and says how many rows went, how many there are then, and how many bytes are held.
fn counts_after(
    alloc: Global,
    book: &mut RowBook,
    step: Step,
) -> Result<(usize, usize, u64), Fail> {
    let gone = carry_out(alloc, book, step)?;
    Ok((gone, book.len(), book.held_bytes()))
}

/// The last use of the row that covers a path, whether it stands, and whether it is dirty.
fn state_of(found: Option<&Stock>) -> (u64, bool, bool) {
    match found {
        Some(stock) => (stock.row.last, stock.row.stands, stock.dirty),
        None => (0, false, false),
    }
}

/// How many rows overlap a path, by a walk of at most two steps.
fn walk(book: &RowBook, path: &Path) -> usize {
    match book.overlapping_from(path, None) {
        None => 0,
        Some(first) => match book.overlapping_from(path, Some(&first.row.path)) {
            None => 1,
            Some(_) => 2,
        },
    }
}

#[test]
fn rows_come_and_go(rt: HostRuntime) -> Result<(), Fail> {
    let alloc = rt.alloc();
    let mut book = RowBook::new(alloc);
    let table = [
        (Step::Declare(b"out/a", b"abc", true), (0, 1, 3)),
        (Step::Declare(b"out/b", b"abcde", false), (0, 2, 3)),
        (Step::Declare(b"out", b"ab", true), (2, 1, 2)),
        (Step::Declare(b"out/c/d", b"xyz", true), (1, 1, 3)),
        (Step::Declare(b"out/e", b"four", true), (0, 2, 7)),
        (Step::Fetch(b"out/e"), (0, 2, 3)),
        (Step::Clear(b"out/c"), (1, 1, 0)),
        (Step::Remove(b"out/e"), (1, 0, 0)),
    ];
    for (step, counts) in table {
        assert_eq!(rt; counts_after(alloc, &mut book, step)?, counts);
    }
    Ok(())
}

#[test]
fn a_row_is_changed_where_it_is(rt: HostRuntime) -> Result<(), Fail> {
    let alloc = rt.alloc();
    let mut book = RowBook::new(alloc);
    let path = Path::read(alloc, b"out/a")?;
    let above = Path::read(alloc, b"out")?;
    declare(&mut book, stock(alloc, b"out/a", b"abc", true)?)?;
    book.set_dirty(&path, true);
    book.touch(&path, 7);
    assert_eq!(rt; state_of(book.get(&path)), (7, false, true));
    book.stand(&path);
    assert_eq!(rt; state_of(book.cover_free(&path)), (7, true, false));
    assert_eq!(rt; state_of(book.first_behind(Some(&above))), (7, true, false));
    assert!(rt; book.overlaps(&above));
    assert_eq!(rt; walk(&book, &above), 1);
    Ok(())
}

#[test]
fn laws_do_nothing(rt: HostRuntime) -> Result<(), Fail> {
    RowBook::new(rt.alloc()).is_in_order();
    rows_are_in_step();
    changes_are_in_step();
    Ok(())
}

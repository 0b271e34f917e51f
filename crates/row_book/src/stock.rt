ghost use Rattle.std.specs.Prelude.{◌≡◌};
ghost use Rattle.mat_model.specs.Rows.{covers};
ghost use Rattle.row_book.specs.Stocks.{held_of, is_held_method, is_held_origin};

use mat_model::Row;
use mat_path::Path;
use write_plan::{Method, Origin};

/// A row, and what the daemon keeps beside it.
#[derive(Debug, Drop)]
pub struct Stock {
    pub row: Row,
    /// Where the bytes of the row's files come from.
    pub method: Method,
    /// Whether its last make failed.
    pub dirty: bool,
}

// Whether a row covers a path.
pub(crate) fn covers(row: &Row, path: &Path) -> bool
    ensures { result ≡ covers path.now row.now }
{
    match row.path.below(path) {
        Some(rest) => row.tree.has(rest).is_some(),
        None => false,
    }
}

// Whether the daemon holds the bytes of a copied row.
fn is_held_origin(origin: &Origin) -> bool
    ensures { result ≡ is_held_origin origin.now }
{
    match origin {
        Origin::Inline(_) => true,
        Origin::Store => false,
    }
}

// Whether the daemon holds the bytes of a row of this method.
fn is_held_method(method: &Method) -> bool
    ensures { result ≡ is_held_method method.now }
{
    match method {
        Method::Write(_) => true,
        Method::Fetch => false,
        Method::Copy { origin, .. } => is_held_origin(origin),
    }
}

/// How many bytes the daemon holds for a row: those of its files, where its method holds them. Takes no memory.
pub fn held_of(stock: &Stock) -> u64
    ensures { result ≡ held_of stock.now }
{
    if is_held_method(&stock.method) {
        stock.row.tree.bytes()
    } else {
        0
    }
}

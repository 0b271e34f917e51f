// What is declared at a source is declared elsewhere.
ghost use Rattle.std.specs.Prelude.{◌≡◌, true, find, IfOk, Some};
ghost use Rattle.std.specs.List.{list_all};
ghost use Rattle.mat_path.specs.Names.{is_prefix, is_rel};
ghost use Rattle.mat_tree.specs.Trees.{is_placed};
ghost use Rattle.mat_model.specs.declared.requests.Asked.TheVariants as asked;
ghost use Rattle.mat_core.specs.Copying.{copied_at, copied_in, copy_of, origin_in};
ghost use Rattle.mat_core.specs.Replacing.{AreRuled};
ghost use Rattle.mat_core.specs.Served.{Serves};

use crate::parts::Parts;
use mat_model::{Limit, Reply};
use mat_path::{Items, Memory, Name, Path, Rel};
use mat_tree::Tree;
use row_book::{RowBook, Stock};
use std::alloc::Global;
use write_plan::{Method, Origin};

/// A tree that is copied, and where the bytes of its files come from.
#[derive(Debug, Drop)]
pub struct Copied {
    pub tree: Tree,
    pub way: Method,
}

// Some bytes once more.
pub(crate) fn copy_bytes(alloc: Global, bytes: &[u8]) -> Result<Items<u8>, Memory>
    ensures { IfOk result (λ copy. copy ≡ bytes.now) }
{
    let mut copy = Vec::new(alloc);
    copy.extend_from_slice(bytes)?;
    Ok(Items::of(copy))
}

// Where the bytes of a copied row come from, once more.
pub(crate) fn copy_origin(alloc: Global, origin: &Origin) -> Result<Origin, Memory>
    ensures { IfOk result (λ copy. copy ≡ origin.now) }
{
    match origin {
        Origin::Inline(bytes) => Ok(Origin::Inline(copy_bytes(alloc, bytes.as_slice())?)),
        Origin::Store => Ok(Origin::Store),
    }
}

// Where the bytes of a copy come from, if nothing is lent.
fn origin_of(alloc: Global, method: &Method) -> Result<Origin, Memory>
    ensures { IfOk result (λ origin. origin ≡ origin_in method.now) }
{
    match method {
        Method::Write(bytes) => Ok(Origin::Inline(copy_bytes(alloc, bytes.as_slice())?)),
        Method::Fetch => Ok(Origin::Store),
        Method::Copy { origin, .. } => copy_origin(alloc, origin),
    }
}

// The method of a copy of what a row has at a rel.
fn method_from(alloc: Global, stock: &Stock, rest: &[Name]) -> Result<Method, Memory>
    requires { is_rel rest.now ≡ true }
    ensures { IfOk result (λ way. way ≡ copy_of stock.now rest.now) }
{
    let source = stock.row.path.copy()?;
    let rest = Rel::of(alloc, rest)?;
    let origin = origin_of(alloc, &stock.method)?;
    Ok(Method::Copy {
        source,
        rest,
        stamp: stock.row.stamp,
        origin,
    })
}

// What a row that covers a source has there, if that is no link.
fn copied_from(alloc: Global, stock: &Stock, source: &Path) -> Result<Option<Copied>, Memory>
    requires { is_prefix stock.now.row.path source.now ≡ true }
    ensures { IfOk result (λ found. found ≡ copied_at source.now stock.now) }
{
    let _names = source.names();
    let Some(rest) = stock.row.path.below(source) else {
        return Ok(None);
    };
    match stock.row.tree.sub(rest)? {
        Some(tree) => {
            let way = method_from(alloc, stock, rest)?;
            Ok(Some(Copied { tree, way }))
        }
        None => Ok(None),
    }
}

// What is copied from a source, where something is declared there that isn't a link.
fn find_copy(alloc: Global, rows: &RowBook, source: &Path) -> Result<Option<Copied>, Memory>
    ensures { IfOk result (λ found. found ≡ copied_in rows.now source.now) }
{
    match rows.cover_free(source) {
        Some(stock) => copied_from(alloc, stock, source),
        None => Ok(None),
    }
}

// Whether each node of a tree is at a path below this one.
fn is_placed(path: &Path, tree: &Tree) -> Result<bool, Memory>
    ensures { IfOk result (λ fits. fits ≡ list_all (is_placed path.now) tree.now) }
{
    let nodes = tree.flat()?;
    Ok(nodes.iter().all(|node| path.can_join(&node.rel)))
}

impl<D, K> Parts<D, K> {
    /// What is declared at a source is declared at a path.
    pub fn serve_copy(&mut self, number: u64, command: u32, path: Path, source: &Path) -> Reply
        requires { AreRuled number self.old }
        ensures { Serves number (asked.Copy command path source.now) result self.old self.new }
    {
        if self.lacks_entries(1) {
            return Reply::Full(Limit::History);
        }
        if !self.gate.is_live(command) {
            return self.if_room(1, Reply::NotLive);
        }
        let Ok(found) = find_copy(*self.history.allocator(), &self.rows, source) else {
            return Reply::NoMemory;
        };
        let Some(Copied { tree, way }) = found else {
            return self.if_room(1, Reply::NoSource);
        };
        let Ok(fits) = is_placed(&path, &tree) else {
            return Reply::NoMemory;
        };
        if !fits {
            return self.if_room(1, Reply::TooLong);
        }
        if let Some(limit) = self.full_nodes(tree.nodes()) {
            return Reply::Full(limit);
        }
        self.declare(number, command, path, tree, way)
    }
}

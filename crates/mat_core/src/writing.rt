// Files are written.
ghost use Rattle.std.specs.Prelude.{◌≡◌, ◌+◌, ◌&&◌, false, true, not, nat_lt, find, length, IfOk, None, Some};
ghost use Rattle.std.specs.Option.{option_map};
ghost use Rattle.mat_digest.specs.Digests.{digest_of};
ghost use Rattle.mat_tree.specs.Trees.{file_sum, same_tree};
ghost use Rattle.mat_model.specs.declared.requests.Asked.{Asked as TheAsked};
ghost use Rattle.mat_model.specs.declared.requests.Asked.TheVariants as asked;
ghost use Rattle.mat_model.specs.Declarations.{written_tree};
ghost use Rattle.row_book.specs.Stocks.{held_bytes, is_held_method};
ghost use Rattle.mat_core.specs.Declaring.{full_nodes};
ghost use Rattle.mat_core.specs.Replacing.{AreRuled};
ghost use Rattle.mat_core.specs.Served.{Serves};
ghost use Rattle.mat_core.specs.Writing.{IsWriting, lies_equal, lying_of};

use crate::parts::Parts;
use mat_digest::Digest;
use mat_model::{Limit, Reply};
use mat_path::{Items, Memory, Path, Rel};
use mat_tree::{Flat, Tree, What};
use row_book::{RowBook, Stock, held_of};
use std::alloc::Global;
use write_plan::Method;

// The tree of the file of some bytes that isn't executable.
fn plain_tree(alloc: Global, bytes: &[u8]) -> Result<Tree, Memory>
    ensures { IfOk result (λ tree. tree ≡ written_tree (file_sum (digest_of bytes.now) false)) }
{
    let node = Flat {
        rel: Rel::root(alloc),
        what: What::File {
            digest: Digest::of(bytes),
            exec: false,
        },
    };
    let nodes = [node];
    // No request asks for a file above the limit.
    if !Flat::are_small(&nodes) {
        return Err(Memory);
    }
    match Tree::from_flat(alloc, &nodes) {
        Ok(tree) => Ok(tree),
        Err(_) => Err(Memory),
    }
}

// A row that doesn't stand: its stamp, how many bytes are held for it, and how many its files have.
#[derive(Clone, Copy, Debug)]
pub struct Lying {
    pub stamp: u64,
    pub held: u64,
    pub bytes: u64,
}

// Whether a stock's row has a tree and doesn't stand.
fn lies_with(stock: &Stock, tree: &Tree) -> bool
    ensures { result ≡ (same_tree stock.now.row.tree tree.now && not stock.now.row.stands) }
{
    stock.row.tree.same(tree) && !stock.row.stands
}

// The row at a path that has a tree already and doesn't stand.
fn lying_row(rows: &RowBook, path: &Path, tree: &Tree) -> Option<Lying>
    ensures { result ≡ option_map lying_of (find (lies_equal path.now tree.now) rows.now) }
{
    rows.is_in_order();
    match rows.get(path) {
        None => None,
        Some(stock) => {
            if lies_with(stock, tree) {
                return Some(Lying {
                    stamp: stock.row.stamp,
                    held: held_of(stock),
                    bytes: stock.row.tree.bytes(),
                });
            }
            None
        }
    }
}

impl<D, K> Parts<D, K> {
    /// The file of some bytes is written.
    pub fn serve_write(&mut self, number: u64, command: u32, path: Path, bytes: Vec<u8>) -> Reply
        requires { AreRuled number self.old }
        ensures { Serves number (asked.Write command path (file_sum (digest_of bytes.items) false)) result self.old self.new }
    {
        if let Some(limit) = self.full_nodes(1) {
            return Reply::Full(limit);
        }
        if !self.gate.is_live(command) {
            self.count_nodes(1);
            return Reply::NotLive;
        }
        let Ok(tree) = plain_tree(*self.history.allocator(), bytes.as_slice()) else {
            return Reply::NoMemory;
        };
        let method = Method::Write(Items::of(bytes));
        match lying_row(&self.rows, &path, &tree) {
            Some(lying) => self.keep_bytes(number, command, &path, &tree, method, lying),
            None => self.declare(number, command, path, tree, method),
        }
    }

    // Whether more bytes would be held than may be, once a row's are held that doesn't stand.
    fn full_bytes(&self, lying: &Lying) -> bool
        ensures { result ≡ nat_lt (self.now.base.limits.held + lying.now.held) (held_bytes self.now.rows + lying.now.bytes) }
    {
        let bytes = self.rows.held_bytes() as u128 + lying.bytes as u128;
        (self.base.limits.held as u128) + (lying.held as u128) < bytes
    }

    // The row at a path has the tree that is written, and doesn't stand: it keeps its stamp, and takes the bytes.
    fn keep_bytes(
        &mut self,
        number: u64,
        command: u32,
        path: &Path,
        tree: &Tree,
        method: Method,
        lying: Lying,
    ) -> Reply
        requires rules { AreRuled number self.old }
        requires room { full_nodes self.old (length tree.now) ≡ None }
        requires holds { is_held_method method ≡ true }
        requires found { option_map lying_of (find (lies_equal path.now tree.now) self.old.rows) ≡ Some lying }
        ensures { (request : TheAsked) → IsWriting request number command path.now tree.now method self.old → Serves number request result self.old self.new }
    {
        if self.full_bytes(&lying) {
            return Reply::Full(Limit::Held);
        }
        if let Some(limit) = self.full_grant(command, path, false) {
            return Reply::Full(limit);
        }
        let Ok(()) = self.grant(command, path, path) else {
            return Reply::NoMemory;
        };
        self.rows.take_method(path, method);
        self.count_nodes(tree.nodes());
        Reply::Kept(lying.stamp)
    }
}

// Trees are declared.
ghost use Rattle.std.specs.Prelude.{◌≡◌, ◌+◌, ℕ, nat_lt, false, filter, find, length, None, Some};
ghost use Rattle.std.specs.Option.{option_map};
ghost use Rattle.mat_model.specs.declared.requests.Asked.{Asked as TheAsked};
ghost use Rattle.mat_model.specs.declared.requests.Asked.TheVariants as asked;
ghost use Rattle.write_plan.specs.declared.method.Method.{Method as TheMethod};
ghost use Rattle.mat_model.specs.Declarations.{is_equal_row};
ghost use Rattle.mat_model.specs.WorkState.{stamp_of};
ghost use Rattle.row_book.specs.Stocks.{held_bytes, is_held_origin, overlaps_stock, rows_of};
ghost use Rattle.mat_core.specs.Books.{book_in};
ghost use Rattle.mat_core.specs.Declaring.{IsDeclaring, full_nodes};
ghost use Rattle.mat_core.specs.Falling.{fall_of};
ghost use Rattle.mat_core.specs.Replacing.{AreRuled, full_replaced, held_by};
ghost use Rattle.mat_core.specs.Rooms.{full_grant};
ghost use Rattle.mat_core.specs.Served.{Serves};

use crate::falling::{Fall, fall_at, one_if};
use crate::parts::Parts;
use mat_model::{Limit, Reply, Row};
use mat_path::Path;
use mat_tree::Tree;
use reapi_dir::sum_of;
use row_book::{RowBook, Stock};
use write_plan::{Method, Origin};

// Whether the daemon holds the bytes of a copied row.
fn is_held_origin(origin: &Origin) -> bool
    ensures { result ≡ is_held_origin origin.now }
{
    match origin {
        Origin::Inline(_) => true,
        Origin::Store => false,
    }
}

// How many bytes the daemon holds for a tree with a method.
fn held_by(method: &Method, tree: &Tree) -> u64
    ensures { result ≡ held_by method.now tree.now }
{
    match method {
        Method::Write(_) => tree.bytes(),
        Method::Fetch => 0,
        Method::Copy { origin, .. } => {
            if is_held_origin(origin) {
                return tree.bytes();
            }
            0
        }
    }
}

// The stamp of the row at a path that has a tree already.
fn equal_row(rows: &RowBook, path: &Path, tree: &Tree) -> Option<u64>
    ensures { result ≡ option_map stamp_of (find (is_equal_row path.now tree.now) (rows_of rows.now)) }
{
    rows.is_in_order();
    match rows.get(path) {
        None => None,
        Some(stock) => {
            if stock.row.tree.same(tree) {
                return Some(stock.row.stamp);
            }
            None
        }
    }
}

impl<D, K> Parts<D, K> {
    // The limit of entries or of nodes that would be passed by an entry that declares so many nodes.
    pub(crate) fn full_nodes(&self, nodes: u64) -> Option<Limit>
        ensures { result ≡ full_nodes self.now nodes }
    {
        if self.lacks_entries(1) {
            return Some(Limit::History);
        }
        if (self.base.limits.nodes as u128) < self.nodes as u128 + nodes as u128 {
            return Some(Limit::Nodes);
        }
        None
    }

    // So many nodes more are declared, for which there is room.
    pub(crate) fn count_nodes(&mut self, nodes: u64)
        requires { nat_lt self.old.base.limits.nodes (self.old.nodes + nodes) ≡ false }
        ensures { self.new ≡ record self.old { nodes = self.old.nodes + nodes } }
    {
        let _most = self.base.limits.nodes;
        self.nodes += nodes;
    }

    /// A tree is declared whose files come from the store.
    pub fn serve_declare(&mut self, number: u64, command: u32, path: Path, tree: Tree) -> Reply
        requires { AreRuled number self.old }
        ensures { Serves number (asked.Declare command path tree) result self.old self.new }
    {
        let nodes = tree.nodes();
        if let Some(limit) = self.full_nodes(nodes) {
            return Reply::Full(limit);
        }
        if !self.gate.is_live(command) {
            self.count_nodes(nodes);
            return Reply::NotLive;
        }
        self.declare(number, command, path, tree, Method::Fetch)
    }

    // A tree is declared at a path by a live command, where there is room for the entry and the nodes.
    pub(crate) fn declare(
        &mut self,
        number: u64,
        command: u32,
        path: Path,
        tree: Tree,
        method: Method,
    ) -> Reply
        requires rules { AreRuled number self.old }
        requires room { full_nodes self.old (length tree) ≡ None }
        ensures { (request : TheAsked) → IsDeclaring request number command path tree method self.old → Serves number request result self.old self.new }
    {
        match equal_row(&self.rows, &path, &tree) {
            Some(stamp) => self.keep(command, &path, &tree, stamp),
            None => self.put(number, command, path, tree, method),
        }
    }

    // The row at a path has the tree that is declared: it keeps its stamp.
    fn keep(&mut self, command: u32, path: &Path, tree: &Tree, stamp: u64) -> Reply
        requires room { full_nodes self.old (length tree.now) ≡ None }
        requires found { option_map stamp_of (find (is_equal_row path.now tree.now) (rows_of self.old.rows)) ≡ Some stamp }
        ensures { (number : ℕ) (request : TheAsked) (way : TheMethod) → IsDeclaring request number command path.now tree.now way self.old → Serves number request result self.old self.new }
    {
        if let Some(limit) = self.full_grant(command, path, false) {
            return Reply::Full(limit);
        }
        let Ok(()) = self.grant(command, path, path) else {
            return Reply::NoMemory;
        };
        self.count_nodes(tree.nodes());
        Reply::Kept(stamp)
    }

    // A new row takes the place of those that overlap its path.
    fn put(&mut self, number: u64, command: u32, path: Path, tree: Tree, method: Method) -> Reply
        requires rules { AreRuled number self.old }
        requires room { full_nodes self.old (length tree) ≡ None }
        requires new { find (is_equal_row path tree) (rows_of self.old.rows) ≡ None }
        ensures { (request : TheAsked) → IsDeclaring request number command path tree method self.old → Serves number request result self.old self.new }
    {
        let fall = fall_at(&self.rows, &self.kept, &path);
        if let Some(limit) = self.full_replace(&fall, held_by(&method, &tree)) {
            return Reply::Full(limit);
        }
        if let Some(limit) = self.full_grant(command, &path, false) {
            return Reply::Full(limit);
        }
        self.put_row(number, command, path, tree, method, fall)
    }

    // The same where there is room for it.
    fn put_row(
        &mut self,
        number: u64,
        command: u32,
        path: Path,
        tree: Tree,
        method: Method,
        fall: Fall,
    ) -> Reply
        requires rules { AreRuled number self.old }
        requires room { full_nodes self.old (length tree) ≡ None }
        requires new { find (is_equal_row path tree) (rows_of self.old.rows) ≡ None }
        requires fall { fall ≡ fall_of self.old.kept.marks path (filter (overlaps_stock path) self.old.rows) }
        requires free { full_replaced self.old.base.limits self.old.paths (held_bytes self.old.rows) fall (held_by method tree) ≡ None }
        requires hold { full_grant self.old command path false ≡ None }
        ensures { (request : TheAsked) → IsDeclaring request number command path tree method self.old → Serves number request result self.old self.new }
    {
        let Ok(place) = path.copy() else {
            return Reply::NoMemory;
        };
        let Ok(sum) = sum_of(*self.history.allocator(), &tree) else {
            return Reply::NoMemory;
        };
        let nodes = tree.nodes();
        let row = Row {
            path,
            tree,
            sum,
            stamp: number,
            stands: false,
            last: self.moment,
        };
        let stock = Stock {
            row,
            method,
            dirty: false,
        };
        let spare = 2 * self.jobs.len() as u64 + fall.rows;
        let Ok(()) = self.replace(number, command, &place, stock, spare) else {
            return Reply::NoMemory;
        };
        self.count_nodes(nodes);
        self.paths = self.paths + one_if(fall.new) - fall.unkept;
        Reply::Declared(number)
    }
}

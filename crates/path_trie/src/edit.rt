// Values that are changed where they stand.
ghost use Rattle.std.specs.Prelude.{◌≡◌, map};
ghost use Rattle.path_trie.specs.Edits.{edited_kept, edited_own, IsEdited};
ghost use Rattle.path_trie.specs.Nodes.{are_well, below_all, below_node, is_well};

use crate::entry::Entry;
use crate::node::{Edge, Node};
use mat_path::Path;

/// A change of the value at each path.
pub trait Edit<V> {
    ghost use Rattle.std.specs.Prelude.{ℕ, List};

    ghost edited: { Self → List (List ℕ) → V → V };

    /// The value that takes the place of the one at a path.
    fn edit(&self, path: &Path, value: V) -> V
        ensures { result ≡ edited self.now path.now value };
}

// Changes the values at and below a node.
#[cycle(edit)]
pub(crate) fn edit_at<V: Drop, E: Edit<V>>(node: &mut Node<Entry<V>>, by: &E)
    ensures list { below_node node.new ≡ map (edited_kept (E.edited by.now)) (below_node node.old) }
    ensures well { is_well node.new ≡ is_well node.old }
{
    let Node {
        value: own,
        edges,
        count: _,
    } = node;
    edit_own(own, by);
    edit_all(edges, by);
}

// Changes the value at a node itself.
fn edit_own<V: Drop, E: Edit<V>>(own: &mut Option<Entry<V>>, by: &E)
    ensures { own.new ≡ edited_own (E.edited by.now) own.old }
{
    if let Some(Entry { path, value }) = own.take() {
        let value = by.edit(&path, value);
        *own = Some(Entry { path, value });
    }
}

// Changes the values below some children.
#[cycle(edit)]
fn edit_all<V: Drop, E: Edit<V>>(edges: &mut Vec<Edge<Entry<V>>>, by: &E)
    ensures list { below_all edges.new.items ≡ map (edited_kept (E.edited by.now)) (below_all edges.old.items) }
    ensures well { are_well edges.new.items ≡ are_well edges.old.items }
{
    for edge in edges.iter_mut() {
        edit_edge(edge, by);
    }
}

// Changes the values below a child.
#[cycle(edit)]
fn edit_edge<V: Drop, E: Edit<V>>(edge: &mut Edge<Entry<V>>, by: &E)
    ensures { IsEdited (E.edited by.now) edge.old edge.new }
{
    edit_at(&mut edge.node, by);
}

// Values that are put in place of others.
ghost use Rattle.std.specs.Prelude.{◌≡◌, ◌∷◌, true, length, IfErr};
ghost use Rattle.std.specs.Option.{option_map};
ghost use Rattle.std.specs.Result.{result_ok};
ghost use Rattle.path_trie.specs.Entries.{value_at, value_of};
ghost use Rattle.path_trie.specs.Nodes.{are_well, below_all, below_node, is_well};
ghost use Rattle.path_trie.specs.Roots.{own_with, with_value};

use crate::entry::Entry;
use crate::find::place_of;
use crate::node::{Edge, Node};
use mat_path::Name;
use std::mem;

// Puts a value in place of the one at these names below a node, and gives that. Where none stands there it gives the value back.
#[cycle(swap)]
pub(crate) fn swap_at<V: Drop>(node: &mut Node<Entry<V>>, names: &[Name], value: V) -> Result<V, V>
    requires { is_well node.old ≡ true }
    ensures list { below_node node.new ≡ with_value (value_at names.now (below_node node.old)) names.now value (below_node node.old) }
    ensures well { is_well node.new ≡ true }
    ensures same { length (below_node node.new) ≡ length (below_node node.old) }
    ensures old { result_ok result ≡ option_map value_of (value_at names.now (below_node node.old)) }
    ensures back { IfErr result (λ back. back ≡ value) }
{
    let Node {
        value: own,
        edges,
        count: _,
    } = node;
    match names {
        [] => swap_own(own, value),
        [name, more @ ..] => swap_among(edges, name, more, value),
    }
}

// The same at a node itself.
fn swap_own<V: Drop>(own: &mut Option<Entry<V>>, value: V) -> Result<V, V>
    ensures kept { own.new ≡ own_with own.old value }
    ensures old { result_ok result ≡ option_map value_of own.old }
    ensures back { IfErr result (λ back. back ≡ value) }
{
    match own {
        Some(entry) => Ok(mem::replace(&mut entry.value, value)),
        None => Err(value),
    }
}

// The same among some children.
#[cycle(swap)]
fn swap_among<V: Drop>(
    edges: &mut Vec<Edge<Entry<V>>>,
    name: &Name,
    more: &[Name],
    value: V,
) -> Result<V, V>
    requires { are_well edges.old.items ≡ true }
    ensures list { below_all edges.new.items ≡ with_value (value_at (name.now ∷ more.now) (below_all edges.old.items)) (name.now ∷ more.now) value (below_all edges.old.items) }
    ensures well { are_well edges.new.items ≡ true }
    ensures same { length (below_all edges.new.items) ≡ length (below_all edges.old.items) }
    ensures old { result_ok result ≡ option_map value_of (value_at (name.now ∷ more.now) (below_all edges.old.items)) }
    ensures back { IfErr result (λ back. back ≡ value) }
{
    match place_of(edges, name) {
        Ok(place) => swap_at(&mut edges[place].node, more, value),
        Err(_) => Err(value),
    }
}

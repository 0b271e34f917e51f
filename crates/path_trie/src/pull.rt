// The first entry at or below some names, taken out.
ghost use Rattle.std.specs.Prelude.{◌≡◌, ◌+◌, ◌<◌, true, length};
ghost use Rattle.std.specs.List.{find};
ghost use Rattle.std.specs.Option.{option_map};
ghost use Rattle.path_trie.specs.Entries.{is_under, value_of, without_first};
ghost use Rattle.path_trie.specs.Nodes.{are_well, below_all, below_node, is_well, own};
ghost use Rattle.path_trie.specs.Walks.{GivesFirst, IsPulled};

use crate::change::count_taken;
use crate::find::place_of;
use crate::node::{Edge, Node};
use mat_path::Name;

// Takes the first value at or below these names below a node, and the children below which nothing is left.
#[cycle(pull)]
pub(crate) fn pull_at<T: Drop>(node: &mut Node<T>, names: &[Name]) -> Option<T>
    requires { is_well node.old ≡ true }
    ensures list { below_node node.new ≡ without_first (is_under names.now) (below_node node.old) }
    ensures well { is_well node.new ≡ true }
    ensures value { result ≡ option_map value_of (find (is_under names.now) (below_node node.old)) }
    ensures less { length (below_node node.new) + length (own result) ≡ length (below_node node.old) }
{
    let Node {
        value: own,
        edges,
        count,
    } = node;
    match names {
        [] => match own.take() {
            Some(value) => count_taken(count, Some(value)),
            None => {
                if edges.as_slice().is_empty() {
                    return None;
                }
                count_taken(count, pull_child(edges, 0, names))
            }
        },
        [name, more @ ..] => match place_of(edges, name) {
            Ok(place) => count_taken(count, pull_child(edges, place, more)),
            Err(_) => None,
        },
    }
}

// The same below the child at a place.
#[cycle(pull)]
fn pull_child<T: Drop>(edges: &mut Vec<Edge<T>>, place: usize, names: &[Name]) -> Option<T>
    requires well { are_well edges.old.items ≡ true }
    requires place { place < length edges.old.items }
    ensures list { IsPulled place names.now edges.old.items edges.new.items }
    ensures well { are_well edges.new.items ≡ true }
    ensures value { GivesFirst place names.now edges.old.items result }
    ensures less { length (below_all edges.new.items) + length (own result) ≡ length (below_all edges.old.items) }
{
    let node = &mut edges[place].node;
    let value = pull_at(node, names);
    if node.is_bare() {
        edges.remove(place);
        return value;
    }
    value
}

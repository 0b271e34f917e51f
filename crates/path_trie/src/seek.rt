// The first entries, in order of path, from some names on.
ghost use Rattle.std.specs.Prelude.{◌≡◌, true, nat_eq, None, if◌then◌else◌};
ghost use Rattle.std.specs.List.{find, slice_get};
ghost use Rattle.std.specs.Option.{option_copied, option_map};
ghost use Rattle.path_trie.specs.Entries.{is_beyond, is_high, value_of};
ghost use Rattle.path_trie.specs.Nodes.{are_well, below_all, below_node, is_well};

use crate::find::place_of;
use crate::node::{Edge, Node};
use crate::pick::value_at;
use mat_path::Name;

// The first value below some children.
fn first_among<'a, T>(edges: &'a [Edge<T>]) -> Option<&'a T>
    requires { are_well edges.now ≡ true }
    ensures { option_copied result ≡ option_map value_of (slice_get (below_all edges.now) 0) }
{
    match edges {
        [] => None,
        [edge, ..] => value_at(&edge.node, 0),
    }
}

// The same, unless none is wanted.
fn first_unless<'a, T>(edges: &'a [Edge<T>], past: bool) -> Option<&'a T>
    requires { are_well edges.now ≡ true }
    ensures { option_copied result ≡ option_map value_of (if past then None else slice_get (below_all edges.now) 0) }
{
    if past {
        return None;
    }
    first_among(edges)
}

// The first value behind these names below a node, or past all that is at and below them.
pub(crate) fn behind_at<'a, T>(node: &'a Node<T>, names: &[Name], past: bool) -> Option<&'a T>
    requires { is_well node.now ≡ true }
    ensures { option_copied result ≡ option_map value_of (find (is_beyond past names.now) (below_node node.now)) }
{
    match names {
        [] => first_unless(&node.edges, past),
        [name, more @ ..] => match place_of(&node.edges, name) {
            Ok(place) => match behind_at(&node.edges[place].node, more, past) {
                Some(value) => Some(value),
                None => first_among(&node.edges[place + 1..]),
            },
            Err(place) => first_among(&node.edges[place..]),
        },
    }
}

// The value at the fewest of these names, but at least so many, below a node.
pub(crate) fn high_at<'a, T>(node: &'a Node<T>, names: &[Name], least: usize) -> Option<&'a T>
    requires { is_well node.now ≡ true }
    ensures { option_copied result ≡ option_map value_of (find (is_high names.now least) (below_node node.now)) }
{
    match high_own(&node.value, least) {
        Some(value) => Some(value),
        None => match names {
            [] => None,
            [name, more @ ..] => match place_of(&node.edges, name) {
                Ok(place) => high_at(&node.edges[place].node, more, least.saturating_sub(1)),
                Err(_) => None,
            },
        },
    }
}

// The value at a node itself, where no name at least is wanted.
fn high_own<T>(value: &Option<T>, least: usize) -> Option<&T>
    ensures { option_copied result ≡ (if nat_eq least 0 then value.now else None) }
{
    if least == 0 {
        return value.as_ref();
    }
    None
}

ghost use Rattle.std.specs.Prelude.{◌≡◌, true, Bool, IfOk, IsOk, OnErr, length, MatchOption, None, Result};
ghost use Rattle.std.specs.Option.{option_map};
ghost use Rattle.std.specs.List.{list_all};
ghost use Rattle.mat_digest.specs.declared.digest.Digest.{Digest as TheDigest};
ghost use Rattle.mat_tree.specs.Nodes.{below_node};
ghost use Rattle.mat_tree.specs.Trees.{bytes_of, file_tree, is_small, kind_of, same_tree, sub_at, tree_refusal, what_at, IsTree};
ghost use Rattle.mat_tree.specs.declared.refusal.TreeRefusal.TheVariants as refusal;

use crate::build::node_of;
use crate::copy::copy_node;
use crate::count::{count_node, weigh_node};
use crate::find::node_at;
use crate::flat::Flat;
use crate::listing::list_node;
use crate::node::Node;
use crate::refusal::TreeRefusal;
use crate::refuse::{refusal_of, tell_rels};
use crate::same::same_node;
use crate::sum::Kind;
use mat_path::{Memory, Name};
use std::alloc::Global;
use std::marker::Model;

/// A declared artifact, seen as its flat list.
#[derive(Debug, Drop)]
pub struct Tree {
    root: Node,
    alloc: Global,
}

impl Model for Tree {
    ghost use Rattle.std.specs.Prelude.{List};
    ghost use Rattle.mat_tree.specs.declared.flat.Flat.{Flat};
    ghost use Rattle.mat_tree.specs.Nodes.{below_node};
    ghost use Rattle.mat_tree.specs.Trees.{IsTree};

    ghost Value = { List Flat };

    ghost view = { λ t. below_node t.root };

    ghost invariant = { λ t. IsTree (below_node t.root) };
}

impl Tree {
    /// The tree of these nodes, whose files have at most 67,108,864 bytes each. A file takes no memory.
    ///
    /// It refuses with the first of `NoRoot`, `RootLink`, `TooMany`, and `Order` or `Under` at the first bad place.
    pub fn from_flat(alloc: Global, nodes: &[Flat]) -> Result<Tree, TreeRefusal>
        requires small { list_all is_small nodes.now ≡ true }
        ensures ok { IfOk result (λ tree. tree ≡ nodes.now) }
        ensures exact { MatchOption (tree_refusal nodes.now) (OnErr result (result ≡ Err refusal.NoMemory)) (λ why. result ≡ Err why) }
        ensures only { (digest : TheDigest) (exec : Bool) → nodes.now ≡ file_tree digest exec → IsOk result }
    {
        if let Some(why) = refusal_of(nodes) {
            return Err(why);
        }
        tell_rels(nodes);
        match node_of(alloc, nodes) {
            Ok(root) => Ok(Tree { root, alloc }),
            Err(Memory) => Err(TreeRefusal::NoMemory),
        }
    }

    /// The flat list of the tree, the root first, in order of rel.
    pub fn flat(&self) -> Result<Vec<Flat>, Memory>
        ensures ok { IfOk result (λ nodes. nodes.items ≡ self.now) }
        ensures tree { IsTree self.now }
    {
        let mut nodes = Vec::new(self.alloc);
        let mut names = Vec::new(self.alloc);
        list_node(&self.root, &mut names, &mut nodes)?;
        Ok(nodes)
    }

    /// The law of the list: nothing refuses it, so that it makes the same tree again. It does nothing.
    pub fn list_is_accepted(&self)
        ensures { tree_refusal self.now ≡ None }
    {
        let _root = &self.root;
    }

    /// The node at the root, which is no link. Takes no memory.
    pub fn root(&self) -> &Node
        ensures value { below_node result.now ≡ self.now }
        ensures tree { IsTree self.now }
    {
        &self.root
    }

    /// What kind of node stands at these names: None where no node does, Some(None) for a link. Takes no memory.
    pub fn has(&self, rest: &[Name]) -> Option<Option<Kind>>
        ensures { result ≡ option_map kind_of (what_at self.now rest.now) }
    {
        match node_at(&self.root, rest) {
            None => None,
            Some(node) => Some(node.kind()),
        }
    }

    /// The tree at these names: None where no node or a link stands there.
    pub fn sub(&self, rest: &[Name]) -> Result<Option<Tree>, Memory>
        ensures ok { IfOk result (λ tree. tree ≡ sub_at self.now rest.now) }
    {
        let Some(node) = node_at(&self.root, rest) else {
            return Ok(None);
        };
        if node.is_link() {
            return Ok(None);
        }
        let root = copy_node(self.alloc, node)?;
        Ok(Some(Tree {
            root,
            alloc: self.alloc,
        }))
    }

    /// How many nodes the tree has, the root included: at most 10,000. Takes no memory.
    pub fn nodes(&self) -> u64
        ensures { result ≡ length self.now }
    {
        count_node(&self.root)
    }

    /// How many bytes all its files have. Takes no memory.
    pub fn bytes(&self) -> u64
        ensures { result ≡ bytes_of self.now }
    {
        weigh_node(&self.root)
    }

    /// Whether two trees have the same flat list. Takes no memory.
    pub fn same(&self, other: &Tree) -> bool
        ensures { result ≡ same_tree self.now other.now }
    {
        same_node(&self.root, &other.root)
    }

    /// The same tree once more.
    pub fn copy(&self) -> Result<Tree, Memory>
        ensures ok { IfOk result (λ tree. tree ≡ self.now) }
    {
        let root = copy_node(self.alloc, &self.root)?;
        Ok(Tree {
            root,
            alloc: self.alloc,
        })
    }
}

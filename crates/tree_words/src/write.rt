// Writing a tree as words. After want of memory a part of them may stand behind what was there.
ghost use Rattle.std.specs.Prelude.{◌≡◌, ◌++◌, ◌∷◌, true, All, IfOk, Ok, OnErr, OnOk};
ghost use Rattle.std.specs.Io.{StartsWith};
ghost use Rattle.mat_digest.specs.Digests.{IsDigest, digest_text};
ghost use Rattle.mat_tree.specs.Trees.{IsNode, IsTree, IsWhat};
ghost use Rattle.tree_words.specs.Words.{file_word, node_text, read_tree, text_of, tree_text, what_words};

use mat_digest::Digest;
use mat_path::Memory;
use mat_tree::{Flat, Tree, What};
use std::alloc::Global;

/// Writes a tree as its words, with a single space between each two. They are read as this tree again.
pub fn write_words(alloc: Global, tree: &Tree) -> Result<Vec<u8>, Memory>
    ensures ok { IfOk result (λ bytes. bytes.items ≡ tree_text tree.now) }
    ensures back { IfOk result (λ bytes. read_tree bytes.items ≡ Ok tree.now) }
    ensures tree { OnOk result (IsTree tree.now) }
    ensures nodes { OnOk result (All IsNode tree.now) }
{
    let nodes = tree.flat()?;
    let mut out = Vec::new(alloc);
    push_nodes(&mut out, nodes.as_slice())?;
    Ok(out)
}

/// Appends the words of a node, with a single space between each two. After want of memory a part of
/// them may stand behind what was there.
pub fn push_node(out: &mut Vec<u8>, node: &Flat) -> Result<(), Memory>
    ensures ok { OnOk result (out.new.items ≡ out.old.items ++ node_text node.now) }
    ensures err { OnErr result (StartsWith out.new.items out.old.items) }
    ensures node { OnOk result (IsNode node.now) }
{
    push_what(out, &node.what)?;
    push_text(out, b" ")?;
    push_text(out, node.rel.write()?.as_slice())
}

// Appends the words of some nodes.
fn push_nodes(out: &mut Vec<u8>, nodes: &[Flat]) -> Result<(), Memory>
    ensures ok { OnOk result (out.new.items ≡ out.old.items ++ tree_text nodes.now) }
    ensures nodes { OnOk result (All IsNode nodes.now) }
{
    match nodes {
        [] => Ok(()),
        [first, rest @ ..] => {
            push_node(out, first)?;
            push_more(out, first, rest)
        }
    }
}

// Appends the words of the nodes behind a first one, whose words stand there.
fn push_more(out: &mut Vec<u8>, first: &Flat, rest: &[Flat]) -> Result<(), Memory>
    ensures ok { (before : _) → out.old.items ≡ before ++ node_text first.now
        → OnOk result (out.new.items ≡ before ++ tree_text (first.now ∷ rest.now)) }
    ensures nodes { OnOk result (All IsNode rest.now) }
{
    for node in rest {
        push_text(out, b" ")?;
        push_node(out, node)?;
    }
    Ok(())
}

// Appends the words of what a node is.
fn push_what(out: &mut Vec<u8>, what: &What) -> Result<(), Memory>
    ensures ok { OnOk result (out.new.items ≡ out.old.items ++ text_of (what_words what.now)) }
    ensures err { OnErr result (StartsWith out.new.items out.old.items) }
    ensures what { OnOk result (IsWhat what.now) }
{
    match what {
        What::File { digest, exec } => push_file(out, digest, *exec),
        What::Dir => push_text(out, b"d"),
        What::Link(target) => {
            push_text(out, b"l ")?;
            push_text(out, target.bytes())
        }
    }
}

// Appends the words of a file. The law of a digest's text says that the digest is one.
fn push_file(out: &mut Vec<u8>, digest: &Digest, exec: bool) -> Result<(), Memory>
    ensures ok { OnOk result (out.new.items ≡ out.old.items ++ (file_word exec ++ 32 ∷ digest_text digest.now)) }
    ensures err { OnErr result (StartsWith out.new.items out.old.items) }
    ensures digest { IsDigest digest.now }
{
    digest.text_is_read_back();
    let word = if exec {
        b"x ".as_slice()
    } else {
        b"f ".as_slice()
    };
    push_text(out, word)?;
    push_text(out, digest.write_text().bytes())
}

/// Appends a text. After want of memory what was there still stands in front.
pub fn push_text(out: &mut Vec<u8>, text: &[u8]) -> Result<(), Memory>
    ensures ok { OnOk result (out.new.items ≡ out.old.items ++ text.now) }
    ensures err { OnErr result (StartsWith out.new.items out.old.items) }
{
    out.extend_from_slice(text)?;
    Ok(())
}

// Writing a row.
ghost use Rattle.std.specs.Prelude.{◌≡◌, ◌++◌, ◌∷◌, [], ◌≤◌, ◌<◌, ◌^◌, All, IfOk, OnOk, Some, length};
ghost use Rattle.std.specs.Int.{w32, w64, to_be_bytes};
ghost use Rattle.mat_path.specs.Names.{rel_text};
ghost use Rattle.std.specs.List.{flat_map};
ghost use Rattle.mat_tree.specs.Trees.{IsNode};
ghost use Rattle.row_bytes.specs.Rows.{IsRow, file_bytes, kind_byte, magic, node_bytes, root_bytes, row_bytes, sized, tree_bytes, what_bytes};

use mat_digest::Digest;
use mat_path::{Memory, Rel};
use mat_tree::{Flat, Tree, What};
use std::alloc::Global;
use tree_words::push_text;

/// Writes the row of version 2 of a tree and an identity. It is read as these again.
pub fn write_row(alloc: Global, tree: &Tree, identity: u64) -> Result<Vec<u8>, Memory>
    ensures ok { IfOk result (λ bytes. bytes.items ≡ row_bytes (Some identity) tree.now) }
    ensures row { IfOk result (λ bytes. IsRow bytes.items (record { tree = tree.now; identity = Some identity })) }
{
    let nodes = tree.flat()?;
    tell_nodes(nodes.as_slice());
    let mut out = Vec::new(alloc);
    push_front(&mut out, identity, tree.bytes())?;
    push_tree(&mut out, nodes.as_slice())?;
    Ok(out)
}

// Appends the magic, the version, an identity and a sum of sizes.
fn push_front(out: &mut Vec<u8>, identity: u64, sum: u64) -> Result<(), Memory>
    ensures { OnOk result (out.new.items ≡ out.old.items ++ (magic 2 ++ (to_be_bytes w64 identity ++ to_be_bytes w64 sum))) }
{
    push_text(out, b"KR\x02")?;
    push_u64(out, identity)?;
    push_u64(out, sum)
}

// Appends a number in 8 bytes.
fn push_u64(out: &mut Vec<u8>, number: u64) -> Result<(), Memory>
    ensures { OnOk result (out.new.items ≡ out.old.items ++ to_be_bytes w64 number) }
{
    out.extend_from_slice(&number.to_be_bytes())?;
    Ok(())
}

// Appends a byte.
fn push_byte(out: &mut Vec<u8>, byte: u8) -> Result<(), Memory>
    ensures { OnOk result (out.new.items ≡ out.old.items ++ byte ∷ []) }
{
    out.push(byte)?;
    Ok(())
}

// Appends a text behind its length.
fn push_sized(out: &mut Vec<u8>, text: &[u8]) -> Result<(), Memory>
    requires { length text.now < 2 ^ 16 }
    ensures { OnOk result (out.new.items ≡ out.old.items ++ sized text.now) }
{
    out.extend_from_slice(&(text.len() as u16).to_be_bytes())?;
    push_text(out, text)
}

// Appends a file.
fn push_file(out: &mut Vec<u8>, digest: &Digest) -> Result<(), Memory>
    ensures { OnOk result (out.new.items ≡ out.old.items ++ file_bytes digest.now) }
{
    push_text(out, digest.hash.as_slice())?;
    push_u64(out, digest.size)
}

// The byte that says what a node is.
fn kind_byte(what: &What) -> u8
    ensures { result ≡ kind_byte what.now }
{
    match what {
        What::File { exec: false, .. } => 0,
        What::File { exec: true, .. } => 1,
        What::Dir => 2,
        What::Link(_) => 3,
    }
}

// Appends what stands of a node behind its rel.
fn push_what(out: &mut Vec<u8>, what: &What) -> Result<(), Memory>
    ensures { OnOk result (out.new.items ≡ out.old.items ++ what_bytes what.now) }
{
    match what {
        What::File { digest, .. } => push_file(out, digest),
        What::Dir => Ok(()),
        What::Link(target) => push_sized(out, target.bytes()),
    }
}

// Appends a rel.
fn push_rel(out: &mut Vec<u8>, rel: &Rel) -> Result<(), Memory>
    ensures { OnOk result (out.new.items ≡ out.old.items ++ sized (rel_text rel.now)) }
{
    let _names = rel.names();
    push_sized(out, rel.write()?.as_slice())
}

// Appends a node below the root.
fn push_node(out: &mut Vec<u8>, node: &Flat) -> Result<(), Memory>
    ensures { OnOk result (out.new.items ≡ out.old.items ++ node_bytes node.now) }
{
    push_byte(out, kind_byte(&node.what))?;
    push_rel(out, &node.rel)?;
    push_what(out, &node.what)
}

// Appends nodes below the root.
fn push_nodes(out: &mut Vec<u8>, nodes: &[Flat]) -> Result<(), Memory>
    ensures { OnOk result (out.new.items ≡ out.old.items ++ flat_map node_bytes nodes.now) }
{
    for node in nodes {
        push_node(out, node)?;
    }
    Ok(())
}

// Appends the number of nodes, and the nodes.
fn push_counted(out: &mut Vec<u8>, nodes: &[Flat]) -> Result<(), Memory>
    requires { length nodes.now ≤ 10000 }
    ensures { OnOk result (out.new.items ≡ out.old.items ++ (to_be_bytes w32 (length nodes.now) ++ flat_map node_bytes nodes.now)) }
{
    out.extend_from_slice(&(nodes.len() as u32).to_be_bytes())?;
    push_nodes(out, nodes)
}

// Appends what stands behind the kind of the root.
fn push_root(out: &mut Vec<u8>, root: &What, rest: &[Flat]) -> Result<(), Memory>
    requires { length rest.now ≤ 10000 }
    ensures { OnOk result (out.new.items ≡ out.old.items ++ root_bytes root.now rest.now) }
{
    match root {
        What::File { digest, .. } => push_file(out, digest),
        What::Dir => push_counted(out, rest),
        What::Link(_) => Ok(()),
    }
}

// Appends a tree.
fn push_tree(out: &mut Vec<u8>, nodes: &[Flat]) -> Result<(), Memory>
    requires { length nodes.now ≤ 10000 }
    ensures { OnOk result (out.new.items ≡ out.old.items ++ tree_bytes nodes.now) }
{
    match nodes {
        [] => Ok(()),
        [root, rest @ ..] => {
            push_byte(out, kind_byte(&root.what))?;
            push_root(out, &root.what, rest)
        }
    }
}

// What the types say of nodes: each can be held.
fn tell_nodes(nodes: &[Flat])
    ensures { All IsNode nodes.now }
{
    for node in nodes {
        tell_node(node);
    }
}

// What the types say of a node: its digest or its target is one.
fn tell_node(node: &Flat)
    ensures { IsNode node.now }
{
    match &node.what {
        What::File { digest, .. } => digest.text_is_read_back(),
        What::Dir => (),
        What::Link(target) => {
            let _bytes = target.bytes();
        }
    }
}

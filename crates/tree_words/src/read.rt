// Reading a tree from words.
ghost use Rattle.std.specs.Prelude.{◌≡◌, ◌++◌, ◌∷◌, ◌<◌, [], true, false, All, length, List, Ok, IfErr, IfOk, MatchResult, OnOk};
ghost use Rattle.std.specs.List.{list_all};
ghost use Rattle.mat_path.specs.Names.{rel_of};
ghost use Rattle.mat_tree.specs.Trees.{IsNode, IsTree, is_small};
ghost use Rattle.mat_tree.specs.declared.flat.Flat.{Flat as TheFlat};
ghost use Rattle.tree_words.specs.Answers.{Agrees, IsRefusalOf};
ghost use Rattle.tree_words.specs.Rests.{none_of, words_of};
ghost use Rattle.tree_words.specs.Words.{at_digest, at_kind, at_rel, at_target, digest_spelled, node_before, read_from, read_tree, target_spelled, tree_text};
ghost use Rattle.tree_words.specs.declared.refusal.WordsRefusal.TheVariants as refusal;

use crate::kind::{Kind, kind_spelled};
use crate::numbered::Numbered;
use crate::refusal::WordsRefusal;
use mat_digest::Digest;
use mat_path::{Memory, PathRefusal, Rel, Target};
use mat_tree::{Flat, GREATEST_FILE, Tree, TreeRefusal, What};
use std::alloc::Global;

/// Reads a tree from its words: `f DIGEST REL` for a file of at most 67,108,864 bytes, `x DIGEST REL`
/// for an executable one, `l TARGET REL` for a link, `d REL` for a directory. The nodes stand in the
/// order of the tree's flat list, and single spaces stand between all words.
///
/// It refuses with `Word` where a word is missing or doesn't fit its place, then with `Tree` where the
/// nodes are no tree. `NoMemory` may come in place of either.
pub fn read_words(alloc: Global, text: &[u8]) -> Result<Tree, WordsRefusal>
    ensures ok { IfOk result (λ tree. read_tree text.now ≡ Ok tree) }
    ensures exact { IfErr result (λ why. IsRefusalOf (read_tree text.now) why) }
    ensures whole { (nodes : List TheFlat) → IsTree nodes → All IsNode nodes → text.now ≡ tree_text nodes
        → MatchResult result (λ tree. tree ≡ nodes) (λ why. why ≡ refusal.NoMemory) }
{
    read_tree(alloc, text)
}

// The tree that a text spells.
fn read_tree(alloc: Global, text: &[u8]) -> Result<Tree, WordsRefusal>
    ensures ok { IfOk result (λ tree. read_tree text.now ≡ Ok tree) }
    ensures exact { IfErr result (λ why. IsRefusalOf (read_tree text.now) why) }
{
    let nodes = read_nodes(alloc, text)?;
    match Tree::from_flat(alloc, nodes.as_slice()) {
        Ok(tree) => Ok(tree),
        Err(TreeRefusal::NoMemory) => Err(WordsRefusal::NoMemory),
        Err(why) => Err(WordsRefusal::Tree(why)),
    }
}

// The nodes that a text spells.
fn read_nodes(alloc: Global, text: &[u8]) -> Result<Vec<Flat>, WordsRefusal>
    ensures read { Agrees result (read_from at_kind 0 (words_of text.now)) (λ nodes. Ok nodes.items) }
    ensures small { IfOk result (λ nodes. list_all is_small nodes.items ≡ true) }
{
    let mut words = Numbered::of(text);
    let mut nodes = Vec::new(alloc);
    'nodes: while !words.is_empty() {
        let node = read_node(alloc, &mut words)?;
        push(&mut nodes, node)?;
    }
    Ok(nodes)
}

// Puts a node at the end of a list.
fn push(nodes: &mut Vec<Flat>, node: Flat) -> Result<(), WordsRefusal>
    ensures ok { OnOk result (nodes.new.items ≡ nodes.old.items ++ node ∷ []) }
    ensures only { IfErr result (λ why. why ≡ refusal.NoMemory) }
{
    match nodes.push(node) {
        Ok(()) => Ok(()),
        Err(_) => Err(WordsRefusal::NoMemory),
    }
}

// The next node.
fn read_node(alloc: Global, words: &mut Numbered<'_>) -> Result<Flat, WordsRefusal>
    requires { none_of words.old.words ≡ false }
    ensures read { Agrees result (read_from at_kind words.old.place words.old.words)
        (λ node. node_before node (read_from at_kind words.new.place words.new.words)) }
    ensures shorter { OnOk result (length words.new.words < length words.old.words) }
{
    let what = read_what(alloc, words)?;
    read_rel(alloc, words, what)
}

// What a node is, from its first word on.
fn read_what(alloc: Global, words: &mut Numbered<'_>) -> Result<What, WordsRefusal>
    requires { none_of words.old.words ≡ false }
    ensures read { Agrees result (read_from at_kind words.old.place words.old.words)
        (λ w. read_from (at_rel w) words.new.place words.new.words) }
    ensures shorter { OnOk result (length words.new.words < length words.old.words) }
{
    let place = words.place();
    let word = words.next()?;
    match kind_spelled(word) {
        Some(Kind::File) => read_file(words, false),
        Some(Kind::Exec) => read_file(words, true),
        Some(Kind::Link) => read_link(alloc, words),
        Some(Kind::Dir) => Ok(What::Dir),
        None => Err(WordsRefusal::Word(place)),
    }
}

// What a file is, from its digest on.
fn read_file(words: &mut Numbered<'_>, exec: bool) -> Result<What, WordsRefusal>
    ensures read { Agrees result (read_from (at_digest exec) words.old.place words.old.words)
        (λ w. read_from (at_rel w) words.new.place words.new.words) }
    ensures shorter { OnOk result (length words.new.words < length words.old.words) }
{
    let place = words.place();
    let word = words.next()?;
    match digest_spelled(word) {
        Some(digest) => Ok(What::File { digest, exec }),
        None => Err(WordsRefusal::Word(place)),
    }
}

// What a link is, from its target on.
fn read_link(alloc: Global, words: &mut Numbered<'_>) -> Result<What, WordsRefusal>
    ensures read { Agrees result (read_from at_target words.old.place words.old.words)
        (λ w. read_from (at_rel w) words.new.place words.new.words) }
    ensures shorter { OnOk result (length words.new.words < length words.old.words) }
{
    let place = words.place();
    let word = words.next()?;
    match target_spelled(alloc, word) {
        Ok(Some(target)) => Ok(What::Link(target)),
        Ok(None) => Err(WordsRefusal::Word(place)),
        Err(Memory) => Err(WordsRefusal::NoMemory),
    }
}

// A node that is this, from its rel on.
fn read_rel(alloc: Global, words: &mut Numbered<'_>, what: What) -> Result<Flat, WordsRefusal>
    ensures read { Agrees result (read_from (at_rel what) words.old.place words.old.words)
        (λ node. node_before node (read_from at_kind words.new.place words.new.words)) }
    ensures shorter { OnOk result (length words.new.words < length words.old.words) }
{
    let place = words.place();
    let word = words.next()?;
    match rel_spelled(alloc, word) {
        Ok(Some(rel)) => Ok(Flat { rel, what }),
        Ok(None) => Err(WordsRefusal::Word(place)),
        Err(Memory) => Err(WordsRefusal::NoMemory),
    }
}

// The digest of a file that a word spells.
fn digest_spelled(word: &[u8]) -> Option<Digest>
    ensures { result ≡ digest_spelled word.now }
{
    match Digest::read_text(word) {
        Ok(digest) => {
            if digest.size <= GREATEST_FILE {
                Some(digest)
            } else {
                None
            }
        }
        Err(_) => None,
    }
}

// The target of a link that a word spells.
fn target_spelled(alloc: Global, word: &[u8]) -> Result<Option<Target>, Memory>
    ensures { IfOk result (λ target. target ≡ target_spelled word.now) }
{
    match Target::read(alloc, word) {
        Ok(target) => Ok(Some(target)),
        Err(PathRefusal::NoMemory) => Err(Memory),
        Err(_) => Ok(None),
    }
}

// The rel that a word spells.
fn rel_spelled(alloc: Global, word: &[u8]) -> Result<Option<Rel>, Memory>
    ensures { IfOk result (λ rel. rel ≡ rel_of word.now) }
{
    match Rel::read(alloc, word) {
        Ok(rel) => Ok(Some(rel)),
        Err(PathRefusal::NoMemory) => Err(Memory),
        Err(_) => Ok(None),
    }
}

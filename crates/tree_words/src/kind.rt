// The kinds of nodes, and the words that begin them.
ghost use Rattle.std.specs.Prelude.{◌≡◌};
ghost use Rattle.tree_words.specs.Words.{kind_spelled};

/// The kind of a node, by the word that begins it.
#[derive(Clone, Copy)]
pub(crate) enum Kind {
    /// `f`: a file that isn't executable.
    File,
    /// `x`: an executable file.
    Exec,
    /// `l`: a link.
    Link,
    /// `d`: a directory.
    Dir,
}

// The kind of node that a word begins.
pub(crate) fn kind_spelled(word: &[u8]) -> Option<Kind>
    ensures { result ≡ kind_spelled word.now }
{
    if word == b"f".as_slice() {
        return Some(Kind::File);
    }
    if word == b"x".as_slice() {
        return Some(Kind::Exec);
    }
    if word == b"l".as_slice() {
        return Some(Kind::Link);
    }
    if word == b"d".as_slice() {
        return Some(Kind::Dir);
    }
    None
}

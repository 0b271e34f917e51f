use mat_digest::Digest;

/// What kind of artifact a sum speaks of.
#[derive(Clone, Copy, Debug, PartialEq, Eq)]
pub enum Kind {
    /// A file that isn't executable.
    File,
    /// An executable file.
    Exec,
    /// A directory.
    Dir,
}

/// A short name of an artifact: its kind, and the digest of a file's bytes or of a directory's message.
#[derive(Clone, Copy, Debug, PartialEq, Eq)]
pub struct Sum {
    pub kind: Kind,
    pub digest: Digest,
}

use mat_digest::Digest;
use mat_path::{Items, Name, Target};

/// A file of a directory (Remote Execution API v2, `FileNode`).
#[derive(Debug, Drop)]
pub struct FileNode {
    pub name: Name,
    pub digest: Digest,
    pub exec: bool,
}

/// A directory of a directory (`DirectoryNode`), by the digest of its message.
#[derive(Debug, Drop)]
pub struct DirNode {
    pub name: Name,
    pub digest: Digest,
}

/// A symbolic link of a directory (`SymlinkNode`).
#[derive(Debug, Drop)]
pub struct LinkNode {
    pub name: Name,
    pub target: Target,
}

/// A directory (`Directory`): its files, its directories and its links, each list in strict order of name.
#[derive(Debug, Drop)]
pub struct DirMessage {
    pub files: Items<FileNode>,
    pub dirs: Items<DirNode>,
    pub links: Items<LinkNode>,
}

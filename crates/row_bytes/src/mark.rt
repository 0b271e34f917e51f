// What the first byte of a node says.
ghost use Rattle.std.specs.Prelude.{◌≡◌};
ghost use Rattle.row_bytes.specs.Reading as Spec;

/// What a node is, by its first byte.
#[derive(Clone, Copy)]
pub(crate) enum Mark {
    /// 0 for a file, 1 for an executable one.
    File { exec: bool },
    /// 2: a directory.
    Dir,
    /// 3: a link.
    Link,
}

// What a byte says that a node is.
pub(crate) fn mark_of(byte: u8) -> Option<Mark>
    ensures { result ≡ Spec.mark_of byte }
{
    match byte {
        0 => Some(Mark::File { exec: false }),
        1 => Some(Mark::File { exec: true }),
        2 => Some(Mark::Dir),
        3 => Some(Mark::Link),
        _ => None,
    }
}

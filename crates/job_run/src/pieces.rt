// The pieces in which the bytes of a file come.
ghost use Rattle.std.specs.Prelude.{◌≡◌};
ghost use Rattle.job_run.specs.Pieces.{asked_for, is_last, most_bytes};

/// The most bytes of a piece.
pub(crate) const MOST_BYTES: u32 = 65_536;

/// Whether the piece from an offset on is the last one of a file of this size.
pub(crate) fn is_last(size: u64, at: u64) -> bool
    ensures { result ≡ is_last size at }
{
    size.saturating_sub(at) <= MOST_BYTES as u64
}

/// How many bytes a reading step asks for.
pub(crate) fn asked_for(size: u64, at: u64) -> u32
    ensures { result ≡ asked_for size at }
{
    if is_last(size, at) {
        return size.saturating_sub(at) as u32 + 1;
    }
    MOST_BYTES
}

// The lines of a script, as they come in pieces.
ghost use Rattle.std.specs.Prelude.{◌≡◌, ◌-◌, ◌++◌, length, position, take, MatchOption, OnOk};
ghost use Rattle.buckd.specs.Lines.{is_newline, Cuts, IsLine};

use mat_path::Memory;

/// As much of a line as tells what it says: one byte more than the longest line that is read.
const KEPT: usize = 1_048_577;

/// Where the first newline of some bytes stands.
fn newline(bytes: &[u8]) -> Option<usize>
    ensures { result ≡ position is_newline bytes.now }
{
    bytes.iter().position(|byte| *byte == b'\n')
}

/// The line that the first newline of some bytes ends, and what stands behind that newline.
pub fn cut_line(bytes: &[u8]) -> Option<(&[u8], &[u8])>
    ensures { MatchOption result (IsLine bytes.now) (λ parts. Cuts bytes.now parts.0.now parts.1.now) }
{
    match newline(bytes) {
        Some(at) => Some((&bytes[..at], &bytes[at + 1..])),
        None => None,
    }
}

/// Adds bytes to the line that isn't whole yet, as far as they are kept.
pub fn keep(partial: &mut Vec<u8>, bytes: &[u8]) -> Result<(), Memory>
    ensures kept { OnOk result (partial.new.items ≡ partial.old.items ++ take (KEPT - length partial.old.items) bytes.now) }
{
    let room = KEPT.saturating_sub(partial.len());
    let most = room.min(bytes.len());
    partial.extend_from_slice(&bytes[..most])?;
    Ok(())
}

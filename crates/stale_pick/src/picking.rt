ghost use Rattle.std.specs.Prelude.{◌≡◌, IfOk};
ghost use Rattle.stale_pick.specs.Picks.{gone_of, kept_of};

use crate::picked::Picked;
use crate::picker::Picker;
use mat_model::{Holding, Row};
use mat_path::Memory;
use std::alloc::Global;

/// What a clean at a cutoff takes of these rows, where these are the holds: the rows that stand, that no hold overlaps, and that
/// were last used before the cutoff. Each other row stays, and its reason is told. Of a row its path alone is copied.
pub fn pick<H: Holding>(
    alloc: Global,
    rows: &[Row],
    holds: &H,
    cutoff: u64,
) -> Result<Picked, Memory>
    ensures gone { IfOk result (λ picked. picked.gone ≡ gone_of cutoff (H.holds holds.now) rows.now) }
    ensures kept { IfOk result (λ picked. picked.kept ≡ kept_of cutoff (H.holds holds.now) rows.now) }
{
    let mut picker = Picker::new(alloc, cutoff);
    for row in rows {
        picker.feed(row, holds)?;
    }
    Ok(picker.done())
}

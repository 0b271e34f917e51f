// An opening, made of the kept rows that were found.
ghost use Rattle.std.specs.Prelude.{◌≡◌, map, IfOk};
ghost use Rattle.mat_model.specs.Openings.{IsOpening, found_row, found_rows};
ghost use Rattle.model_laws.specs.KeptRules.{path_of_kept};
ghost use Rattle.restart_scan.specs.Opened.{AreReady, IsMadeOf, old_paths};
ghost use Rattle.restart_scan.specs.Rows.{kept_list, kept_view};

use crate::kept::Kept;
use mat_model::{Opening, Row};
use mat_path::{Items, Memory, Path};
use reapi_dir::sum_of;
use std::alloc::Global;

// A kept row as a row that stands, under a stamp.
fn row_of(alloc: Global, kept: Kept, stamp: u64) -> Result<Row, Memory>
    ensures { IfOk result (λ row. row ≡ found_row stamp (kept_view kept)) }
{
    let Kept {
        path,
        tree,
        last,
        ..
    } = kept;
    let sum = sum_of(alloc, &tree)?;
    Ok(Row {
        path,
        tree,
        sum,
        stamp,
        stands: true,
        last,
    })
}

// Kept rows as rows that stand, under the stamps 0, 1, 2 and on.
fn rows_of(alloc: Global, found: Vec<Kept>) -> Result<Vec<Row>, Memory>
    ensures { IfOk result (λ rows. rows.items ≡ found_rows 0 (kept_list found)) }
{
    let mut rows = Vec::new(alloc);
    for kept in found {
        let stamp = rows.len() as u64;
        rows.push(row_of(alloc, kept, stamp)?)?;
    }
    Ok(rows)
}

/// The paths of kept rows.
pub(crate) fn paths_of(alloc: Global, kept: &[Kept]) -> Result<Vec<Path>, Memory>
    ensures { IfOk result (λ paths. paths.items ≡ map path_of_kept (map kept_view kept.now)) }
{
    let mut paths = Vec::new(alloc);
    for one in kept {
        paths.push(one.path.copy()?)?;
    }
    Ok(paths)
}

// The paths of those of the first version.
fn old_paths(alloc: Global, kept: &[Kept]) -> Result<Vec<Path>, Memory>
    ensures { IfOk result (λ paths. paths.items ≡ old_paths (map kept_view kept.now)) }
{
    let mut paths = Vec::new(alloc);
    for one in kept {
        if !one.new {
            paths.push(one.path.copy()?)?;
        }
    }
    Ok(paths)
}

/// The opening of what was found, lost and strayed.
#[tactic(auto, using(crate::proofs::Found::is_opening))]
pub(crate) fn opened(
    alloc: Global,
    found: Vec<Kept>,
    lost: Items<Path>,
    strays: Items<Path>,
) -> Result<Opening, Memory>
    requires { AreReady (kept_list found) lost strays }
    ensures made { IfOk result (λ opening. IsMadeOf (kept_list found) lost strays opening) }
    ensures right { IfOk result (λ opening. IsOpening opening) }
{
    let version1 = Items::of(old_paths(alloc, found.as_slice())?);
    let rows = Items::of(rows_of(alloc, found)?);
    Ok(Opening {
        rows,
        version1,
        lost,
        strays,
    })
}

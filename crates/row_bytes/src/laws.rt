//! Laws of rows as bytes. Each of these functions does nothing.
ghost use Rattle.std.specs.Prelude.{◌≡◌, ℕ, List, Ok};
ghost use Rattle.row_bytes.specs.Reading.{row_read};
ghost use Rattle.row_bytes.specs.Rows.{IsRow};
ghost use Rattle.row_bytes.specs.declared.row.KeptTree.{KeptTree};

/// A tree and an identity, or a tree without one, have one row.
pub fn row_is_one()
    ensures { (first second : List ℕ) (row : KeptTree) → IsRow first row → IsRow second row → first ≡ second }
{}

/// Bytes are a row of a tree and an identity exactly where they are read as these, and then of no others.
pub fn rows_are_read(bytes: &[u8])
    ensures read { (row : KeptTree) → IsRow bytes.now row → row_read bytes.now ≡ Ok row }
    ensures row { (row : KeptTree) → row_read bytes.now ≡ Ok row → IsRow bytes.now row }
    ensures one { (first second : KeptTree) → IsRow bytes.now first → IsRow bytes.now second → first ≡ second }
{
    let _len = bytes.len();
}
